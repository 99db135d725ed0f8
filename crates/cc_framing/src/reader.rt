//! A reader of frames from pieces of a stream.

ghost use Rattle.std.specs.Prelude.{◌≡◌, ◌<◌, ◌≤◌, ◌+◌, List, ℕ, [], ◌++◌, length, IsSome, MatchOption};
ghost use Rattle.cc_meaning_nodes.specs.Frames.{Rest, Fails, Partial, Whole, front_of, IsPartial};
ghost use Rattle.cc_framing.specs.Reader.{Feeds, Advances, Holds, IsReading, wanted_of, wanted_in, standing, without_standing};

use crate::held::Held;
use crate::present;
use cc_meaning::fault::FrameFault;
use cc_meaning::frame::Frame;
use cc_meaning::lists::Bytes;
use std::alloc::Global;
use std::marker::Model;

/// A reader of frames. It stands for the bytes of its present frame, or for its fault.
#[derive(Drop)]
pub struct FrameReader {
    held: Held,
    fault: Option<FrameFault>,
}

impl Model for FrameReader {
    ghost use Rattle.cc_meaning_nodes.specs.Frames.{Ending};
    ghost use Rattle.cc_framing.specs.Reader.{ending_in, IsReading};

    ghost Value = { Ending };

    ghost view = { λ a. ending_in a.fault a.held };

    ghost invariant = { λ a. IsReading (ending_in a.fault a.held) };
}

impl FrameReader {
    /// A reader at the start of a stream. Takes no memory.
    #[tactic(auto, using(crate::proofs::Growing::within_nil, crate::proofs::Growing::front_nil))]
    pub fn new(alloc: Global) -> FrameReader
        ensures nothing { result ≡ Rest [] }
        ensures partial { IsPartial result }
    {
        FrameReader {
            held: Held::new(alloc),
            fault: None,
        }
    }

    /// How many bytes may be fed without passing the end of the present frame. Takes no memory.
    pub fn wanted(&self) -> usize
        ensures value { result ≡ wanted_of self.now }
        ensures whole { IsSome (standing self.now) → result ≡ 0 }
        // Of less than a frame more is wanted, and never more than the longest frame has.
        ensures part { (held : List ℕ) → self.now ≡ Rest held → front_of held ≡ Partial → 0 < result }
        ensures fits { (held : List ℕ) → self.now ≡ Rest held → length held + result ≤ 67108889 }
    {
        if self.fault.is_some() {
            return 0;
        }
        present::wanted(&self.held)
    }

    /// Takes what of the piece belongs to the present frame, and says how many bytes that were: none while a whole frame stands.
    /// Without memory all is as before, and after a fault of the bytes it is answered for good.
    pub fn feed(&mut self, piece: &[u8]) -> Result<usize, FrameFault>
        ensures feeds { Feeds self.old piece.now result self.new }
        // The frames of the stream are the one that stands then, and those of what is left of it.
        ensures advances { Advances self.old piece.now result self.new }
        // A piece that is no longer than what is wanted is held whole.
        ensures holds { (held : List ℕ) → self.old ≡ Rest held → front_of held ≡ Partial →
            length piece.now ≤ wanted_in held → Holds held piece.now result self.new }
        // What is held never goes past the end of a frame.
        ensures within { IsReading self.new }
    {
        self.feed_present(piece)
    }

    #[tactic(auto, using(crate::proofs::Growing::within_nil))]
    fn feed_present(&mut self, piece: &[u8]) -> Result<usize, FrameFault>
        ensures feeds { Feeds self.old piece.now result self.new }
        ensures was { IsReading self.old }
        ensures within { IsReading self.new }
    {
        if let Some(fault) = self.fault {
            return Err(fault);
        }
        match present::grow(&mut self.held, piece) {
            Ok(count) => Ok(count),
            Err(FrameFault::Memory) => Err(FrameFault::Memory),
            Err(fault) => {
                self.held.clear();
                self.fault = Some(fault);
                Err(fault)
            }
        }
    }

    /// Gives the frame where it stands whole. Takes no memory, and copies no payload.
    #[tactic(auto, using(crate::proofs::Growing::within_nil, crate::proofs::Growing::front_nil))]
    pub fn take(&mut self) -> Option<Frame>
        ensures taken { result ≡ standing self.old }
        ensures left { self.new ≡ without_standing self.old }
        ensures partial { IsPartial self.new }
        ensures stood { (held : List ℕ) → self.old ≡ Rest held →
            MatchOption result (front_of held ≡ Partial) (λ frame. front_of held ≡ Whole frame (length held)) }
    {
        if self.fault.is_some() {
            return None;
        }
        if !present::is_whole(&self.held) {
            return None;
        }
        let kind = self.held.byte(0);
        let payload = Bytes::from_vec(self.held.take_payload());
        Some(Frame { kind, payload })
    }
}
