//! A clone as a node of a link.

ghost use Rattle.std.specs.Prelude.{◌≡◌, ◌≤◌, ℕ, [], length, drop, Result, OnOk, OnErr};
ghost use Rattle.cc_meaning.specs.declared.travel.CloneEnd.TheVariants.{OutOfMemory};
ghost use Rattle.cc_meaning_nodes.specs.Talk.{Open, Closed, AddsFront, talk, says, with_said};
ghost use Rattle.cc_meaning_nodes.specs.Clone.{Waiting};
ghost use Rattle.cc_meaning_plain.specs.declared.plain.Plain.{Plain as PlainFile};
ghost use Rattle.cc_meaning_clone.specs.Plain.{plain_clone, IsVerdict, HasVerdict};
ghost use Rattle.cc_clone.specs.Node.{cause_of};

use crate::job::Job;
use crate::stream;
use cc_framing::FrameReader;
use cc_meaning::fault::Memory;
use cc_meaning::travel::CloneEnd;
use std::alloc::{AllocError, Global};
use std::marker::Model;

/// A clone of plain files. It stands for what it said that was not dropped yet, and for where it stands: before its Hello or after it, with the bytes of its
/// present frame, or closed.
#[derive(Drop)]
pub struct CloneNode {
    job: Option<Job>,
    reader: FrameReader,
    replies: Vec<u8>,
    end: Option<CloneEnd>,
}

impl Model for CloneNode {
    ghost use Rattle.std.specs.Prelude.{◌≡◌, None};
    ghost use Rattle.cc_meaning.specs.declared.travel.CloneEnd.{CloneEnd};
    ghost use Rattle.cc_meaning_nodes.specs.Clone.{ClonePlace};
    ghost use Rattle.cc_meaning_nodes.specs.Talk.{Talk};
    ghost use Rattle.cc_meaning_plain.specs.declared.plain.Plain.{Plain};
    ghost use Rattle.cc_clone.specs.Node.{next_in, standing_at, IsHeld};

    ghost Value = { Talk (ClonePlace Plain) CloneEnd };

    ghost view = { λ a. record { said = a.replies.items; standing = standing_at (next_in a.end a.job) a.reader } };

    ghost invariant = { λ a. a.end ≡ None → IsHeld a.reader };
}

impl CloneNode {
    /// A clone at the start of a stream. Takes no memory.
    pub fn new(alloc: Global) -> CloneNode
        ensures { result ≡ record { said = []; standing = Open Waiting [] } }
    {
        CloneNode {
            job: None,
            reader: FrameReader::new(alloc),
            replies: Vec::new(alloc),
            end: None,
        }
    }

    /// Answers a piece of the stream. A closed clone does nothing. Without memory the clone is closed.
    pub fn feed(&mut self, piece: &[u8]) -> Result<(), Memory>
        // By each verdict on the Hello that is right, this is what a clone says to the piece, and where it stands then.
        ensures ok { OnOk result ((verdict : Result PlainFile ℕ) → IsVerdict self.old.standing piece.now verdict →
            self.new ≡ with_said self.old.said (talk (plain_clone verdict) self.old.standing piece.now)) }
        // There is one.
        ensures judged { OnOk result (HasVerdict self.old.standing piece.now) }
        ensures closed { OnErr result (self.new.standing ≡ Closed OutOfMemory) }
        // What is said without memory is a front of what is due.
        ensures front { OnErr result ((verdict : Result PlainFile ℕ) → IsVerdict self.old.standing piece.now verdict →
            AddsFront self.old.said self.new.said (says (plain_clone verdict) self.old.standing piece.now)) }
    {
        let CloneNode {
            job,
            reader,
            replies,
            end,
        } = self;
        if end.is_some() {
            return Ok(());
        }
        let alloc = *replies.allocator();
        match stream::feed(alloc, job, reader, replies, piece) {
            Ok(cause) => {
                *end = cause;
                Ok(())
            }
            Err(AllocError) => {
                *end = Some(CloneEnd::OutOfMemory);
                Err(Memory)
            }
        }
    }

    /// What the clone said, from the first byte that was not dropped. Takes no memory.
    pub fn replies(&self) -> &[u8]
        ensures { result.now ≡ self.now.said }
    {
        &self.replies
    }

    /// Drops the first bytes of what the clone said. Takes no memory.
    pub fn drop_replies(&mut self, count: usize)
        requires { count ≤ length self.old.said }
        ensures { self.new ≡ record { said = drop count self.old.said; standing = self.old.standing } }
    {
        stream::drop_front(&mut self.replies, count);
    }

    /// Why the clone is closed, where it is. Takes no memory.
    pub fn closed(&self) -> Option<CloneEnd>
        ensures { result ≡ cause_of self.now.standing }
    {
        self.end
    }
}
