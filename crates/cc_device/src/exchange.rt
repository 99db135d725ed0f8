//! Bytes sent over a link, and frames awaited.

ghost use Rattle.std.specs.Prelude.{◌≡◌, ◌↔◌, ◌≤◌, ◌++◌, length, OnOk};
ghost use Rattle.cc_link.specs.Links.{NeverFall};
ghost use Rattle.cc_link.specs.Honest.{LinkOwes};
ghost use Rattle.cc_framing.specs.Reader.{wanted_of};
ghost use Rattle.cc_device.specs.Exchanging.{SendsAll, IsTaken, LastSent, Awaits, IsGiven, LastOf, held_of, IsHeld, TakesIn};

use cc_framing::FrameReader;
use cc_link::{Got, Link, Sent};
use cc_meaning::fault::FrameFault;
use cc_meaning::frame::Frame;
use cc_meaning::travel::LinkEnd;
use std::alloc::{AllocError, Global};

/// The most bytes that are received at one time.
const MOST_RECEIVED: usize = 65_536;

/// Why an exchange came to nothing: there is no memory, or the link came to an end, after which nothing is called on it.
#[derive(Clone, Copy)]
pub(crate) enum Halt {
    Memory,
    End(LinkEnd),
}

impl From<AllocError> for Halt {
    ghost use Rattle.std.specs.Prelude.{◌≡◌};
    ghost use Rattle.cc_device.specs.declared.exchange.Halt.TheVariants.{Memory};

    ghost from_gives = { λ _ halt. halt ≡ Memory };

    fn from(_: AllocError) -> Halt {
        Halt::Memory
    }
}

/// Sends all of the bytes. Gives up once so many calls have taken none.
pub(crate) fn send_all<L: Link>(link: &mut L, bytes: &[u8], patience: u32) -> Result<(), Halt>
    requires { 1 ≤ patience }
    ensures sends { SendsAll (L.known link.old) (L.counts link.old) bytes.now patience result (L.known link.new) (L.counts link.new) }
    ensures last { L.going link.old → LastSent (L.going link.new) (L.last link.new) result }
    ensures taken { L.prompt link.old → IsTaken result }
    ensures prompt { OnOk result (L.prompt link.old → L.prompt link.new) }
    ensures counts { NeverFall (L.counts link.old) (L.counts link.new) }
    ensures honest { L.honest link.old ↔ L.honest link.new }
{
    let mut rest = bytes;
    let mut left = patience;
    'sending: while !rest.is_empty() {
        match link.send(rest) {
            Sent::Took(count) => rest = rest.split_at(count).1,
            Sent::NotYet => {
                left -= 1;
                if left == 0 {
                    return Err(Halt::End(LinkEnd::Waited(patience)));
                }
            }
            Sent::Failed => return Err(Halt::End(LinkEnd::Failed)),
            Sent::Memory => return Err(Halt::Memory),
        }
    }
    Ok(())
}

/// Feeds bytes that are wanted, and takes the frame that stands whole then.
fn take_in(reader: &mut FrameReader, piece: &[u8]) -> Result<Option<Frame>, Halt>
    requires held { IsHeld reader.old }
    requires wanted { length piece.now ≤ wanted_of reader.old }
    ensures { TakesIn (held_of reader.old ++ piece.now) result reader.new }
{
    match reader.feed(piece) {
        Ok(_) => Ok(reader.take()),
        Err(FrameFault::Memory) => Err(Halt::Memory),
        Err(fault) => Err(Halt::End(LinkEnd::BadFrame(fault))),
    }
}

/// Awaits a frame, of which each call asks for what is still wanted, at most 65,536 bytes. Gives up once so many calls have given nothing.
pub(crate) fn await_frame<L: Link>(
    alloc: Global,
    link: &mut L,
    patience: u32,
) -> Result<Frame, Halt>
    requires { 1 ≤ patience }
    ensures awaits { Awaits (L.known link.old) (L.counts link.old) patience result (L.known link.new) (L.counts link.new) }
    ensures last { L.going link.old → LastOf (L.going link.new) (L.last link.new) result }
    ensures given { L.prompt link.old → LinkOwes (L.known link.new) → IsGiven result }
    ensures prompt { OnOk result (L.prompt link.old → L.prompt link.new) }
    ensures counts { NeverFall (L.counts link.old) (L.counts link.new) }
    ensures honest { L.honest link.old ↔ L.honest link.new }
{
    let mut reader = FrameReader::new(alloc);
    let mut left = patience;
    'awaiting: loop {
        let room = reader.wanted().min(MOST_RECEIVED);
        match link.receive(room) {
            Got::Bytes(bytes) => {
                if let Some(frame) = take_in(&mut reader, bytes.as_slice())? {
                    return Ok(frame);
                }
            }
            Got::NotYet => {
                left -= 1;
                if left == 0 {
                    return Err(Halt::End(LinkEnd::Waited(patience)));
                }
            }
            Got::End => return Err(Halt::End(LinkEnd::Ended)),
            Got::Failed => return Err(Halt::End(LinkEnd::Failed)),
            Got::Memory => return Err(Halt::Memory),
        }
    }
}
