//! The present frame of a stream: what its head says, and how it grows to its end.

ghost use Rattle.std.specs.Prelude.{◌≡◌, ◌<◌, ◌≤◌, ◌+◌, ◌^◌, ◌++◌, length, slice_index, OnOk, IsTrue, IsFalse, ◌↔◌};
ghost use Rattle.cc_meaning_nodes.specs.declared.head.Head.TheVariants.{Long};
ghost use Rattle.cc_meaning_nodes.specs.Frames.{is_kind, head_of, front_of, frame_of, Partial, Whole};
ghost use Rattle.cc_framing.specs.Reader.{IsWithin, wanted_in, FrontIs, Grows};

use crate::held::{Held, PRELUDE};
use crate::spelled::digest_of;
use cc_meaning::fault::FrameFault;
use cc_meaning::frame::{HELLO, REFUSE};
use cc_meaning_nodes::head::Head;

const HEAD: usize = 5;

const LIMIT: u32 = 67_108_864;

/// A byte of the head, of what is held and the piece after it.
fn byte_at(held: &Held, piece: &[u8], place: usize) -> u8
    requires within { place < length held.now + length piece.now }
    requires front { place < HEAD }
    ensures { result ≡ slice_index (held.now ++ piece.now) place }
{
    if place < held.len() {
        held.byte(place)
    } else {
        piece[place - held.len()]
    }
}

/// Whether a byte is the kind of a frame.
fn is_kind(kind: u8) -> bool
    ensures { result ≡ is_kind kind }
{
    HELLO <= kind && kind <= REFUSE
}

/// What the head says, of what is held and the piece after it.
#[tactic(auto, unfolding(cc_meaning_nodes::specs::Frames::head_of))]
fn head(held: &Held, piece: &[u8]) -> Head
    requires { length held.now + length piece.now < 2 ^ 64 }
    ensures { result ≡ head_of (held.now ++ piece.now) }
{
    let total = held.len() + piece.len();
    if total == 0 {
        return Head::Short;
    }
    let kind = byte_at(held, piece, 0);
    if !is_kind(kind) {
        return Head::Wrong(FrameFault::BadKind);
    }
    if total < HEAD {
        return Head::Short;
    }
    let size = u32::from_be_bytes([
        byte_at(held, piece, 1),
        byte_at(held, piece, 2),
        byte_at(held, piece, 3),
        byte_at(held, piece, 4),
    ]);
    if size > LIMIT {
        return Head::Wrong(FrameFault::TooLong);
    }
    Head::Long(PRELUDE + size as usize)
}

/// What is wrong with the digest of a frame that is all there.
fn check(held: &Held) -> Option<FrameFault>
    requires long { 25 ≤ length held.now }
    requires all { head_of held.now ≡ Long (length held.now) }
    ensures { FrontIs result held.now }
{
    let (head, digest) = held.prelude().split_at(HEAD);
    let mut stated = [0u8; 20];
    stated.copy_from_slice(digest);
    let found = digest_of(head, held.payload());
    if stated == found {
        None
    } else {
        Some(FrameFault::BadDigest { stated, found })
    }
}

/// How many more bytes may be fed without passing the end of the frame.
#[tactic(auto, using(crate::proofs::Wanted::within_end))]
pub(crate) fn wanted(held: &Held) -> usize
    requires { IsWithin held.now }
    ensures { result ≡ wanted_in held.now }
{
    let len = held.len();
    if len < HEAD {
        return PRELUDE - len;
    }
    let size = u32::from_be_bytes([held.byte(1), held.byte(2), held.byte(3), held.byte(4)]);
    PRELUDE + size as usize - len
}

/// Adds what of the piece belongs to the present frame, and checks the frame where it is whole now.
pub(crate) fn grow(held: &mut Held, piece: &[u8]) -> Result<usize, FrameFault>
    requires { IsWithin held.old }
    ensures grows { Grows held.old piece.now result held.new }
    ensures within { OnOk result (IsWithin held.new) }
{
    let end = match head(held, piece) {
        Head::Short => {
            held.append(piece)?;
            return Ok(piece.len());
        }
        Head::Wrong(fault) => return Err(fault),
        Head::Long(end) => end,
    };
    let room = end - held.len();
    if room == 0 {
        return Ok(0);
    }
    if piece.len() < room {
        held.append(piece)?;
        return Ok(piece.len());
    }
    held.append(&piece[..room])?;
    match check(held) {
        Some(fault) => Err(fault),
        None => Ok(room),
    }
}

/// Whether bytes that do not go past the frame are the whole frame.
#[tactic(auto, using(crate::proofs::Wanted::whole_or_part))]
pub(crate) fn is_whole(held: &Held) -> bool
    requires { IsWithin held.now }
    ensures whole { IsTrue result ↔ (front_of held.now ≡ Whole (frame_of held.now) (length held.now)) }
    ensures part { IsFalse result ↔ (front_of held.now ≡ Partial) }
{
    PRELUDE <= held.len() && wanted(held) == 0
}
