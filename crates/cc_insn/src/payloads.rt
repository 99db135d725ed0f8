//! The data that a switch or `fill-array-data` names; `units` are those from the payload's own first one on.
//! Source: Dalvik bytecode, sections packed-switch-payload, sparse-switch-payload and fill-array-data-payload format.

ghost use Rattle.std.specs.Prelude.{◌≡◌};
ghost use Rattle.cc_meaning_insn.specs.Payloads.{packed_payload, sparse_payload, array_payload, is_width};
ghost use Rattle.cc_insn.specs.Gives.{Gives};

use crate::forms::{int_of, joined};
use crate::lists::{bytes_of, ints_of};
use cc_meaning::fault::InsnFault;
use cc_meaning::instruction::Insn;
use std::alloc::Global;

/// The targets of a switch over keys one after the other, and the first key.
#[tactic(auto, unfolding(cc_meaning_insn::specs::Payloads::packed_payload))]
pub fn packed_payload(alloc: Global, units: &[u16]) -> Result<(Insn, usize), InsnFault>
    ensures { Gives result (packed_payload units.now) }
{
    if units.len() < 4 {
        return Err(InsnFault::CutOff);
    }
    let size = usize::from(units[1]) * 2 + 4;
    if units.len() < size {
        return Err(InsnFault::CutOff);
    }
    let first = int_of(units[2], units[3]);
    let targets = ints_of(alloc, &units[4..size])?;
    Ok((Insn::PackedPayload { first, targets }, size))
}

/// The keys of a switch, and a target for each.
#[tactic(auto, unfolding(cc_meaning_insn::specs::Payloads::sparse_payload))]
pub fn sparse_payload(alloc: Global, units: &[u16]) -> Result<(Insn, usize), InsnFault>
    ensures { Gives result (sparse_payload units.now) }
{
    if units.len() < 2 {
        return Err(InsnFault::CutOff);
    }
    let count = usize::from(units[1]);
    let size = count * 4 + 2;
    if units.len() < size {
        return Err(InsnFault::CutOff);
    }
    let middle = count * 2 + 2;
    let keys = ints_of(alloc, &units[2..middle])?;
    let targets = ints_of(alloc, &units[middle..size])?;
    Ok((Insn::SparsePayload { keys, targets }, size))
}

/// The elements of an array, as bytes.
#[tactic(auto, unfolding(cc_meaning_insn::specs::Payloads::array_payload))]
pub fn array_payload(alloc: Global, units: &[u16]) -> Result<(Insn, usize), InsnFault>
    ensures { Gives result (array_payload units.now) }
{
    if units.len() < 4 {
        return Err(InsnFault::CutOff);
    }
    let width = units[1];
    let count = joined(units[2], units[3]) as usize * usize::from(width);
    let size = (count + 1) / 2 + 4;
    if units.len() < size {
        return Err(InsnFault::CutOff);
    }
    if !is_width(width) {
        return Err(InsnFault::BadPayload);
    }
    let bytes = bytes_of(alloc, &units[4..size], count)?;
    Ok((Insn::ArrayPayload { width, bytes }, size))
}

/// Whether a number of bytes is the width of a number.
fn is_width(width: u16) -> bool
    ensures { result ≡ is_width width }
{
    width == 1 || width == 2 || width == 4 || width == 8
}
