//! Instructions one by one.
//! Source: Dalvik bytecode, section Summary of bytecode set; Dalvik executable instruction formats.

ghost use Rattle.std.specs.Prelude.{◌≡◌, ◌≢◌, ℕ, ◌<◌, length, IfOk, IfErr, IsErrOf};
ghost use Rattle.cc_meaning.specs.declared.instruction.Insn.{Insn};
ghost use Rattle.cc_meaning_insn.specs.Decoded.{decoded, of_opcode};
ghost use Rattle.cc_meaning_insn.specs.Spelling.{Spells};
ghost use Rattle.cc_insn.specs.Gives.{Gives, IsOfList};

use crate::forms::{joined, long_of, one_unit, three_units, two_units};
use crate::lists::{listed_units, ranged_units};
use crate::opcodes::opcode_at;
use crate::payloads::{array_payload, packed_payload, sparse_payload};
use cc_meaning::fault::InsnFault;
use cc_meaning::instruction::Insn;
use cc_meaning_insn::{Opcode, insn_agrees};
use std::alloc::Global;

/// How many arguments an instruction can name one by one.
const MOST_LISTED: u8 = 5;

/// The instruction at `at`, and how many units it takes. Rows of the file stand where it names a text, a type, a field or a method. Memory is taken only
/// for a list of arguments or a payload, and only where all its units are there.
pub fn decode(alloc: Global, units: &[u16], at: usize) -> Result<(Insn, usize), InsnFault>
    ensures ok { IfOk result (λ found. decoded units.now at ≡ Ok found) }
    ensures err { IfErr result (λ fault. fault ≢ InsnFault.Memory → decoded units.now at ≡ Err fault) }
    ensures memory { IsErrOf result InsnFault.Memory → IsOfList (decoded units.now at) }
    ensures spelled { IfOk result (λ found. Spells units.now at found.0 found.1) }
    ensures refused { IfErr result (λ fault. fault ≢ InsnFault.Memory → (insn : Insn) (size : ℕ) → ¬ Spells units.now at insn size) }
{
    insn_agrees();
    read(alloc, units, at)
}

fn read(alloc: Global, units: &[u16], at: usize) -> Result<(Insn, usize), InsnFault>
    ensures { Gives result (decoded units.now at) }
{
    if at >= units.len() {
        return Err(InsnFault::CutOff);
    }
    let (_, rest) = units.split_at(at);
    match rest[0] {
        0x0100 => packed_payload(alloc, rest),
        0x0200 => sparse_payload(alloc, rest),
        0x0300 => array_payload(alloc, rest),
        first => of_opcode(alloc, opcode_at((first % 256) as u8), rest),
    }
}

/// What the units of an opcode spell, from the opcode's own on.
#[tactic(auto, unfolding(cc_meaning_insn::specs::Decoded::of_opcode))]
fn of_opcode(alloc: Global, opcode: Opcode, units: &[u16]) -> Result<(Insn, usize), InsnFault>
    requires { 0 < length units.now }
    ensures { Gives result (of_opcode opcode units.now) }
{
    let high = (units[0] / 256) as u8;
    match opcode {
        Opcode::Float => Err(InsnFault::Float),
        Opcode::Unused => Err(InsnFault::Unused),
        Opcode::One(form) => Ok((one_unit(form, high), 1)),
        Opcode::Listed(_) if high / 16 > MOST_LISTED => Err(InsnFault::Unused),
        Opcode::Two(_) if units.len() < 2 => Err(InsnFault::CutOff),
        Opcode::Two(form) => Ok((two_units(form, high, units[1]), 2)),
        Opcode::Five if units.len() < 5 => Err(InsnFault::CutOff),
        Opcode::Five => {
            let low = joined(units[1], units[2]);
            let value = long_of(low, joined(units[3], units[4]));
            let to = u16::from(high);
            Ok((Insn::ConstLong { to, value }, 5))
        }
        _ if units.len() < 3 => Err(InsnFault::CutOff),
        Opcode::Three(form) => Ok((three_units(form, high, units[1], units[2]), 3)),
        Opcode::Listed(form) => Ok((listed_units(alloc, form, high, units[1], units[2])?, 3)),
        Opcode::Ranged(form) => Ok((ranged_units(alloc, form, high, units[1], units[2])?, 3)),
    }
}
