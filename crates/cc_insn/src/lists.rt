//! Lists that units spell: arguments, signed numbers and bytes.
//! Source: Dalvik executable instruction formats, section The formats; Dalvik bytecode, sections on payload formats.

ghost use Rattle.std.specs.Prelude.{◌≡◌, ◌+◌, ◌*◌, ◌/◌, ◌≤◌, IfOk, length, take};
ghost use Rattle.cc_meaning_insn.specs.Forms.{of_listed, listed_units, registers_from, ranged_units, high_half};
ghost use Rattle.cc_meaning_insn.specs.Payloads.{ints_of, bytes_of};

use crate::forms::int_of;
use cc_meaning::instruction::{Insn, MethodRef, TypeRef};
use cc_meaning::lists::{Bytes, Offsets, Registers};
use cc_meaning_insn::Listed;
use std::alloc::{AllocError, Global};

/// An instruction that names its arguments one by one.
pub fn listed_units(
    alloc: Global,
    form: Listed,
    high: u8,
    second: u16,
    third: u16,
) -> Result<Insn, AllocError>
    requires { high_half high ≤ 5 }
    ensures { IfOk result (λ insn. insn ≡ listed_units form high second third) }
{
    let all = [
        third % 16,
        third / 16 % 16,
        third / 256 % 16,
        third / 4096,
        u16::from(high % 16),
    ];
    let args = Registers::from_slice(alloc, &all[..usize::from(high / 16)])?;
    Ok(of_listed(form, u32::from(second), args))
}

/// An instruction that names its first argument and how many there are.
pub fn ranged_units(
    alloc: Global,
    form: Listed,
    high: u8,
    second: u16,
    third: u16,
) -> Result<Insn, AllocError>
    ensures { IfOk result (λ insn. insn ≡ ranged_units form high second third) }
{
    let args = registers_from(alloc, high, third)?;
    Ok(of_listed(form, u32::from(second), args))
}

/// That many registers, one after the other; behind the last one, 65535, comes register 0.
fn registers_from(alloc: Global, count: u8, first: u16) -> Result<Registers, AllocError>
    ensures { IfOk result (λ registers. registers ≡ registers_from count first) }
{
    let mut registers = Vec::with_capacity(alloc, usize::from(count))?;
    let mut next = first;
    for _ in 0..count {
        registers.push(next)?;
        next = next.wrapping_add(1);
    }
    Ok(Registers::from_vec(registers))
}

fn of_listed(form: Listed, row: u32, args: Registers) -> Insn
    ensures { result ≡ of_listed form row args }
{
    match form {
        Listed::FilledNewArray => Insn::FilledNewArray {
            named: TypeRef::Row(row),
            args,
        },
        Listed::Invoke(how) => Insn::Invoke {
            how,
            named: MethodRef::Row(row),
            args,
        },
    }
}

/// Signed numbers of two units each.
pub fn ints_of(alloc: Global, units: &[u16]) -> Result<Offsets, AllocError>
    ensures { IfOk result (λ ints. ints ≡ ints_of units.now) }
{
    let count = units.len() / 2;
    let mut ints = Vec::with_capacity(alloc, count)?;
    for i in 0..count {
        ints.push(int_of(units[2 * i], units[2 * i + 1]))?;
    }
    Ok(Offsets::from_vec(ints))
}

/// That many bytes, two in each unit, the lower first.
pub fn bytes_of(alloc: Global, units: &[u16], count: usize) -> Result<Bytes, AllocError>
    requires { length units.now ≡ (count + 1) / 2 }
    ensures { IfOk result (λ bytes. bytes ≡ take count (bytes_of units.now)) }
{
    let mut bytes = Vec::with_capacity(alloc, count)?;
    for unit in units {
        bytes.push((*unit % 256) as u8)?;
        bytes.push((*unit / 256) as u8)?;
    }
    bytes.truncate(count);
    Ok(Bytes::from_vec(bytes))
}
