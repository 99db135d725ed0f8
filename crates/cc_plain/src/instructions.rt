//! The reader of instructions (Dalvik bytecode, formats 11n, 11x, 12x, 21c, 22b and 35c).

ghost use Rattle.std.specs.Prelude.{◌≡◌, ◌+◌, ◌*◌, ◌/◌, ◌%◌, ◌<◌, ◌≤◌};
ghost use Rattle.std.specs.Prelude.{ℕ, List, map, IfOk, MatchOption};
ghost use Rattle.cc_meaning.specs.Order.{IsRising};
ghost use Rattle.cc_meaning_dex.specs.Numbers.{u16_at, Within};
ghost use Rattle.cc_meaning_plain.specs.declared.plain.PlainInsn.{PlainInsn};
ghost use Rattle.cc_meaning_plain.specs.declared.plain.Last.{Last};
ghost use Rattle.cc_meaning_plain.specs.Tables.{IsHeader, HasTables};
ghost use Rattle.cc_meaning_plain.specs.Code.{Scope, units_of, signed_nibble, signed_byte, NamesFunction, SpellsLast, SpellsInsns};
ghost use Rattle.cc_meaning_plain.specs.Plain.{name_of};
ghost use Rattle.cc_plain.specs.declared.kind.Kind.{Kind};
ghost use Rattle.cc_plain.specs.Code.{scope_in, IsOfKind, IsInsnOf, IsInsnWithin};

use super::functions::place_of;
use super::kind::{Kind, Known};
use super::names::{function_name, is_out_field, is_println};
use cc_meaning_plain::{Last, PlainInsn, PlainInsns, law_insn_once, law_name_once};
use cc_text::u16_at;
use std::alloc::{AllocError, Global};

fn read_sget_out(file: &[u8], kind: Kind, registers: u16, at: usize) -> Option<PlainInsn>
    requires header { IsHeader file.now }
    requires tables { HasTables file.now }
    requires within { Within file.now at 4 }
    requires opcode { u16_at file.now at % 256 ≡ 98 }
    ensures { (scope : Scope) → IsInsnOf file.now scope kind registers at 2 result }
{
    let to = u16_at(file, at) / 256;
    if matches!(kind, Kind::Main) && to < registers && is_out_field(file, u16_at(file, at + 2)) {
        Some(PlainInsn::SgetOut { to: to as u8 })
    } else {
        None
    }
}

/// Four bits as a number of which the highest bit is the sign.
fn signed_nibble(nibble: u16) -> i32
    requires { nibble < 16 }
    ensures { result ≡ signed_nibble nibble }
{
    if nibble < 8 {
        i32::from(nibble)
    } else {
        i32::from(nibble) - 16
    }
}

/// Eight bits as a number of which the highest bit is the sign.
fn signed_byte(byte: u16) -> i32
    requires { byte < 256 }
    ensures { result ≡ signed_byte byte }
{
    if byte < 128 {
        i32::from(byte)
    } else {
        i32::from(byte) - 256
    }
}

fn read_const4(file: &[u8], registers: u16, at: usize) -> Option<PlainInsn>
    requires within { Within file.now at 2 }
    requires opcode { u16_at file.now at % 256 ≡ 18 }
    ensures { (scope : Scope) (kind : Kind) → IsInsnOf file.now scope kind registers at 1 result }
{
    let unit = u16_at(file, at);
    let to = unit / 256 % 16;
    if to < registers {
        let value = signed_nibble(unit / 4096);
        Some(PlainInsn::Const4 {
            to: to as u8,
            value,
        })
    } else {
        None
    }
}

fn read_add_int2addr(file: &[u8], registers: u16, at: usize) -> Option<PlainInsn>
    requires within { Within file.now at 2 }
    requires opcode { u16_at file.now at % 256 ≡ 176 }
    ensures { (scope : Scope) (kind : Kind) → IsInsnOf file.now scope kind registers at 1 result }
{
    let unit = u16_at(file, at);
    let to = unit / 256 % 16;
    let other = unit / 4096;
    if to < registers && other < registers {
        Some(PlainInsn::AddInt2Addr {
            to: to as u8,
            other: other as u8,
        })
    } else {
        None
    }
}

fn read_add_int_lit8(file: &[u8], kind: Kind, registers: u16, at: usize) -> Option<PlainInsn>
    requires within { Within file.now at 4 }
    requires few_registers { registers ≤ 16 }
    requires opcode { u16_at file.now at % 256 ≡ 216 }
    ensures { (scope : Scope) → IsInsnOf file.now scope kind registers at 2 result }
{
    let to = u16_at(file, at) / 256;
    let operands = u16_at(file, at + 2);
    let from = operands % 256;
    if matches!(kind, Kind::Function) && to < registers && from < registers {
        let literal = signed_byte(operands / 256);
        Some(PlainInsn::AddIntLit8 {
            to: to as u8,
            from: from as u8,
            literal,
        })
    } else {
        None
    }
}

fn read_invoke_println(file: &[u8], kind: Kind, registers: u16, at: usize) -> Option<PlainInsn>
    requires header { IsHeader file.now }
    requires tables { HasTables file.now }
    requires within { Within file.now at 6 }
    requires opcode { u16_at file.now at % 256 ≡ 110 }
    ensures { (scope : Scope) → IsInsnOf file.now scope kind registers at 3 result }
{
    let arguments = u16_at(file, at + 4);
    let stream = arguments % 16;
    let number = arguments / 16 % 16;
    if matches!(kind, Kind::Main)
        && u16_at(file, at) / 4096 == 2
        && stream < registers
        && number < registers
        && is_println(file, u16_at(file, at + 2))
    {
        Some(PlainInsn::InvokePrintln {
            stream: stream as u8,
            number: number as u8,
        })
    } else {
        None
    }
}

/// The place of the function that a row of methods names.
fn named_function(
    alloc: Global,
    file: &[u8],
    known: &Known,
    row: u16,
) -> Result<Option<usize>, AllocError>
    requires header { IsHeader file.now }
    requires tables { HasTables file.now }
    requires rising { IsRising (map name_of known.now.functions) }
    ensures { IfOk result (λ found. MatchOption found
        ((place : ℕ) → NamesFunction file.now (scope_in known.now) row place → ⊥)
        (λ place. NamesFunction file.now (scope_in known.now) row place)) }
{
    law_name_once();
    let Some(name) = function_name(alloc, file, known.class.as_slice(), u32::from(row))? else {
        return Ok(None);
    };
    Ok(place_of(known.functions.as_slice(), name.as_slice()))
}

/// A call, and the `move-result` directly behind it.
fn read_call(
    alloc: Global,
    file: &[u8],
    known: &Known,
    kind: Kind,
    registers: u16,
    at: usize,
) -> Result<Option<PlainInsn>, AllocError>
    requires header { IsHeader file.now }
    requires tables { HasTables file.now }
    requires rising { IsRising (map name_of known.now.functions) }
    requires within { Within file.now at 8 }
    requires opcode { u16_at file.now at % 256 ≡ 113 }
    ensures { IfOk result (λ found. IsInsnOf file.now (scope_in known.now) kind registers at 4 found) }
{
    let argument = u16_at(file, at + 4) % 16;
    let result = u16_at(file, at + 6);
    let to = result / 256;
    if !matches!(kind, Kind::Main) || u16_at(file, at) / 4096 != 1 || result % 256 != 10 {
        return Ok(None);
    }
    if argument >= registers || to >= registers {
        return Ok(None);
    }
    let Some(function) = named_function(alloc, file, known, u16_at(file, at + 2))? else {
        return Ok(None);
    };
    Ok(Some(PlainInsn::CallFunction {
        function,
        argument: argument as u8,
        to: to as u8,
    }))
}

/// The instruction at `at`, if it is one of those that the method may have and lies within the units that are left.
fn read_insn(
    alloc: Global,
    file: &[u8],
    known: &Known,
    kind: Kind,
    registers: u16,
    at: usize,
    left: usize,
) -> Result<Option<PlainInsn>, AllocError>
    requires header { IsHeader file.now }
    requires tables { HasTables file.now }
    requires rising { IsRising (map name_of known.now.functions) }
    requires few_registers { registers ≤ 16 }
    requires within { Within file.now at (2 * left) }
    requires some { 1 ≤ left }
    ensures { IfOk result (λ found. IsInsnWithin file.now (scope_in known.now) kind registers at left found) }
{
    let opcode = u16_at(file, at) % 256;
    if opcode == 113 && left >= 4 {
        return read_call(alloc, file, known, kind, registers, at);
    }
    let found = if opcode == 98 && left >= 2 {
        read_sget_out(file, kind, registers, at)
    } else if opcode == 18 {
        read_const4(file, registers, at)
    } else if opcode == 176 {
        read_add_int2addr(file, registers, at)
    } else if opcode == 216 && left >= 2 {
        read_add_int_lit8(file, kind, registers, at)
    } else if opcode == 110 && left >= 3 {
        read_invoke_println(file, kind, registers, at)
    } else {
        None
    };
    Ok(found)
}

fn units_of(insn: PlainInsn) -> usize
    ensures { result ≡ units_of insn }
{
    match insn {
        PlainInsn::SgetOut { .. } => 2,
        PlainInsn::Const4 { .. } => 1,
        PlainInsn::AddInt2Addr { .. } => 1,
        PlainInsn::AddIntLit8 { .. } => 2,
        PlainInsn::InvokePrintln { .. } => 3,
        PlainInsn::CallFunction { .. } => 4,
    }
}

/// The instruction at `at`, if it ends a method of that kind.
fn read_last(file: &[u8], kind: Kind, registers: u16, at: usize) -> Option<Last>
    requires few_registers { registers ≤ 16 }
    requires within { Within file.now at 2 }
    ensures { MatchOption result
        ((last : Last) → IsOfKind kind last → SpellsLast last registers (u16_at file.now at) → ⊥)
        (λ last. IsOfKind kind last × SpellsLast last registers (u16_at file.now at)) }
{
    let unit = u16_at(file, at);
    match kind {
        Kind::Main if unit % 256 == 14 => Some(Last::ReturnVoid),
        Kind::Function if unit % 256 == 15 && unit / 256 < registers => Some(Last::Return {
            from: (unit / 256) as u8,
        }),
        _ => None,
    }
}

/// The instructions in `count` units from `start` on, and the last one, which ends them.
pub fn read_insns(
    alloc: Global,
    file: &[u8],
    known: &Known,
    kind: Kind,
    registers: u16,
    start: usize,
    count: usize,
) -> Result<Option<(PlainInsns, Last)>, AllocError>
    requires header { IsHeader file.now }
    requires tables { HasTables file.now }
    requires rising { IsRising (map name_of known.now.functions) }
    requires few_registers { registers ≤ 16 }
    requires within { Within file.now start (2 * count) }
    ensures { IfOk result (λ read. MatchOption read
        ((insns : List PlainInsn) (last : Last) → IsOfKind kind last → SpellsInsns file.now (scope_in known.now) last registers start count insns → ⊥)
        (λ r. IsOfKind kind r.1 × SpellsInsns file.now (scope_in known.now) r.1 registers start count r.0)) }
{
    law_insn_once();
    let mut insns = PlainInsns::new(alloc);
    let mut at = start;
    let mut left = count;
    while left > 1 {
        let Some(insn) = read_insn(alloc, file, known, kind, registers, at, left)? else {
            return Ok(None);
        };
        insns.push(insn)?;
        let units = units_of(insn);
        at += 2 * units;
        left -= units;
    }
    if left == 0 {
        return Ok(None);
    }
    match read_last(file, kind, registers, at) {
        Some(last) => Ok(Some((insns, last))),
        None => Ok(None),
    }
}
