//! The units of an instruction.
//! Source: Dalvik executable instruction formats, section The formats; Dalvik bytecode, section Summary of bytecode set.

ghost use Rattle.std.specs.Prelude.{◌<◌};

use crate::reckoning::reckons;
use cc_meaning::instruction::{How, Insn, Kind, Test};

/// Which of its forms an instruction takes, where it has several.
#[derive(Clone, Copy, PartialEq, Eq)]
pub enum Size {
    /// The shortest that holds the operands; a constant of 32 bits is never one of high bits.
    Short,
    /// That of the widest operands.
    Wide,
}

/// The units of an instruction. Where the file's rows belong stands 0.
#[derive(Clone, Copy)]
pub enum Form {
    One(u16),
    Two(u16, u16),
    Three(u16, u16, u16),
    Five(u16, [u16; 4]),
}

/// A number of at most four bits.
pub fn half(number: u16) -> Option<u16> {
    if number < 16 { Some(number) } else { None }
}

/// A number of at most eight bits.
pub fn byte(number: u16) -> Option<u16> {
    if number < 256 { Some(number) } else { None }
}

/// An opcode with the byte above it.
pub fn first(opcode: u16, high: u16) -> u16 {
    (high << 8) | opcode
}

/// Two halves of a byte, the lower first.
pub fn halves(low: u16, high: u16) -> Option<u16> {
    let low = half(low)?;
    let high = half(high)?;
    Some((high << 4) | low)
}

/// One register, of at most 256.
pub fn single(opcode: u16, register: u16) -> Option<Form> {
    let high = byte(register)?;
    Some(Form::One(first(opcode, high)))
}

/// Two registers, of at most 16.
pub fn pair(opcode: u16, low: u16, high: u16) -> Option<Form> {
    let high = halves(low, high)?;
    Some(Form::One(first(opcode, high)))
}

/// One register, and a unit.
pub fn with_unit(opcode: u16, register: u16, unit: u16) -> Option<Form> {
    let high = byte(register)?;
    Some(Form::Two(first(opcode, high), unit))
}

/// One register, and two units, the lower first.
pub fn with_units(opcode: u16, register: u16, number: u32) -> Option<Form> {
    let high = byte(register)?;
    Some(Form::Three(
        first(opcode, high),
        (number % 65536) as u16,
        (number / 65536) as u16,
    ))
}

/// Two registers, of at most 16, and a unit.
pub fn pair_with_unit(opcode: u16, low: u16, high: u16, unit: u16) -> Option<Form> {
    let high = halves(low, high)?;
    Some(Form::Two(first(opcode, high), unit))
}

/// Three registers, of at most 256.
pub fn triple(opcode: u16, to: u16, left: u16, right: u16) -> Option<Form> {
    let high = byte(to)?;
    let left = byte(left)?;
    let right = byte(right)?;
    Some(Form::Two(first(opcode, high), (right << 8) | left))
}

/// The place of a kind among those of an access.
fn kind_at(kind: Kind) -> u16
    ensures { result < 7 }
{
    match kind {
        Kind::Plain => 0,
        Kind::Wide => 1,
        Kind::Object => 2,
        Kind::Boolean => 3,
        Kind::Byte => 4,
        Kind::Char => 5,
        Kind::Short => 6,
    }
}

/// The place of a test among the tests.
pub fn test_at(test: Test) -> u16
    ensures { result < 6 }
{
    match test {
        Test::Eq => 0,
        Test::Ne => 1,
        Test::Lt => 2,
        Test::Ge => 3,
        Test::Gt => 4,
        Test::Le => 5,
    }
}

/// The place of an invoke among the invokes.
fn how_at(how: How) -> u16
    ensures { result < 5 }
{
    match how {
        How::Virtual => 0,
        How::Super => 1,
        How::Direct => 2,
        How::Static => 3,
        How::Interface => 4,
    }
}

/// The form of an instruction, or `None` where its operands fit in none. Targets are written as 0.
pub fn form_of(insn: &Insn, size: Size) -> Option<Form> {
    match insn {
        Insn::Nop => Some(Form::One(0)),
        Insn::Move { kind, to, from } => moves(move_opcode(*kind), *to, *from, size),
        Insn::MoveResult { kind, to } => single(0x0a + kind_at(*kind), *to),
        Insn::MoveException { to } => single(0x0d, *to),
        Insn::ReturnVoid => Some(Form::One(0x0e)),
        Insn::Return { kind, from } => single(0x0f + kind_at(*kind), *from),
        Insn::ConstInt { to, value } => const_int(*to, *value, size),
        Insn::ConstLong { to, value } => const_long(*to, *value, size),
        Insn::Monitor { enter, object } => single(if *enter { 0x1d } else { 0x1e }, *object),
        Insn::Throw { object } => single(0x27, *object),
        Insn::ArrayLength { to, array } => pair(0x21, *to, *array),
        other => names(other, size),
    }
}

/// The opcode of a move, of which there are three.
fn move_opcode(kind: Kind) -> u16
    ensures { result < 256 }
{
    match kind {
        Kind::Wide => 0x04,
        Kind::Object => 0x07,
        _ => 0x01,
    }
}

/// A move: of registers below 16, or of any.
fn moves(opcode: u16, to: u16, from: u16, size: Size) -> Option<Form>
    requires { opcode < 256 }
{
    match pair(opcode, to, from) {
        Some(form) if size == Size::Short => Some(form),
        _ => with_unit(opcode + 1, to, from),
    }
}

/// A constant of 32 bits: `const/4`, `const/16` or `const`.
fn const_int(to: u16, value: i32, size: Size) -> Option<Form> {
    if size == Size::Short && (-8..8).contains(&value) && to < 16 {
        return pair(0x12, to, (value.cast_unsigned() % 16) as u16);
    }
    match i16::try_from(value) {
        Ok(value) if size == Size::Short => with_unit(0x13, to, value.cast_unsigned()),
        _ => with_units(0x14, to, value.cast_unsigned()),
    }
}

/// A constant of 64 bits: `const-wide/16`, `const-wide/32` or `const-wide`.
fn const_long(to: u16, value: i64, size: Size) -> Option<Form> {
    if size == Size::Short {
        if let Ok(value) = i16::try_from(value) {
            return with_unit(0x16, to, value.cast_unsigned());
        }
        if let Ok(value) = i32::try_from(value) {
            return with_units(0x17, to, value.cast_unsigned());
        }
    }
    let high = byte(to)?;
    let bits = value.cast_unsigned();
    let units = [
        (bits % 65536) as u16,
        (bits / 65536 % 65536) as u16,
        (bits / 65536 / 65536 % 65536) as u16,
        (bits / 65536 / 65536 / 65536 % 65536) as u16,
    ];
    Some(Form::Five(first(0x18, high), units))
}

/// What names a row of the file but for invokes.
fn names(insn: &Insn, size: Size) -> Option<Form> {
    match insn {
        Insn::ConstText { to, .. } if size == Size::Wide => with_units(0x1b, *to, 0),
        Insn::ConstText { to, .. } => with_unit(0x1a, *to, 0),
        Insn::ConstClass { to, .. } => with_unit(0x1c, *to, 0),
        Insn::CheckCast { object, .. } => with_unit(0x1f, *object, 0),
        Insn::InstanceOf { to, object, .. } => pair_with_unit(0x20, *to, *object, 0),
        Insn::NewInstance { to, .. } => with_unit(0x22, *to, 0),
        Insn::NewArray { to, length, .. } => pair_with_unit(0x23, *to, *length, 0),
        other => accesses(other, size),
    }
}

/// Accesses to elements and to fields.
fn accesses(insn: &Insn, size: Size) -> Option<Form> {
    match insn {
        Insn::ArrayGet {
            kind,
            to,
            array,
            index,
        } => triple(0x44 + kind_at(*kind), *to, *array, *index),
        Insn::ArrayPut {
            kind,
            from,
            array,
            index,
        } => triple(0x4b + kind_at(*kind), *from, *array, *index),
        Insn::FieldGet {
            kind,
            to,
            object,
            ..
        } => pair_with_unit(0x52 + kind_at(*kind), *to, *object, 0),
        Insn::FieldPut {
            kind,
            from,
            object,
            ..
        } => pair_with_unit(0x59 + kind_at(*kind), *from, *object, 0),
        Insn::StaticGet { kind, to, .. } => with_unit(0x60 + kind_at(*kind), *to, 0),
        Insn::StaticPut { kind, from, .. } => with_unit(0x67 + kind_at(*kind), *from, 0),
        other => passes(other, size),
    }
}

/// What passes arguments: up to five one by one, or a range.
fn passes(insn: &Insn, size: Size) -> Option<Form> {
    match insn {
        Insn::FilledNewArray { args, .. } => passing(0x24, 0x25, args.as_slice(), size),
        Insn::Invoke { how, args, .. } => {
            let how = how_at(*how);
            passing(0x6e + how, 0x74 + how, args.as_slice(), size)
        }
        other => reckons(other, size),
    }
}

/// The argument at a place, and 0 past the last one.
fn arg(args: &[u16], at: usize) -> Option<u16> {
    match args.get(at) {
        Some(register) => half(*register),
        None => Some(0),
    }
}

/// Arguments one by one, or where that is no form a range of them.
fn passing(listed: u16, ranged: u16, args: &[u16], size: Size) -> Option<Form> {
    match one_by_one(listed, args) {
        Some(form) if size == Size::Short => Some(form),
        _ => in_range(ranged, args),
    }
}

/// Up to five arguments, of at most 16 registers.
fn one_by_one(opcode: u16, args: &[u16]) -> Option<Form> {
    if args.len() > 5 {
        return None;
    }
    let low = halves(arg(args, 0)?, arg(args, 1)?)?;
    let high = halves(arg(args, 2)?, arg(args, 3)?)?;
    let count = halves(arg(args, 4)?, args.len() as u16)?;
    Some(Form::Three(first(opcode, count), 0, (high << 8) | low))
}

/// Whether the second of two registers is the one behind the first.
fn follows(two: &[u16]) -> bool {
    match two {
        [one, other] => one.checked_add(1) == Some(*other),
        _ => false,
    }
}

/// Whether registers are one behind the other.
fn are_in_range(args: &[u16]) -> bool {
    args.windows(2).all(|two| follows(two))
}

/// A range of registers.
fn in_range(opcode: u16, args: &[u16]) -> Option<Form> {
    let count = u16::try_from(args.len()).ok()?;
    let count = byte(count)?;
    if !are_in_range(args) {
        return None;
    }
    let start = args.first().copied().unwrap_or(0);
    Some(Form::Three(first(opcode, count), 0, start))
}
