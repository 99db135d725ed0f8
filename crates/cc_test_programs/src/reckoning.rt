//! The units of instructions that reckon.

ghost use Rattle.std.specs.Prelude.{◌<◌};

use crate::form::{Form, Size, pair, pair_with_unit, single, triple, with_unit};
use crate::target::jumps;
use cc_meaning::instruction::{Conversion, Insn, IntOp, UnaryOp};

/// The place of an operation among the operations.
fn op_at(op: IntOp) -> u16
    ensures { result < 11 }
{
    match op {
        IntOp::Add => 0,
        IntOp::Sub => 1,
        IntOp::Mul => 2,
        IntOp::Div => 3,
        IntOp::Rem => 4,
        IntOp::And => 5,
        IntOp::Or => 6,
        IntOp::Xor => 7,
        IntOp::Shl => 8,
        IntOp::Shr => 9,
        IntOp::Ushr => 10,
    }
}

fn conversion(op: Conversion) -> u16 {
    match op {
        Conversion::IntToLong => 0x81,
        Conversion::LongToInt => 0x84,
        Conversion::IntToByte => 0x8d,
        Conversion::IntToChar => 0x8e,
        Conversion::IntToShort => 0x8f,
    }
}

fn unary(op: UnaryOp) -> u16
    ensures { result < 2 }
{
    match op {
        UnaryOp::Negate => 0,
        UnaryOp::Not => 1,
    }
}

/// What reckons.
pub fn reckons(insn: &Insn, size: Size) -> Option<Form> {
    match insn {
        Insn::CompareLong { to, left, right } => triple(0x31, *to, *left, *right),
        Insn::IntUnary { op, to, from } => pair(0x7b + unary(*op), *to, *from),
        Insn::LongUnary { op, to, from } => pair(0x7d + unary(*op), *to, *from),
        Insn::Convert { op, to, from } => pair(conversion(*op), *to, *from),
        Insn::IntOp {
            op,
            to,
            left,
            right,
        } => operation(op_at(*op), *to, *left, *right, size),
        Insn::LongOp {
            op,
            to,
            left,
            right,
        } => operation(op_at(*op) + 11, *to, *left, *right, size),
        Insn::IntLit {
            op,
            to,
            left,
            literal,
            ..
        } => with_literal(op_at(*op), *to, *left, *literal),
        other => jumps(other, size),
    }
}

/// An operation: of two registers, where it writes to its left operand, or of three.
fn operation(op: u16, to: u16, left: u16, right: u16, size: Size) -> Option<Form>
    requires { op < 22 }
{
    match pair(0xb0 + op, to, right) {
        Some(form) if size == Size::Short && to == left => Some(form),
        _ => triple(0x90 + op, to, left, right),
    }
}

/// An operation with a literal of 8 bits, or of 16 where it is no shift.
fn with_literal(op: u16, to: u16, left: u16, literal: i32) -> Option<Form>
    requires { op < 11 }
{
    if let Ok(literal) = i8::try_from(literal) {
        return triple(0xd8 + op, to, left, u16::from(literal.cast_unsigned()));
    }
    let literal = i16::try_from(literal).ok()?;
    if op > 7 {
        return None;
    }
    pair_with_unit(0xd0 + op, to, left, literal.cast_unsigned())
}
