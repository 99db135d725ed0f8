//! Operations on ints, and what they are converted to. None takes memory.
//! Source: Dalvik bytecode, sections Summary of bytecode set and Mathematical operations.

ghost use Rattle.std.specs.Prelude.{◌≡◌, ◌↔◌, IfOk, IsErr};
ghost use Rattle.std.specs.Int.{w32};
ghost use Rattle.cc_meaning.specs.declared.instruction.Conversion.TheVariants.{IntToLong, IntToByte, IntToChar, IntToShort};
ghost use Rattle.cc_meaning_insn.specs.Arithmetic.{op_value, DividesByZero, unary_value, converted};

use cc_meaning::instruction::{IntOp, UnaryOp};
use std::fmt;
use thiserror::Error;

/// A division or a remainder by zero.
#[derive(Clone, Copy, Debug, Error)]
pub struct DivideByZero;

impl fmt::Display for DivideByZero {
    fn fmt<W: fmt::Write>(&self, f: &mut fmt::Formatter<W>) -> fmt::Result {
        f.write_str("division by zero")
    }
}

/// What an operation on two ints comes to.
pub fn int_op(op: IntOp, a: i32, b: i32) -> Result<i32, DivideByZero>
    ensures value { IfOk result (λ n. n ≡ op_value w32 op a b) }
    ensures refused { IsErr result ↔ DividesByZero op b }
{
    match op {
        IntOp::Add => Ok(a.wrapping_add(b)),
        IntOp::Sub => Ok(a.wrapping_sub(b)),
        IntOp::Mul => Ok(a.wrapping_mul(b)),
        IntOp::Div if b == 0 => Err(DivideByZero),
        IntOp::Div => Ok(a.wrapping_div(b)),
        IntOp::Rem if b == 0 => Err(DivideByZero),
        IntOp::Rem => Ok(a.wrapping_rem(b)),
        IntOp::And => Ok(a & b),
        IntOp::Or => Ok(a | b),
        IntOp::Xor => Ok(a ^ b),
        IntOp::Shl => Ok(a.wrapping_shl(b.cast_unsigned())),
        IntOp::Shr => Ok(a.wrapping_shr(b.cast_unsigned())),
        IntOp::Ushr => Ok(
            a.cast_unsigned()
                .wrapping_shr(b.cast_unsigned())
                .cast_signed(),
        ),
    }
}

/// What an operation on one int comes to.
pub fn int_unary(op: UnaryOp, a: i32) -> i32
    ensures { result ≡ unary_value w32 op a }
{
    match op {
        UnaryOp::Negate => a.wrapping_neg(),
        UnaryOp::Not => !a,
    }
}

/// The same number as a long.
pub fn int_to_long(a: i32) -> i64
    ensures { result ≡ converted IntToLong a }
{
    i64::from(a)
}

/// The low 8 bits, with their sign.
pub fn int_to_byte(a: i32) -> i32
    ensures { result ≡ converted IntToByte a }
{
    let low = (a.cast_unsigned() % 256) as u8;
    i32::from(low.cast_signed())
}

/// The low 16 bits, as a number without a sign.
pub fn int_to_char(a: i32) -> i32
    ensures { result ≡ converted IntToChar a }
{
    (a.cast_unsigned() % 65536) as i32
}

/// The low 16 bits, with their sign.
pub fn int_to_short(a: i32) -> i32
    ensures { result ≡ converted IntToShort a }
{
    let low = (a.cast_unsigned() % 65536) as u16;
    i32::from(low.cast_signed())
}
