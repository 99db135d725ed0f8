//! Operations on longs, and what they are converted to. None takes memory.
//! Source: Dalvik bytecode, sections Summary of bytecode set and Mathematical operations.

ghost use Rattle.std.specs.Prelude.{◌≡◌, ◌^◌, ◌↔◌, IfOk, IsErr};
ghost use Rattle.std.specs.Int.{w64};
ghost use Rattle.cc_meaning.specs.declared.instruction.Conversion.TheVariants.{LongToInt};
ghost use Rattle.cc_meaning_insn.specs.Arithmetic.{op_value, DividesByZero, unary_value, compared, converted, modulo};

use crate::ints::DivideByZero;
use cc_meaning::instruction::{IntOp, UnaryOp};

/// What an operation on two longs comes to. The count of a shift is a long too, of which the low 6 bits count.
pub fn long_op(op: IntOp, a: i64, b: i64) -> Result<i64, DivideByZero>
    ensures value { IfOk result (λ n. n ≡ op_value w64 op a b) }
    ensures refused { IsErr result ↔ DividesByZero op b }
{
    match op {
        IntOp::Add => Ok(a.wrapping_add(b)),
        IntOp::Sub => Ok(a.wrapping_sub(b)),
        IntOp::Mul => Ok(a.wrapping_mul(b)),
        IntOp::Div if b == 0 => Err(DivideByZero),
        IntOp::Div => Ok(a.wrapping_div(b)),
        IntOp::Rem if b == 0 => Err(DivideByZero),
        IntOp::Rem => Ok(a.wrapping_rem(b)),
        IntOp::And => Ok(a & b),
        IntOp::Or => Ok(a | b),
        IntOp::Xor => Ok(a ^ b),
        IntOp::Shl => Ok(a.wrapping_shl(low_bits(b))),
        IntOp::Shr => Ok(a.wrapping_shr(low_bits(b))),
        IntOp::Ushr => Ok(a.cast_unsigned().wrapping_shr(low_bits(b)).cast_signed()),
    }
}

/// What an operation on one long comes to.
pub fn long_unary(op: UnaryOp, a: i64) -> i64
    ensures { result ≡ unary_value w64 op a }
{
    match op {
        UnaryOp::Negate => a.wrapping_neg(),
        UnaryOp::Not => !a,
    }
}

/// -1, 0 or 1, as the first long is less, equal or greater.
pub fn compare_long(a: i64, b: i64) -> i32
    ensures { result ≡ compared a b }
{
    if a < b {
        -1
    } else if a == b {
        0
    } else {
        1
    }
}

/// The low 32 bits, as an int.
pub fn long_to_int(a: i64) -> i32
    ensures { result ≡ converted LongToInt a }
{
    low_bits(a).cast_signed()
}

/// The low 32 bits of a long.
fn low_bits(a: i64) -> u32
    ensures { result ≡ modulo a (2 ^ 32) }
{
    (a.cast_unsigned() % (1 << 32)) as u32
}
