//! Instructions of Dalvik bytecode: reading them from units, and how they reckon.
#![tactic(auto)]

mod decoding;
mod forms;
mod ints;
mod lists;
mod longs;
mod opcodes;
mod payloads;

pub use decoding::decode;
pub use ints::{
    DivideByZero, int_op, int_to_byte, int_to_char, int_to_long, int_to_short, int_unary,
};
pub use longs::{compare_long, long_op, long_to_int, long_unary};
