//! What the verifier knows at an address.

use cc_list::List;
use cc_meaning::program::{DexType, RegType};

/// What the instruction before left for the next one: nothing, the result of a call or of a `filled-new-array` with its declared type, or an exception that
/// is caught, with its type as it is held.
/// Source: Dalvik bytecode, instructions move-result and move-exception.
#[derive(Clone, Copy)]
pub enum Pending {
    Nothing,
    Result(DexType),
    Exception(DexType),
}

/// What is known of all registers of a method before an instruction, and what is pending.
#[derive(Drop)]
pub struct State {
    pub registers: List<RegType>,
    pub pending: Pending,
}
