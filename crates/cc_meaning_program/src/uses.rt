//! Where instructions name members.

use cc_list::List;
use cc_meaning::instruction::How;

/// A call of the method of a row.
#[derive(Clone, Copy)]
pub struct MethodUse {
    pub row: u32,
    pub how: How,
}

/// All calls of a file, in its order.
pub type MethodUses = List<MethodUse>;
