//! The numbers that stand in code in place of rows.

use cc_list::List;
use cc_meaning::lists::{ClassIx, MethodIx, Rows};
use cc_meaning::program::DexType;

/// What a row of methods names: a class, and a method after resolution.
#[derive(Clone, Copy)]
pub struct MethodLink {
    pub class: ClassIx,
    pub number: MethodIx,
}

/// For each row of a file what it is in the program: the number of a text, the type where one spells the descriptor, and of members the numbers, where
/// instructions use them.
#[derive(Drop)]
pub struct Links {
    pub texts: Rows,
    pub types: List<Option<DexType>>,
    pub methods: List<Option<MethodLink>>,
    pub fields: List<Option<u32>>,
}
