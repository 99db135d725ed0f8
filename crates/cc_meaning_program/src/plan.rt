//! What the members of a program are made from.

use crate::uses::MethodUse;
use cc_list::List;
use cc_meaning::lists::ClassIx;

/// Where a method comes from: the one at a place among those that the file defines in its class, the one at a place among the built-in ones of its
/// class, or the first call that names it.
#[derive(Clone, Copy)]
pub enum MethodSource {
    File { place: u32 },
    BuiltIn { place: u32 },
    Outside { used: MethodUse },
}

/// A method of a program: its class, and where it comes from.
#[derive(Clone, Copy)]
pub struct MethodPlan {
    pub owner: ClassIx,
    pub source: MethodSource,
}

/// The methods of a program, in rising order of their whole names.
pub type MethodPlans = List<MethodPlan>;

/// Where a field comes from: the one at a place among those that the file defines in its class, `System.out`, or the first row that names it.
#[derive(Clone, Copy)]
pub enum FieldSource {
    File { place: u32 },
    Out,
    Outside { row: u32 },
}

/// A field of a program: its class, and where it comes from.
#[derive(Clone, Copy)]
pub struct FieldPlan {
    pub owner: ClassIx,
    pub source: FieldSource,
}

/// The fields of a program, in rising order of their whole names.
pub type FieldPlans = List<FieldPlan>;
