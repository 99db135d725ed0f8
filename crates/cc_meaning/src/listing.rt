//! Code as a builder of files is given it.

use crate::lists::Units;
use cc_list::List;

/// A row of a file's tables, by what stands in it: a text, a class's descriptor, or a member with its type or prototype, as `I` or `(I)V`.
#[derive(Drop)]
pub enum RowName {
    Text(Units),
    Class(Units),
    Field {
        class: Units,
        name: Units,
        kind: Units,
    },
    Method {
        class: Units,
        name: Units,
        proto: Units,
    },
}

/// A place of the units, in units, where a row's number belongs: in one unit, and in two for const-string/jumbo.
#[derive(Drop)]
pub struct Mark {
    pub at: u32,
    pub row: RowName,
}

/// The marks of a listing.
pub type Marks = List<Mark>;

/// A handler of a try, for a class or, at `None`, for all, and its address in units.
#[derive(Drop)]
pub struct ListedCatch {
    pub class: Option<Units>,
    pub at: u32,
}

/// The handlers of a try.
pub type ListedCatches = List<ListedCatch>;

/// A try, from `start` to before `end`, in units.
#[derive(Drop)]
pub struct ListedTry {
    pub start: u32,
    pub end: u32,
    pub catches: ListedCatches,
}

/// The tries of a listing.
pub type ListedTries = List<ListedTry>;

/// A method's code: its registers, the most arguments that one of its invokes passes, in registers, and its instructions. The units hold 0 where a row's
/// number belongs, and a mark names the row.
#[derive(Drop)]
pub struct Listing {
    pub registers: u16,
    pub outs: u16,
    pub units: Units,
    pub marks: Marks,
    pub tries: ListedTries,
}

/// The value that a static field begins with.
#[derive(Drop)]
pub enum ListedValue {
    Int(i32),
    Long(i64),
    Text(Units),
    Null,
}
