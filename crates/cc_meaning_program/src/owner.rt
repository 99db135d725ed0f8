//! The classes that members belong to.

use cc_list::List;
use cc_meaning::lists::ClassIx;

/// What a row of methods names after resolution: a method of the file, by its place among those of its class; a built-in method, by its place among
/// those that its class lists; or one that only instructions name.
#[derive(Clone, Copy)]
pub enum MethodOwner {
    File { class: ClassIx, place: u32 },
    BuiltIn { class: ClassIx, place: u32 },
    Outside { class: ClassIx },
}

/// Those of a file's rows of methods, row by row.
pub type MethodOwners = List<MethodOwner>;

/// What a row of fields names after resolution: a field of the file, by its place among those of its class, or one of a class that isn't of the file.
#[derive(Clone, Copy)]
pub enum FieldOwner {
    File { class: ClassIx, place: u32 },
    Beyond { class: ClassIx },
}

/// Those of a file's rows of fields, row by row.
pub type FieldOwners = List<FieldOwner>;
