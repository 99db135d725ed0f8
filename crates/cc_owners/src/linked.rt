//! What members are looked for by.

use crate::index::Entry;
use crate::members::MemberTable;
use cc_list::List;
use cc_meaning::file::{Ids, RawClasses};
use cc_meaning::lists::{Rows, Texts};
use cc_meaning_program::Outlines;

/// A file's tables and classes, the names and outlines of its program's classes in number order, and the members of a table that the file defines, with a row
/// for each of their names.
#[derive(Clone, Copy)]
pub(crate) struct Linked<'a> {
    pub ids: &'a Ids,
    pub classes: &'a RawClasses,
    pub names: &'a Texts,
    pub outlines: &'a Outlines,
    pub table: MemberTable,
    pub entries: &'a List<Entry>,
    pub defined: &'a Rows,
}
