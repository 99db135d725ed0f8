//! Classes by their numbers.

use cc_list::List;
use cc_meaning::lists::{ClassIx, ClassList};
use cc_meaning::program::ClassKind;

/// What a file says of a class: where it comes from, the number of its first definition where the file has one, and the classes that it names.
///
/// Source: Dalvik Executable format, section class_def_item.
#[derive(Drop)]
pub struct Outline {
    pub kind: ClassKind,
    pub definition: Option<u32>,
    pub superclass: Option<ClassIx>,
    pub interfaces: ClassList,
}

/// Those of a program's classes, in number order.
pub type Outlines = List<Outline>;
