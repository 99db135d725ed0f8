//! Classes, members and code as a builder of files is given them.

use cc_list::List;
use cc_meaning::listing::{ListedValue, Listing};
use cc_meaning::lists::{Texts, Units};

/// A field: its name, its type's descriptor, its access flags, and the value that a static field begins with.
#[derive(Drop)]
pub struct ListedField {
    pub name: Units,
    pub kind: Units,
    pub flags: u32,
    pub value: Option<ListedValue>,
}

/// Fields, in the order in which they were added.
pub type ListedFields = List<ListedField>;

/// A method: its name, its prototype, as `(I)V`, its access flags, and its code.
#[derive(Drop)]
pub struct ListedMethod {
    pub name: Units,
    pub proto: Units,
    pub flags: u32,
    pub code: Option<Listing>,
}

/// Methods, in the order in which they were added.
pub type ListedMethods = List<ListedMethod>;

/// A class: its descriptor, that of its superclass where it has one, its access flags, its interfaces, and its members.
#[derive(Drop)]
pub struct ListedClass {
    pub name: Units,
    pub superclass: Option<Units>,
    pub flags: u32,
    pub interfaces: Texts,
    pub fields: ListedFields,
    pub methods: ListedMethods,
}

/// All that a builder was given: classes, in the order in which they were added.
pub type Content = List<ListedClass>;

/// The most arguments that an invoke of a method's code passes, in registers, for each method of each class; 0 for a method without code.
pub type Outs = List<Units>;
