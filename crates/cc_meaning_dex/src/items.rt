//! What stands in a file for its classes, before all of it is put together.

use cc_list::List;
use cc_meaning::file::{RawCatches, RawFields};

/// Where the next item of a list begins, in bytes, and the row that the item before it named, or how many items stand before it.
#[derive(Clone, Copy)]
pub struct Cursor {
    pub at: usize,
    pub row: u32,
}

/// A method of a class data item as it stands there: its row of the methods, its access flags, whether it stands among the direct methods,
/// and the offset of its code in bytes, 0 for none.
/// Source: Dalvik Executable format, section encoded_method format.
#[derive(Clone, Copy)]
pub struct StatedMethod {
    pub row: u32,
    pub flags: u32,
    pub is_direct: bool,
    pub code_at: u32,
}

/// What a class data item lists: the fields, the static ones first, and the methods, the direct ones first.
/// Source: Dalvik Executable format, section class_data_item.
#[derive(Drop)]
pub struct Members {
    pub fields: RawFields,
    pub methods: List<StatedMethod>,
}

/// A handler of a handler list: where it begins in the file, in bytes, and what it catches, in the order in which it is asked.
/// Source: Dalvik Executable format, section encoded_catch_handler format.
#[derive(Drop)]
pub struct Handler {
    pub start: usize,
    pub catches: RawCatches,
}

/// What a static value of a field may be, by the field's type. A field of floating point takes none.
/// Source: Dalvik Executable format, section encoded_value encoding.
#[derive(Clone, Copy)]
pub enum ValueKind {
    Boolean,
    Byte,
    Short,
    Char,
    Int,
    Long,
    /// A string, or null.
    Text,
    /// Of any other class, or an array: null.
    Reference,
}
