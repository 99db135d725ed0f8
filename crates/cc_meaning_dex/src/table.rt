//! The tables of a file.

/// A table of rows that the header of a file states, in the header's order (Dalvik Executable format, `header_item`).
#[derive(Clone, Copy)]
pub enum Table {
    Texts,
    Types,
    Prototypes,
    Fields,
    Methods,
    Classes,
}
