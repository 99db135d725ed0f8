//! What an instruction names of its file.

/// A row of one of a file's tables that an instruction names: a text, a type, a field or a method.
/// Source: Dalvik bytecode, formats 21c, 22c, 31c, 35c and 3rc.
#[derive(Clone, Copy)]
pub enum Reference {
    Text(u32),
    Type(u32),
    Field(u32),
    Method(u32),
}
