//! Where the items of the rows of a file's tables stand.

use cc_meaning::lists::Rows;

/// What the rows of a file's tables state beside the tables' own numbers: offsets in bytes from the beginning of the file, 0 for none, each list with a place
/// for each row of its table.
/// Source: Dalvik Executable format, sections string_id_item, proto_id_item and class_def_item.
#[derive(Drop)]
pub struct Offsets {
    /// Where each text's item stands.
    pub texts: Rows,
    /// The row of the text of each prototype's short form. It is no offset, but stated by the row in the same way.
    pub shorts: Rows,
    /// Where each prototype's list of parameters stands.
    pub params: Rows,
    /// Where each class's list of interfaces stands.
    pub interfaces: Rows,
}
