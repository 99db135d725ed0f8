//! What a command comes to, before anything is written.

use cc_meaning::lists::Bytes;

/// The status, the text for out and the text for notes.
#[derive(Drop)]
pub struct Plan {
    pub status: u8,
    pub out: Bytes,
    pub notes: Bytes,
}
