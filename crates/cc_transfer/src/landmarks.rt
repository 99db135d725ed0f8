//! The classes and the field that rules name.

use cc_meaning::lists::ClassIx;

/// The numbers of Object, String and Throwable, and that of the field of the standard output, if the program has it. They are found once per program.
#[derive(Clone, Copy)]
pub struct Landmarks {
    pub object: ClassIx,
    pub string: ClassIx,
    pub throwable: ClassIx,
    pub system_out: Option<usize>,
}
