//! What the reader of a method knows before it reads.

use cc_meaning::lists::Units;
use cc_meaning_plain::PlainFunctions;

/// Which method of a plain file it is.
#[derive(Clone, Copy)]
pub enum Kind {
    Main,
    Function,
}

/// What the code of a method may name: the class, and its functions in the order of their names.
#[derive(Drop)]
pub struct Known {
    pub class: Units,
    pub functions: PlainFunctions,
}
