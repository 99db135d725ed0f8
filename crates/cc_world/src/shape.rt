//! What an object is, without what it holds.

use cc_meaning::lists::ClassIx;

/// What an object is: its form, its class, and how many values or units it holds.
#[derive(Clone, Copy)]
pub enum Shape {
    Out,
    Instance { class: ClassIx, len: u32 },
    Array { class: ClassIx, len: u32 },
    Text { len: u32 },
    Builder { len: u32 },
    Constant(ClassIx),
}
