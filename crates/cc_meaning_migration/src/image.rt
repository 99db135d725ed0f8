//! Images of a method's end, in the forms of both versions.

use cc_list::List;
use cc_meaning::image::Contents;
use cc_meaning::lists::Bytes;
use cc_meaning::report::{CallEnd, SentCalls};
use cc_meaning::value::{MadeList, Objects, Values};

/// How the image of an end tells of the objects of its entry: each of them, or those alone that hold something else than they did.
#[derive(Clone, Copy)]
pub enum Version {
    First,
    Second,
}

/// What the object of a number holds at the end.
#[derive(Drop)]
pub struct Change {
    pub number: u32,
    pub contents: Contents,
}

/// Changes, by rising number.
pub type Changes = List<Change>;

/// The state at a method's end: how it ended, the instructions and words left, the statuses and statics, the literals and constants made since its entry,
/// the scripted calls since then, what objects of the entry's image hold now, and the objects made since.
#[derive(Drop)]
pub struct BackImage {
    pub ending: CallEnd,
    pub instructions: u64,
    pub words: u32,
    pub statuses: Bytes,
    pub statics: Values,
    pub literals: MadeList,
    pub constants: MadeList,
    pub events: SentCalls,
    pub old: Changes,
    pub fresh: Objects,
}
