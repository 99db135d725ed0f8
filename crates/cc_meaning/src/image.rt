//! Images of a thread's state, as they are sent.

use crate::lists::{Bytes, MethodIx, Units};
use crate::report::{CallEnd, SentCalls};
use crate::value::{MadeList, Objects, Values};
use cc_list::List;

/// What a captured object holds afterwards: nothing that can change, members, or the units of a builder.
#[derive(Drop)]
pub enum Contents {
    Nothing,
    Values(Values),
    Units(Units),
}

/// Contents, each at the number of its object.
pub type ContentsList = List<Contents>;

/// The state at a method's entry: the method, the instructions and words left, how many frames stand and how many registers they have, a status for each
/// class of the file, its arguments, the statics, the literals and class constants that were made, and the objects that these lead to. A reference holds an
/// object's number in the image, counted from 1.
#[derive(Drop)]
pub struct RunImage {
    pub method: MethodIx,
    pub instructions: u64,
    pub words: u32,
    pub depth: u16,
    pub registers: u32,
    pub statuses: Bytes,
    pub args: Values,
    pub statics: Values,
    pub literals: MadeList,
    pub constants: MadeList,
    pub objects: Objects,
}

/// The state at a method's end: how it ended, the instructions and words left, the statuses and statics, the literals and constants made since its entry,
/// the scripted calls since then, what the objects of the entry's image hold now, and the objects made since.
#[derive(Drop)]
pub struct BackImage {
    pub ending: CallEnd,
    pub instructions: u64,
    pub words: u32,
    pub statuses: Bytes,
    pub statics: Values,
    pub literals: MadeList,
    pub constants: MadeList,
    pub events: SentCalls,
    pub old: ContentsList,
    pub fresh: Objects,
}
