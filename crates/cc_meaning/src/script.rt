//! Scripts: what outside and native methods answer.

use crate::lists::{ClassIx, MethodIx, MethodList};
use crate::report::Answer;
use cc_list::List;

/// A method that is outside or native, and what it answers.
#[derive(Drop)]
pub struct Given {
    pub method: MethodIx,
    pub answer: Answer,
}

/// Methods with their answers, in order.
pub type GivenList = List<Given>;

/// The script of one class: methods that may move to the clone though they take answers, methods with a fixed answer, and the answers that the class's
/// other calls take, one each, in order.
#[derive(Drop)]
pub struct ScriptClass {
    pub class: ClassIx,
    pub unpinned: MethodList,
    pub free: GivenList,
    pub answers: GivenList,
}

/// The scripts of classes.
pub type ScriptClasses = List<ScriptClass>;

/// A script: what a run is answered by the methods whose code isn't in the file.
#[derive(Drop)]
pub struct Script {
    pub classes: ScriptClasses,
}
