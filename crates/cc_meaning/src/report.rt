//! What a run says and how it ends.

use crate::lists::{Bytes, ClassIx, MethodIx, ObjId, Units};
use crate::value::Value;
use cc_list::List;

/// Why a run stopped: no instructions are left, too few words are left, the script of a class has ended, or its next answer is for another method.
/// `wanted` is the method that was called, and `found` the one that the answer names.
#[derive(Clone, Copy, Debug)]
pub enum StopCause {
    Budget,
    Heap,
    ScriptEnd {
        class: ClassIx,
    },
    ScriptOther {
        class: ClassIx,
        wanted: MethodIx,
        found: MethodIx,
    },
}

/// How a call ended: with a result, or none, with an exception, which is an object, or with the run's stop.
#[derive(Clone, Copy)]
pub enum CallEnd {
    Returned(Option<Value>),
    Thrown(ObjId),
    Stopped(StopCause),
}

/// How a program ended: it returned, an exception of that class and message left it, or it was stopped.
#[derive(Drop)]
pub enum Ending {
    Returned,
    Thrown {
        class: ClassIx,
        message: Option<Units>,
    },
    Stopped(StopCause),
}

/// An argument of a recorded call. A text stands with its units, and every other object by its class.
#[derive(Drop)]
pub enum Arg {
    Int(i32),
    Long(i64),
    Null,
    Instance(ClassIx),
    Text(Units),
}

/// The arguments of a recorded call, the receiver first where there is one.
pub type Args = List<Arg>;

/// What a scripted method answers: nothing, a value, a new object of that class, or a new exception of it.
#[derive(Drop)]
pub enum Answer {
    Nothing,
    Int(i32),
    Long(i64),
    Null,
    Text(Units),
    Instance(ClassIx),
    Throws(ClassIx),
}

/// What a run shows of itself: a text that was printed, with its line feed, or a scripted call with its answer.
#[derive(Drop)]
pub enum Event {
    Print(Units),
    Call {
        method: MethodIx,
        args: Args,
        answer: Answer,
    },
}

/// Events, in the order in which they came.
pub type Events = List<Event>;

/// A scripted call as it is sent, without its answer, which the far side has too.
#[derive(Drop)]
pub struct SentCall {
    pub method: MethodIx,
    pub args: Args,
}

/// Scripted calls, in the order in which they came.
pub type SentCalls = List<SentCall>;

/// A run: its output in UTF-8, its scripted calls, its end, and the instructions and words that it spent. A word is the measure of a heap: an object
/// takes two and one per field, element or unit.
#[derive(Drop)]
pub struct Report {
    pub out: Bytes,
    pub calls: Events,
    pub ending: Ending,
    pub instructions: u64,
    pub words: u32,
}

/// How many instructions and words a run may spend: instructions to 2^32, words to 2^22.
#[derive(Clone, Copy)]
pub struct Limits {
    pub instructions: u64,
    pub words: u32,
}
