//! A script as its text lists it, before the names are looked up in a program.

use cc_list::List;
use cc_meaning::text::Text;

/// An answer as it is listed. A whole number is one of 64 bits; `Other` is whatever no answer looks like.
#[derive(Drop)]
pub enum Listed {
    Null,
    Truth(bool),
    Whole(i64),
    Text(Text),
    /// `{"object":".."}`, a new object of the class of that name.
    Object(Text),
    /// `{"throw":".."}`, a new exception of the class of that name.
    Throw(Text),
    Other,
}

/// A member, as `name(params)result`, and its answer.
#[derive(Drop)]
pub struct ListedAnswer {
    pub member: Text,
    pub answer: Listed,
}

/// Members with their answers, in order.
pub type ListedAnswers = List<ListedAnswer>;

/// Members, in order.
pub type ListedMembers = List<Text>;

/// A class of a script: its name, and what is listed of its members.
#[derive(Drop)]
pub struct ListedClass {
    pub name: Text,
    pub unpinned: ListedMembers,
    pub free: ListedAnswers,
    pub answers: ListedAnswers,
}

/// The classes of a script, in order.
pub type ListedClasses = List<ListedClass>;
