//! The command `check`, and the words behind it.
#![tactic(auto)]

mod command;
mod help;
mod plan;
mod summary;
mod words;

pub use command::check_words;
pub use help::{check_help, version};
pub use plan::{LONGEST_FILE, check_plan};
pub use words::{CheckCall, law_one_call, read_check};
