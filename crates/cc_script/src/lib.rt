//! Scripts read from their texts.
#![tactic(auto)]

mod answers;
mod classes;
mod listing;
mod names;
mod reader;
mod repeats;
mod resolve;

pub use reader::read_script;
