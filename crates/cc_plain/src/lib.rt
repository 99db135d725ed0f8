//! The reader of plain files.
#![tactic(auto)]

mod code;
mod functions;
mod header;
mod instructions;
mod kind;
mod members;
mod methods;
mod names;
mod reader;
mod uses;

pub use reader::read_plain;
