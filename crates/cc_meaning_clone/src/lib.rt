//! What a clone of plain files answers to a stream.
#![tactic(auto)]

pub mod hello_laws;
pub mod plain_laws;
pub mod run_laws;
