//! What a script's text says of a program.
#![tactic(auto)]

pub mod listed;
