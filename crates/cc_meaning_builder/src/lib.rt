//! What a builder of DEX files is given, how the parts of a file are written, and what the file that is built has.
#![tactic(auto)]

pub mod content;
