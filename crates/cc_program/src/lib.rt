//! The whole reader of DEX files: from bytes to the program that they spell, or to the first fault.
#![tactic(auto)]

mod asked;
mod build;
mod class_fields;
mod class_parts;
mod initialisers;
mod layouts;
mod links;
mod main_class;
mod making;
mod matching;
mod read;
mod values;

pub use build::build_program;
pub use class_parts::classes;
pub use making::Parts;
pub use read::{one_spelled_program, read_dex, spelled_programs_are_complete};
