//! The plain types that every crate names: programs, instructions, values, reports, files, images, profiles and faults.
#![tactic(auto)]

pub mod fault;
pub mod file;
pub mod frame;
pub mod image;
pub mod instruction;
pub mod listing;
pub mod lists;
pub mod profile;
pub mod program;
pub mod report;
pub mod script;
pub mod text;
pub mod travel;
pub mod value;
