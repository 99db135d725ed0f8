//! Laws of the programs that files give, and of what is read of a file.
#![tactic(auto)]

mod linking;
mod programs;
mod reading;

pub use linking::{
    classes_have_ancestries, interfaces_have_lists, spelled_classes_fit, spelled_tables_fit,
};
pub use programs::{
    programs_are_complete, programs_are_hierarchies, programs_are_well_formed,
    spelled_parts_are_bounded,
};
pub use reading::{
    one_read_fault, spelled_programs_are_hierarchies, spelled_programs_have_no_fault,
};
