//! Small programs for tests, and an assembler for them.
#![tactic(auto)]

mod arrays;
mod assembler;
mod calls;
mod catching;
mod comparing;
mod fault;
mod form;
mod names;
mod natives;
mod parts;
mod programs;
mod reckoning;
mod scripts;
mod shapes;
mod steps;
mod sums;
mod target;
mod types;

pub use arrays::link_nodes;
pub use assembler::{Assembler, Label};
pub use calls::{add_one, add_one_again, add_one_beside_help, add_one_through, for_ever};
pub use catching::catch_division;
pub use comparing::compare_texts;
pub use fault::AssemblyFault;
pub use names::{class, field, method, text};
pub use natives::{ask_apart, ask_twice};
pub use parts::{class_of, code, function, main_of};
pub use programs::{
    ProgramClass, ProgramCode, ProgramField, ProgramMethod, ProgramTry, assemble, build,
};
pub use scripts::{ASK_TWICE_SCRIPT, MEASURE_SCRIPT};
pub use shapes::measure_square;
pub use steps::{Member, Step};
pub use sums::{divide_least, make_system, print_sum, sum_and_go_back, sum_and_run_on};
pub use types::{
    add_after_branches, add_floats, fill_registers, meet_after_branches, overfill_registers,
};
