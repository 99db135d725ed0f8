//! What checking a file finds: a well typed program and what it has, or the file's first fault.
#![tactic(auto)]

mod check;
mod fault;
mod load;
mod summary;

pub use check::{check_bytes, one_checked};
pub use fault::CheckFault;
pub use load::load_program;
pub use summary::{Summary, summarize};
