//! The machine of plain files: it goes down their instructions, and may pause where a function is entered.
#![tactic(auto)]

mod function;
mod machine;
mod progress;
mod running;

pub use function::run_function;
pub use machine::Machine;
pub use progress::{Came, Entry, Pause, call_here};
pub use running::run;
