//! The verifier: whether each method has a typing, and where not, the first fault.
#![tactic(auto)]

mod faults;
mod reach;
mod table;
mod tries;
mod verdict;

pub use table::units;
pub use verdict::verify;
