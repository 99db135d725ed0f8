//! The text that says which function of a plain file is moved.
#![tactic(auto)]

mod name;
mod partition;

pub use partition::{PartitionEnd, read_partition};
