//! The frames of a thread, with exact limits.
#![tactic(auto)]

mod thread;

pub use thread::{PushEnd, Thread};
