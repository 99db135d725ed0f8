//! What the methods of the built-in classes and of arrays do.
#![tactic(auto)]

pub mod builtin;
