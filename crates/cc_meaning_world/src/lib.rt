//! The world of a run, and the steps that instructions and built-in methods ask of it.
#![tactic(auto)]
