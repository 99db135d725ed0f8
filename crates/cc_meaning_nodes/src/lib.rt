//! What two nodes say to each other: the frames of a stream of bytes, and their laws.
#![tactic(auto)]

pub mod frame_laws;
pub mod head;
pub mod talk_laws;
