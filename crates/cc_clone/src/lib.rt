//! A node that answers the frames of a stream as a clone of plain files.
#![tactic(auto)]

mod hello;
mod job;
mod named;
mod node;
mod payload;
mod run;
mod service;
mod stream;

pub use node::CloneNode;
