//! Reader of a DEX file's header and of its six tables.
#![tactic(auto)]

mod descriptors;
mod header;
mod known;
mod listed;
mod read;
mod readers;
mod tables;
mod walk;

pub use read::read_ids;
