//! A link in memory to a clone, which a list of happenings delays, cuts and fails.
#![tactic(auto)]

mod coming;
mod pair_link;
mod pipe;
mod tally;

pub use pair_link::PairLink;
