//! Links to a clone: what each call of a link says, what an honest and a prompt link say beside, and a link that gives stated bytes.
#![tactic(auto)]

mod canned_link;
mod link;

pub use canned_link::{CannedEnd, CannedLink};
pub use link::{Dialed, Got, Link, Sent};

#[cfg(test)]
mod tests;
