//! The classes of a file: judged, numbered, and in order from the topmost down.
#![tactic(auto)]

mod above;
mod classes;
mod components;
mod cycles;
mod definitions;
mod duplicates;
mod judge;
mod kinds;
mod members;
mod numbers;
mod order;
mod repeats;
mod search;
mod sources;
mod superclasses;

pub use classes::outlines;
pub use definitions::Definitions;
pub use judge::judge_classes;
pub use order::{classes_lead, from_the_top};
