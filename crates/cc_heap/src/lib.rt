//! The world of a run: its heap, its statics, and what it counts and records.
#![tactic(auto)]

mod made;
mod opening;
mod world;

pub use made::law_noted;
pub use world::World;
