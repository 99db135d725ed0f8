//! The world of a run: its objects in one flat row of values, its statics, and what it counts and records.
#![tactic(auto)]

mod heap;
mod noted;
mod opening;
mod shape;
#[cfg(test)]
mod tests;
mod world;

pub use noted::law_noted;
pub use shape::Shape;
pub use world::World;
