//! The methods of the built-in classes and of arrays.
#![tactic(auto)]

mod argument;
mod calls;
mod lookup;
mod matching;
mod receiver;
mod rows;
mod steps;
mod texts;

pub use calls::call;
pub use lookup::is_rising;
