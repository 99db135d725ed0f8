//! Texts as units of UTF-16: the units of a text, and what is left of a text behind units.
#![tactic(auto)]

mod matching;
mod text;

pub use matching::behind;
pub use text::{add_text, units_of};
