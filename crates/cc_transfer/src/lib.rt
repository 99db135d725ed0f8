//! The rule of each instruction, executable: what it needs of the registers before it, and what it makes of them.
#![tactic(auto)]

mod addresses;
mod arithmetic;
mod arrays;
mod body;
mod branches;
mod effects;
mod finding;
mod known;
mod landmarks;
mod members;
mod moves;
mod registers;
mod rules;
mod states;
mod types;

pub use addresses::{address, has_targets, is_target, law_places, place_at, placed_at};
pub use body::MethodBody;
pub use branches::{SuccessorAddresses, handlers, successors, take_references};
pub use effects::apply;
pub use finding::find_landmarks;
pub use known::knows_member;
pub use landmarks::Landmarks;
pub use rules::accepts;
pub use states::{handler_pending, join_state, opening};
