//! What is known of registers: the least that covers two, and what fits a declared type; and programs that are well typed.
#![tactic(auto)]

mod hierarchy;
mod registers;
mod states;
mod verified;

pub use hierarchy::{fits_class, is_loose, least_above, object_class, same_type};
pub use registers::{covers, fits, held, join, register_of};
pub use states::{join_into, register, write, write_long};
pub use verified::Verified;
