//! Laws of the files that a builder writes: what is written is what is read.
#![tactic(auto)]

mod items;
mod member_laws;
mod numbers;
mod standing;
mod value_laws;
mod whole;

pub use items::{written_tables, written_text, written_types};
pub use member_laws::{written_code, written_members, written_tries};
pub use numbers::{
    little_length, sleb_length, uleb_length, units_length, written_sleb, written_u16, written_u32,
    written_uleb,
};
pub use standing::{
    stands_apart, stands_behind, stands_further, stands_longer, stands_together, stands_within,
    units_stand,
};
pub use value_laws::written_values;
pub use whole::written_is_read_again;
