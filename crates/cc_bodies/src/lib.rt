//! The bodies of a file's methods: their instructions, the first fault of members and code, and code with a program's numbers in place of a file's rows.
#![tactic(auto)]

mod bodies;
mod code;
mod code_laws;
mod floats;
mod insns;
mod links;
mod names;
mod reading;
mod references;
mod sizes;
mod uses;

pub use bodies::{Bodies, ClassBodies, read_bodies};
pub use code::link_code;
pub use code_laws::{sound_code_is_linkable, used_rows_are_there};
pub use names::{field_text, method_text};
pub use reading::{Break, Reading, instructions};
pub use sizes::have_few_units;
pub use uses::{MemberUses, member_uses};
