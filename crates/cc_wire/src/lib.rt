//! Images of a thread's state as bytes.
#![tactic(auto)]

mod back;
mod numbers;
mod parts;
mod reader;
mod run;
mod spell;

pub use back::decode_back;
pub use numbers::{function_numbered, method_number};
pub use run::decode_run;
pub use spell::{encode_back, encode_run};
