//! The bytes of the items of a DEX file: numbers, texts, lists of types, class data, code and static values.
#![tactic(auto)]

mod code;
mod handlers;
mod kinds;
mod members;
mod numbers;
mod texts;
mod values;

pub use code::put_code;
pub use members::put_members;
pub use numbers::{put_u16, put_u32, put_uleb};
pub use texts::{put_text, put_types};
pub use values::put_values;
