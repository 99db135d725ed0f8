//! Readers of the numbers and texts of a DEX file: ULEB128, SLEB128, MUTF-8 and Adler-32.
#![tactic(auto)]

mod checksum;
mod fixed;
mod forms;
mod leb128;
mod texts;

pub use checksum::adler32;
pub use fixed::{u16_at, u32_at};
pub use leb128::{sleb, uleb};
pub use texts::{mutf8, text};
