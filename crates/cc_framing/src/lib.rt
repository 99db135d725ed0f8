//! Frames of a stream of bytes that comes in any pieces.
#![tactic(auto)]

mod held;
mod present;
mod reader;
mod spelled;
mod stream;

pub use reader::FrameReader;
pub use spelled::frame;
pub use stream::{feed_all, read_pieces};
