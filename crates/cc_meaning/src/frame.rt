//! Frames of the byte stream between two nodes.

use crate::lists::Bytes;

/// A device's first frame: the version, the file, the main class and the script.
pub const HELLO: u8 = 1;

/// A clone's answer to a Hello that it takes.
pub const READY: u8 = 2;

/// A thread's state at the entry of a method.
pub const RUN: u8 = 3;

/// The state at that method's end.
pub const BACK: u8 = 4;

/// A clone's refusal, with a status.
pub const REFUSE: u8 = 5;

/// The version that both ends speak.
pub const VERSION: u8 = 1;

/// A frame: its kind, `HELLO` to `REFUSE`, and its payload, at most 64 MiB.
#[derive(Drop)]
pub struct Frame {
    pub kind: u8,
    pub payload: Bytes,
}
