//! What a program is given of the outside: files by name and sinks for bytes; in memory too, for tests.
#![tactic(auto)]

mod failing;
mod memory_shelf;
mod memory_sink;
mod shelf;
mod sink;

pub use memory_shelf::MemoryShelf;
pub use memory_sink::MemorySink;
pub use shelf::{ReadEnd, Shelf, ShelfEnd};
pub use sink::{Sink, WriteFailed};
