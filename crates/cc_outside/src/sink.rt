//! Sinks for bytes.

ghost use Rattle.std.specs.Prelude.{◌≡◌, ◌≤◌, length, OnOk};
ghost use Rattle.cc_outside.specs.Sinks.{Pipe, Takes};

use cc_meaning::fault::Memory;

/// A sink took none of the bytes.
#[derive(Clone, Copy, PartialEq, Eq, Debug)]
pub struct WriteFailed;

/// A sink for bytes.
pub trait Sink {
    /// What was written, where this is told; how often writing failed; and the room.
    ghost pipe: { Self → Pipe };

    /// Makes room for so many bytes, and writes nothing.
    fn reserve(&mut self, bytes: usize) -> Result<(), Memory>
        ensures room { OnOk result (bytes ≤ (pipe self.new).spare) }
        ensures text { (pipe self.new).text ≡ (pipe self.old).text }
        ensures faults { (pipe self.old).faults ≤ (pipe self.new).faults };

    /// Writes the first of the bytes, and says how many. It takes no memory, since there is room.
    fn write(&mut self, bytes: &[u8]) -> Result<usize, WriteFailed>
        requires { length bytes.now ≤ (pipe self.old).spare }
        ensures takes { Takes (pipe self.old) bytes.now result (pipe self.new) }
        ensures faults { (pipe self.old).faults ≤ (pipe self.new).faults };
}
