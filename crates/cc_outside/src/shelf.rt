//! Files by name.

ghost use Rattle.std.specs.Prelude.{◌≡◌};
ghost use Rattle.cc_outside.specs.Shelves.{Known, Counts, NeverFall, Reads, Writes};

use cc_meaning::lists::Bytes;

/// Why no bytes came.
#[derive(Clone, Copy, PartialEq, Eq, Debug)]
pub enum ReadEnd {
    Absent,
    TooLarge,
    Failed,
    Memory,
}

/// Why the bytes don't stand there.
#[derive(Clone, Copy, PartialEq, Eq, Debug)]
pub enum ShelfEnd {
    WriteFailed,
    Memory,
}

/// Files by name.
pub trait Shelf {
    /// The files, where these are told.
    ghost known: { Self → Known };

    /// How often reading failed, writing failed, and a file was absent or too large.
    ghost counts: { Self → Counts };

    /// The bytes of a file, which are at most so many. All files stay as they are.
    fn read(&mut self, name: &str, limit: u64) -> Result<Bytes, ReadEnd>
        ensures reads { Reads (known self.old) (counts self.old) name.now limit result (counts self.new) }
        ensures known { known self.new ≡ known self.old }
        ensures counts { NeverFall (counts self.old) (counts self.new) };

    /// Makes these the bytes of a file. All others stay as they are.
    fn write(&mut self, name: &str, bytes: &[u8]) -> Result<(), ShelfEnd>
        ensures writes { Writes (known self.old) (counts self.old) name.now bytes.now result (known self.new) (counts self.new) }
        ensures counts { NeverFall (counts self.old) (counts self.new) };
}
