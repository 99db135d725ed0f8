//! The disk as a shelf.

ghost use Rattle.std.specs.Prelude.{◌≡◌, ◌≤◌, IfOk, length};

use cc_meaning::lists::Bytes;
use cc_outside::{ReadEnd, Shelf, ShelfEnd};
use std::alloc::Global;
use std::io::Read;
use std::rt::Files;
use std::{fs, io};

/// The files of the disk. It counts what fails, and tells no content.
#[derive(Drop)]
pub struct DiskShelf<'a, R: Files> {
    alloc: Global,
    files: &'a R,
    faults: u64,
    write_faults: u64,
    misses: u64,
}

/// Why a file could not be read.
fn end_of(fault: &io::Error) -> ReadEnd {
    match fault.kind() {
        io::ErrorKind::NotFound => ReadEnd::Absent,
        io::ErrorKind::OutOfMemory => ReadEnd::Memory,
        _ => ReadEnd::Failed,
    }
}

/// The bytes of a file; of a longer one no more than one byte too many is read.
fn load<R: Files>(alloc: Global, files: &R, name: &str, limit: u64) -> Result<Bytes, ReadEnd>
    ensures { IfOk result (λ bytes. length bytes ≤ limit) }
{
    let file = match fs::open(files, name) {
        Ok(file) => file,
        Err(fault) => return Err(end_of(&fault)),
    };
    let mut bytes = Vec::new(alloc);
    if let Err(fault) = file.take(limit.saturating_add(1)).read_to_end(&mut bytes) {
        return Err(end_of(&fault));
    }
    if bytes.len() as u64 > limit {
        return Err(ReadEnd::TooLarge);
    }
    Ok(Bytes::from_vec(bytes))
}

impl<'a, R: Files> DiskShelf<'a, R> {
    pub fn new(alloc: Global, files: &'a R) -> DiskShelf<'a, R> {
        DiskShelf {
            alloc,
            files,
            faults: 0,
            write_faults: 0,
            misses: 0,
        }
    }
}

impl<R: Files> Shelf for DiskShelf<'_, R> {
    ghost use Rattle.std.specs.Prelude.{None};
    ghost use Rattle.cc_outside.specs.Shelves.{Known, Counts, NeverFall, Reads, Writes};

    ghost known = { λ _. record { files = None } };

    ghost counts = { λ s. record { faults = s.faults; write_faults = s.write_faults; misses = s.misses } };

    fn read(&mut self, name: &str, limit: u64) -> Result<Bytes, ReadEnd> {
        let read = load(self.alloc, self.files, name, limit);
        match &read {
            Ok(_) | Err(ReadEnd::Memory) => {}
            Err(ReadEnd::Failed) => self.faults = self.faults.saturating_add(1),
            Err(ReadEnd::Absent | ReadEnd::TooLarge) => {
                self.misses = self.misses.saturating_add(1);
            }
        }
        read
    }

    fn write(&mut self, name: &str, bytes: &[u8]) -> Result<(), ShelfEnd> {
        if fs::write(self.files, name, bytes).is_ok() {
            return Ok(());
        }
        self.write_faults = self.write_faults.saturating_add(1);
        Err(ShelfEnd::WriteFailed)
    }
}
