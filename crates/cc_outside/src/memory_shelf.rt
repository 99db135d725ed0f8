//! A shelf in memory.

ghost use Rattle.std.specs.Prelude.{◌≡◌, IfOk, option_map};
ghost use Rattle.cc_outside.specs.FilesInMemory.{files_of};

use crate::failing::next_fails;
use crate::shelf::{ReadEnd, Shelf, ShelfEnd};
use cc_meaning::file::{Files, ShelfFile};
use cc_meaning::lists::{Bytes, CallList};
use cc_meaning::text::Text;
use std::alloc::{AllocError, Global};
use std::marker::Model;

/// Files in memory, of which some calls fail: those that are listed by their numbers, from 0, in one count of reads and writes.
#[derive(Drop)]
pub struct MemoryShelf {
    alloc: Global,
    files: Vec<ShelfFile>,
    fails: CallList,
    calls: u64,
    faults: u64,
    write_faults: u64,
    misses: u64,
}

impl Model for MemoryShelf {
    ghost use Rattle.std.specs.Prelude.{◌≡◌, []};
    ghost use Rattle.cc_outside.specs.FilesInMemory.{MemoryFiles};

    ghost Value = { MemoryFiles };

    ghost view = { λ s. record {
      files = s.files.items;
      fails = s.fails;
      calls = s.calls;
      counts = record { faults = s.faults; write_faults = s.write_faults; misses = s.misses };
    } };

    ghost invariant = { λ s. s.fails ≡ [] → (s.faults ≡ 0) × (s.write_faults ≡ 0) };
}

/// The bytes of the first file of a name.
fn find<'a>(files: &'a [ShelfFile], name: &str) -> Option<&'a [u8]>
    ensures { option_map (λ bytes. bytes.now) result ≡ files_of files.now name.now }
{
    for file in files {
        if file.name.as_str() == name {
            return Some(file.bytes.as_slice());
        }
    }
    None
}

/// A file of these bytes.
fn file_of(alloc: Global, name: &str, bytes: &[u8]) -> Result<ShelfFile, AllocError>
    ensures { IfOk result (λ file. file ≡ record { name = name.now; bytes = bytes.now }) }
{
    Ok(ShelfFile {
        name: Text::from_str(alloc, name)?,
        bytes: Bytes::from_slice(alloc, bytes)?,
    })
}

impl MemoryShelf {
    ghost use Rattle.std.specs.Prelude.{◌≡◌, option_map};
    ghost use Rattle.cc_outside.specs.FilesInMemory.{files_of, no_counts};

    /// A shelf of these files, of which the first of a name counts. The listed calls will fail, and no others.
    pub fn new(alloc: Global, files: Files, fails: CallList) -> MemoryShelf
        ensures { result ≡ record { files = files; fails = fails; calls = 0; counts = no_counts } }
    {
        MemoryShelf {
            alloc,
            files: files.into_vec(),
            fails,
            calls: 0,
            faults: 0,
            write_faults: 0,
            misses: 0,
        }
    }

    /// The bytes of the file of a name, the newest.
    pub fn file(&self, name: &str) -> Option<&[u8]>
        ensures { option_map (λ bytes. bytes.now) result ≡ files_of self.now.files name.now }
    {
        find(&self.files, name)
    }
}

impl Shelf for MemoryShelf {
    ghost use Rattle.std.specs.Prelude.{◌≡◌};
    ghost use Rattle.cc_outside.specs.Shelves.{Known, Counts, NeverFall, Reads, Writes};
    ghost use Rattle.cc_outside.specs.FilesInMemory.{known_of, ReadsInMemory, WritesInMemory, IsCalm};

    ghost known = { known_of };

    ghost counts = { λ s. s.counts };

    fn read(&mut self, name: &str, limit: u64) -> Result<Bytes, ReadEnd>
        ensures reads { Reads (known_of self.old) self.old.counts name.now limit result self.new.counts }
        ensures known { known_of self.new ≡ known_of self.old }
        ensures counts { NeverFall self.old.counts self.new.counts }
        ensures exact { ReadsInMemory self.old name.now limit result self.new }
        ensures calm { IsCalm self.new }
    {
        if next_fails(&self.fails, &mut self.calls) {
            self.faults = self.faults.saturating_add(1);
            return Err(ReadEnd::Failed);
        }
        let Some(bytes) = find(&self.files, name) else {
            self.misses = self.misses.saturating_add(1);
            return Err(ReadEnd::Absent);
        };
        if bytes.len() as u64 > limit {
            self.misses = self.misses.saturating_add(1);
            return Err(ReadEnd::TooLarge);
        }
        match Bytes::from_slice(self.alloc, bytes) {
            Ok(copy) => Ok(copy),
            Err(_) => Err(ReadEnd::Memory),
        }
    }

    fn write(&mut self, name: &str, bytes: &[u8]) -> Result<(), ShelfEnd>
        ensures writes { Writes (known_of self.old) self.old.counts name.now bytes.now result (known_of self.new) self.new.counts }
        ensures counts { NeverFall self.old.counts self.new.counts }
        ensures exact { WritesInMemory self.old (record { name = name.now; bytes = bytes.now }) result self.new }
        ensures calm { IsCalm self.new }
    {
        if next_fails(&self.fails, &mut self.calls) {
            self.write_faults = self.write_faults.saturating_add(1);
            return Err(ShelfEnd::WriteFailed);
        }
        let Ok(file) = file_of(self.alloc, name, bytes) else {
            return Err(ShelfEnd::Memory);
        };
        match self.files.insert(0, file) {
            Ok(()) => Ok(()),
            Err(_) => Err(ShelfEnd::Memory),
        }
    }
}
