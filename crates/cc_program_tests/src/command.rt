//! The one call, over a shelf with one file.

use cc_builder::DexBuilder;
use cc_cli::run_words;
use cc_link::{CannedEnd, CannedLink};
use cc_meaning::fault::Memory;
use cc_meaning::file::{Files, ShelfFile};
use cc_meaning::lists::{Bytes, CallList};
use cc_meaning::text::Text;
use cc_outside::{MemoryShelf, MemorySink};
use std::alloc::{AllocError, Global};
use std::process::Abort;
use std::test::Fail;

/// What a run of the program came to.
#[derive(Drop)]
pub struct Came {
    pub status: u8,
    pub out: MemorySink,
    pub notes: MemorySink,
}

/// The calls of the shelf, of out and of notes that fail.
#[derive(Clone, Copy)]
pub struct Failing<'a> {
    pub shelf: &'a [u64],
    pub out: &'a [u64],
    pub notes: &'a [u64],
}

/// None of them.
pub const CALM: Failing<'static> = Failing {
    shelf: &[],
    out: &[],
    notes: &[],
};

/// A shelf with one file, `a.dex`.
fn shelf_with(alloc: Global, file: &[u8], fails: &[u64]) -> Result<MemoryShelf, AllocError> {
    let mut files = Files::new(alloc);
    files.push(ShelfFile {
        name: Text::from_str(alloc, "a.dex")?,
        bytes: Bytes::from_slice(alloc, file)?,
    })?;
    Ok(MemoryShelf::new(alloc, files, CallList::from_slice(alloc, fails)?))
}

/// Runs the program on these words, cut at blanks, over a shelf with one file.
pub fn run(
    alloc: Global,
    line: &str,
    file: &[u8],
    failing: Failing<'_>,
) -> Result<Came, AllocError> {
    let mut words = Vec::new(alloc);
    for word in line.split_whitespace() {
        words.push(word.to_string(alloc)?)?;
    }
    let mut shelf = shelf_with(alloc, file, failing.shelf)?;
    let mut out = MemorySink::new(alloc, CallList::from_slice(alloc, failing.out)?);
    let mut notes = MemorySink::new(alloc, CallList::from_slice(alloc, failing.notes)?);
    let mut link = CannedLink::new(alloc, Bytes::new(alloc), CannedEnd::End);
    let status = run_words(alloc, &words, &mut shelf, &mut out, &mut notes, &mut link);
    Ok(Came { status, out, notes })
}

/// That a run on these words came to a status, with these lines on out and on notes.
pub fn expect(
    rt: &(impl Abort + AllocGlobal),
    line: &str,
    file: &[u8],
    status: u8,
    [out, notes]: [&str; 2],
) -> Result<(), Fail> {
    let came = run(rt.alloc(), line, file, CALM)?;
    assert_eq!(rt; came.status, status);
    assert!(rt; came.out.bytes() == out.as_bytes());
    assert!(rt; came.notes.bytes() == notes.as_bytes());
    Ok(())
}

/// The same of the file that a builder makes.
pub fn expect_built(
    rt: &(impl Abort + AllocGlobal),
    line: &str,
    builder: &DexBuilder,
    status: u8,
    lines: [&str; 2],
) -> Result<(), Fail> {
    let file = builder.finish()?;
    expect(rt, line, file.as_slice(), status, lines)
}
