//! Files and sinks in memory.

use cc_list::List;
use cc_meaning::file::{Files, ShelfFile};
use cc_meaning::lists::{Bytes, CallList};
use cc_meaning::text::Text;
use cc_outside::{MemoryShelf, MemorySink, ReadEnd, Shelf, ShelfEnd, Sink};
use std::alloc::{AllocError, Global};
use std::test::Fail;

fn one_file(alloc: Global) -> Result<Files, AllocError> {
    let mut files = List::new(alloc);
    files.push(ShelfFile {
        name: Text::from_str(alloc, "a")?,
        bytes: Bytes::from_slice(alloc, b"one")?,
    })?;
    Ok(files)
}

/// The length of a file that is read through the trait.
fn read_length<S: Shelf>(shelf: &mut S, name: &str, limit: u64) -> Result<usize, ReadEnd> {
    Ok(shelf.read(name, limit)?.len())
}

/// Writes a file through the trait.
fn store<S: Shelf>(shelf: &mut S, name: &str, bytes: &[u8]) -> Result<(), ShelfEnd> {
    shelf.write(name, bytes)
}

#[test]
fn shelf_answers(rt: HostRuntime) -> Result<(), Fail> {
    let alloc = rt.alloc();
    let fails = CallList::from_slice(alloc, &[1, 6])?;
    let mut shelf = MemoryShelf::new(alloc, one_file(alloc)?, fails);
    assert!(rt; read_length(&mut shelf, "a", 3) == Ok(3));
    assert!(rt; store(&mut shelf, "a", b"lost") == Err(ShelfEnd::WriteFailed));
    assert!(rt; shelf.file("a") == Some(b"one".as_slice()));
    assert!(rt; read_length(&mut shelf, "b", 3) == Err(ReadEnd::Absent));
    assert!(rt; store(&mut shelf, "b", b"") == Ok(()));
    assert!(rt; store(&mut shelf, "a", b"more") == Ok(()));
    assert!(rt; read_length(&mut shelf, "a", 3) == Err(ReadEnd::TooLarge));
    assert!(rt; read_length(&mut shelf, "a", 4) == Err(ReadEnd::Failed));
    assert!(rt; read_length(&mut shelf, "a", 4) == Ok(4));
    assert!(rt; shelf.file("a") == Some(b"more".as_slice()));
    assert!(rt; shelf.file("b") == Some(b"".as_slice()));
    assert!(rt; shelf.file("c").is_none());
    Ok(())
}

/// Makes room for bytes and writes them in one call.
fn put<S: Sink>(sink: &mut S, bytes: &[u8]) -> Option<usize> {
    sink.reserve(bytes.len()).ok()?;
    sink.write(bytes).ok()
}

#[test]
fn sink_answers(rt: HostRuntime) -> Result<(), Fail> {
    let alloc = rt.alloc();
    let mut sink = MemorySink::new(alloc, CallList::from_slice(alloc, &[1])?);
    assert!(rt; put(&mut sink, b"one") == Some(3));
    assert!(rt; put(&mut sink, b"lost").is_none());
    assert!(rt; put(&mut sink, b" and more") == Some(9));
    assert!(rt; sink.bytes() == b"one and more".as_slice());
    Ok(())
}
