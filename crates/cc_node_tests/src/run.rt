//! The one call, over objects in memory.

use crate::cli_sample::{
    CHECKSUM, CLASS, CLASS_COUNT, CODE, ENDIAN_TAG, FILE_SIZE, HEADER_SIZE, MAP, SAMPLE, SIGNATURE,
    TEXT_COUNT,
};
use cc_cli::run_words;
use cc_link::{CannedEnd, CannedLink};
use cc_meaning::file::{Files, ShelfFile};
use cc_meaning::lists::{Bytes, CallList};
use cc_meaning::text::Text;
use cc_outside::{MemoryShelf, MemorySink};
use std::alloc::{AllocError, Global};
use std::test::Fail;

/// What a run of the program came to.
#[derive(Drop)]
struct Came {
    status: u8,
    out: MemorySink,
    notes: MemorySink,
}

/// The calls of the shelf, of out and of notes that fail.
#[derive(Clone, Copy)]
struct Failing<'a> {
    shelf: &'a [u64],
    out: &'a [u64],
    notes: &'a [u64],
}

const NONE: &[u64] = &[];

const FIRST: &[u64] = &[0];

const CALM: Failing<'static> = Failing {
    shelf: NONE,
    out: NONE,
    notes: NONE,
};

/// A shelf with one file, `a.dex`.
fn shelf_with(alloc: Global, file: &[u8], fails: &[u64]) -> Result<MemoryShelf, AllocError> {
    let mut files = Files::new(alloc);
    files.push(ShelfFile {
        name: Text::from_str(alloc, "a.dex")?,
        bytes: Bytes::from_slice(alloc, file)?,
    })?;
    Ok(MemoryShelf::new(alloc, files, CallList::from_slice(alloc, fails)?))
}

/// Runs the program on these words, cut at blanks, over a shelf with one file.
fn run(alloc: Global, line: &str, file: &[u8], failing: Failing<'_>) -> Result<Came, AllocError> {
    let mut words = Vec::new(alloc);
    for word in line.split_whitespace() {
        words.push(word.to_string(alloc)?)?;
    }
    let mut shelf = shelf_with(alloc, file, failing.shelf)?;
    let mut out = MemorySink::new(alloc, CallList::from_slice(alloc, failing.out)?);
    let mut notes = MemorySink::new(alloc, CallList::from_slice(alloc, failing.notes)?);
    let mut link = CannedLink::new(alloc, Bytes::new(alloc), CannedEnd::End);
    let status = run_words(alloc, &words, &mut shelf, &mut out, &mut notes, &mut link);
    Ok(Came { status, out, notes })
}

/// The sample with some bytes changed.
fn changed(alloc: Global, changes: &[(usize, u8)]) -> Result<Vec<u8>, AllocError> {
    let mut file = Vec::from_slice(alloc, &SAMPLE)?;
    for (at, byte) in changes {
        if let Some(place) = file.get_mut(*at) {
            *place = *byte;
        }
    }
    Ok(file)
}

#[test]
fn prints_the_sum(rt: HostRuntime) -> Result<(), Fail> {
    let came = run(rt.alloc(), "run a.dex", &SAMPLE, CALM)?;
    assert_eq!(rt; came.status, 0);
    assert!(rt; came.out.bytes() == b"7\n".as_slice());
    assert!(rt; came.notes.bytes() == b"end return\n".as_slice());
    Ok(())
}

#[test]
fn says_why_nothing_ran(rt: HostRuntime) -> Result<(), Fail> {
    let alloc = rt.alloc();
    let unread = Failing {
        shelf: FIRST,
        ..CALM
    };
    let rows: [(&str, Failing<'_>, u8, &str); 8] = [
        ("", CALM, 64, "fault 64 Usage\n"),
        ("run", CALM, 64, "fault 64 Usage\n"),
        ("walk a.dex", CALM, 64, "fault 64 Usage\n"),
        ("run a.dex a.dex", CALM, 64, "fault 64 Usage\n"),
        ("run b.dex", CALM, 73, "fault 73 Absent b.dex\n"),
        ("run \u{e9}.dex", CALM, 73, "fault 73 Absent \\u00e9.dex\n"),
        (
            "run \u{1f600}",
            CALM,
            73,
            "fault 73 Absent \\ud83d\\ude00\n",
        ),
        ("run a.dex", unread, 71, "fault 71 ReadFault a.dex\n"),
    ];
    for (line, failing, status, notes) in rows {
        let came = run(alloc, line, &SAMPLE, failing)?;
        assert_eq!(rt; came.status, status, "{line}");
        assert!(rt; came.out.bytes().is_empty(), "{line}");
        assert!(rt; came.notes.bytes() == notes.as_bytes(), "{line}");
    }
    Ok(())
}

#[test]
fn says_that_a_sink_failed(rt: HostRuntime) -> Result<(), Fail> {
    let alloc = rt.alloc();
    let came = run(alloc, "run a.dex", &SAMPLE, Failing { out: FIRST, ..CALM })?;
    assert_eq!(rt; came.status, 72);
    assert!(rt; came.out.bytes().is_empty());
    assert!(rt; came.notes.bytes() == b"fault 72 WriteFault\n".as_slice());
    let came = run(
        alloc,
        "run a.dex",
        &SAMPLE,
        Failing {
            notes: FIRST,
            ..CALM
        },
    )?;
    assert_eq!(rt; came.status, 72);
    assert!(rt; came.out.bytes() == b"7\n".as_slice());
    assert!(rt; came.notes.bytes().is_empty());
    Ok(())
}

#[test]
fn refuses_a_file_that_is_too_long(rt: HostRuntime) -> Result<(), Fail> {
    let alloc = rt.alloc();
    let long = vec![in alloc; 0u8; 8_388_609]?;
    let came = run(alloc, "run a.dex", &long, CALM)?;
    assert_eq!(rt; came.status, 74);
    assert!(rt; came.notes.bytes() == b"fault 74 TooLarge a.dex\n".as_slice());
    let came = run(alloc, "run a.dex", long.split_at(8_388_608).0, CALM)?;
    assert_eq!(rt; came.status, 80);
    assert!(rt; came.notes.bytes() == b"fault 80 NotBuilt\n".as_slice());
    Ok(())
}

#[test]
fn judges_a_file_place_by_place(rt: HostRuntime) -> Result<(), Fail> {
    let alloc = rt.alloc();
    // A place, the byte that is put there, and the output, none where the file is no longer plain.
    let rows: [(usize, u8, Option<&str>); 32] = [
        (0, 99, None),
        (CHECKSUM, 1, Some("7\n")),
        (SIGNATURE, 1, Some("7\n")),
        (FILE_SIZE, 0, None),
        (HEADER_SIZE, 1, None),
        (ENDIAN_TAG, 1, None),
        (MAP, 1, Some("7\n")),
        (TEXT_COUNT, 200, None),
        (TEXT_COUNT, 4, None),
        (CLASS_COUNT, 0, None),
        (CLASS, 0, None),
        (CLASS + 4, 0, Some("7\n")),
        (CLASS + 8, 250, Some("7\n")),
        (CLASS + 24, 0, None),
        (CLASS + 28, 1, None),
        (CODE, 3, Some("7\n")),
        (CODE, 2, None),
        (CODE, 17, None),
        (CODE + 2, 2, None),
        (CODE + 4, 0, Some("7\n")),
        (CODE + 6, 1, None),
        (CODE + 8, 9, Some("7\n")),
        (CODE + 12, 8, None),
        (CODE + 18, 1, None),
        (CODE + 21, 0x71, Some("11\n")),
        (CODE + 21, 0x81, Some("-4\n")),
        (CODE + 23, 0x41, None),
        (CODE + 25, 0x11, Some("6\n")),
        (CODE + 24, 0x90, None),
        (CODE + 30, 0x11, None),
        (CODE + 30, 0x20, Some("4\n")),
        (CODE + 32, 0x00, None),
    ];
    for (at, byte, out) in rows {
        let came = run(alloc, "run a.dex", &changed(alloc, &[(at, byte)])?, CALM)?;
        let wanted = if out.is_some() { 0 } else { 80 };
        assert_eq!(rt; came.status, wanted, "{byte} at {at}");
        assert!(rt;
            came.out.bytes() == out.unwrap_or("").as_bytes(),
            "{byte} at {at}"
        );
    }
    Ok(())
}
