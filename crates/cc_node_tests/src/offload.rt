//! The command that offloads, over objects in memory.

use crate::adds_one::{
    ADDS_ONE, FALSE_BACK, LONGER_BACK, OUT_OF_INSTRUCTIONS, OUT_OF_WORDS, READY, REFUSE_70,
};
use cc_cli::run_words;
use cc_link::{CannedEnd, CannedLink, Link};
use cc_meaning::file::{Files, ShelfFile};
use cc_meaning::lists::{Bytes, CallList};
use cc_meaning::text::Text;
use cc_meaning::travel::{Happening, Happenings};
use cc_outside::{MemoryShelf, MemorySink};
use cc_pair::PairLink;
use std::alloc::{AllocError, Global};
use std::test::Fail;

/// A file's name and its bytes.
type Named<'a> = (&'a str, &'a [u8]);

const COMMAND: &str = "offload a.dex s.json p.json pair:";

const SCRIPT: &[u8] = b"{\"classes\":[]}";

const MOVED: &[u8] = b"{\"moved\":[\"LA;->f(I)I\"]}";

const NOTHING: &[u8] = b"{\"moved\":[]}";

/// What the program came to.
#[derive(Drop)]
struct Came {
    status: u8,
    out: MemorySink,
    notes: MemorySink,
}

impl Came {
    /// Whether it ended with this status, output and notes.
    fn is(&self, status: u8, out: &str, notes: &str) -> bool {
        self.status == status
            && self.out.bytes() == out.as_bytes()
            && self.notes.bytes() == notes.as_bytes()
    }
}

fn shelf_of(alloc: Global, named: &[Named<'_>]) -> Result<MemoryShelf, AllocError> {
    let mut files = Files::new(alloc);
    for (name, bytes) in named {
        files.push(ShelfFile {
            name: Text::from_str(alloc, name)?,
            bytes: Bytes::from_slice(alloc, bytes)?,
        })?;
    }
    Ok(MemoryShelf::new(alloc, files, CallList::new(alloc)))
}

/// Runs the program on these words, cut at blanks.
fn run<L: Link>(
    alloc: Global,
    line: &str,
    named: &[Named<'_>],
    link: &mut L,
) -> Result<Came, AllocError> {
    let mut words = Vec::new(alloc);
    for word in line.split_whitespace() {
        words.push(word.to_string(alloc)?)?;
    }
    let mut shelf = shelf_of(alloc, named)?;
    let mut out = MemorySink::new(alloc, CallList::new(alloc));
    let mut notes = MemorySink::new(alloc, CallList::new(alloc));
    let status = run_words(alloc, &words, &mut shelf, &mut out, &mut notes, link);
    Ok(Came { status, out, notes })
}

/// Offloads the sample by a partition.
fn offload<L: Link>(alloc: Global, partition: &[u8], link: &mut L) -> Result<Came, AllocError> {
    let named = [
        ("a.dex", ADDS_ONE.as_slice()),
        ("s.json", SCRIPT),
        ("p.json", partition),
    ];
    run(alloc, COMMAND, &named, link)
}

/// A link that gives these bytes and then is at its end.
fn canned(alloc: Global, pieces: &[&[u8]]) -> Result<CannedLink, AllocError> {
    let mut bytes = Bytes::new(alloc);
    for piece in pieces {
        bytes.extend_from_slice(piece)?;
    }
    Ok(CannedLink::new(alloc, bytes, CannedEnd::End))
}

#[test]
fn a_clone_does_the_function(rt: HostRuntime) -> Result<(), Fail> {
    let alloc = rt.alloc();
    let mut link = PairLink::new(alloc, Happenings::new(alloc))?;
    let came = offload(alloc, MOVED, &mut link)?;
    assert!(rt; came.is(0, "6\n", "end return\nlink migrated 1, fallback none\n"));
    Ok(())
}

#[test]
fn nothing_is_moved(rt: HostRuntime) -> Result<(), Fail> {
    let alloc = rt.alloc();
    // The first call of the link would fail.
    let happenings = Happenings::from_slice(alloc, &[Happening::Fail])?;
    let came = offload(alloc, NOTHING, &mut PairLink::new(alloc, happenings)?)?;
    assert!(rt; came.is(0, "6\n", "end return\nlink migrated 0, fallback none\n"));
    Ok(())
}

#[test]
fn dialing_fails(rt: HostRuntime) -> Result<(), Fail> {
    let alloc = rt.alloc();
    let happenings = Happenings::from_slice(alloc, &[Happening::Fail])?;
    let came = offload(alloc, MOVED, &mut PairLink::new(alloc, happenings)?)?;
    assert!(rt; came.is(0, "6\n", "end return\nlink migrated 0, fallback dial\n"));
    Ok(())
}

#[test]
fn the_report_follows_the_frames(rt: HostRuntime) -> Result<(), Fail> {
    let alloc = rt.alloc();
    let rows: [(&[&[u8]], u8, &str, &str); 9] = [
        (
            &[&READY, &FALSE_BACK],
            0,
            "7\n",
            "end return\nlink migrated 1, fallback none\n",
        ),
        (
            &[&READY, &OUT_OF_INSTRUCTIONS],
            2,
            "",
            "end stop budget\nlink migrated 1, fallback none\n",
        ),
        (
            &[&READY, &OUT_OF_WORDS],
            2,
            "",
            "end stop heap\nlink migrated 1, fallback none\n",
        ),
        (
            &[],
            0,
            "6\n",
            "end return\nlink migrated 0, fallback ended\n",
        ),
        (
            &[&READY],
            0,
            "6\n",
            "end return\nlink migrated 0, fallback ended\n",
        ),
        (
            &[&[7]],
            0,
            "6\n",
            "end return\nlink migrated 0, fallback frame F1\n",
        ),
        (
            &[&FALSE_BACK],
            0,
            "6\n",
            "end return\nlink migrated 0, fallback unexpected 4\n",
        ),
        (
            &[&REFUSE_70],
            0,
            "6\n",
            "end return\nlink migrated 0, fallback refused 70\n",
        ),
        (
            &[&READY, &LONGER_BACK],
            0,
            "6\n",
            "end return\nlink migrated 0, fallback unfit W2\n",
        ),
    ];
    for (pieces, status, out, notes) in rows {
        let came = offload(alloc, MOVED, &mut canned(alloc, pieces)?)?;
        assert!(rt; came.is(status, out, notes), "{notes}");
    }
    Ok(())
}

#[test]
fn nothing_comes(rt: HostRuntime) -> Result<(), Fail> {
    let alloc = rt.alloc();
    let mut link = CannedLink::new(alloc, Bytes::new(alloc), CannedEnd::NotYet);
    let came = offload(alloc, MOVED, &mut link)?;
    assert!(rt;
        came.is(
            0,
            "6\n",
            "end return\nlink migrated 0, fallback waited 1000\n"
        )
    );
    Ok(())
}

#[test]
fn says_why_nothing_ran(rt: HostRuntime) -> Result<(), Fail> {
    let alloc = rt.alloc();
    let file = ("a.dex", ADDS_ONE.as_slice());
    let script = ("s.json", SCRIPT);
    let moved = ("p.json", MOVED);
    let other_file: Named<'_> = ("a.dex", b"dex");
    let other_script: Named<'_> = ("s.json", b"{}");
    let built = "fault 80 NotBuilt\n";
    let rows: [(&[Named<'_>], u8, &str); 10] = [
        (&[other_file, script, moved], 80, built),
        (&[other_file], 80, built),
        (&[file, other_script, moved], 80, built),
        (&[file, other_script], 80, built),
        (
            &[file, script, ("p.json", b"{\"moved\":[\"LA;->g(I)I\"]}")],
            80,
            built,
        ),
        (&[file, script, ("p.json", b"{\"moved\":[ ]}")], 80, built),
        (
            &[
                file,
                script,
                ("p.json", b"{\"moved\":[\"LA;->f(I)I\",\"LA;->f(I)I\"]}"),
            ],
            80,
            built,
        ),
        (&[script, moved], 73, "fault 73 Absent a.dex\n"),
        (&[file, ("p.json", b"")], 73, "fault 73 Absent s.json\n"),
        (&[file, script], 73, "fault 73 Absent p.json\n"),
    ];
    for (named, status, notes) in rows {
        let came = run(alloc, COMMAND, named, &mut canned(alloc, &[])?)?;
        assert!(rt; came.is(status, "", notes), "{notes}");
    }
    Ok(())
}

#[test]
fn takes_five_words(rt: HostRuntime) -> Result<(), Fail> {
    let alloc = rt.alloc();
    for line in [
        "offload",
        "offload a.dex s.json p.json",
        "offload a.dex s.json p.json pair: more",
    ] {
        let came = run(alloc, line, &[], &mut canned(alloc, &[])?)?;
        assert!(rt; came.is(64, "", "fault 64 Usage\n"), "{line}");
    }
    Ok(())
}
