//! A run whose function is moved, over links that give right, wrong and no frames. Expected values are of published worked examples.

ghost use Rattle.std.specs.Prelude.{◌≡◌, ◌≤◌, [], IfOk, IfSome};
ghost use Rattle.cc_meaning_plain.specs.Laws.{AreBytes};
ghost use Rattle.cc_meaning_plain.specs.Plain.{IsPlain};

use crate::device_sample::{BACK, BACK_CUT, BACK_OF_SEVEN, FILE, LATER_READY, READY, REFUSE_70};
use cc_device::{hello_fits, offload};
use cc_link::{CannedEnd, CannedLink, Link};
use cc_list::List;
use cc_meaning::fault::{FrameFault, ImageFault};
use cc_meaning::file::Job;
use cc_meaning::lists::{ArgTexts, Bytes};
use cc_meaning::report::{Ending, Limits, Report, StopCause};
use cc_meaning::text::Text;
use cc_meaning::travel::{Happening, Happenings, LinkEnd, Travel};
use cc_meaning_plain::Plain;
use cc_pair::PairLink;
use cc_plain::read_plain;
use std::alloc::{AllocError, Global};
use std::process::Abort;
use std::test::Fail;

const LIMITS: Limits = Limits {
    instructions: 100,
    words: 100,
};

/// A job of the file, of at most 1,000 instructions and with some patience.
fn job(alloc: Global, instructions: u64, patience: u32) -> Result<Job, AllocError>
    ensures arguments { IfOk result (λ job. job.args ≡ []) }
    ensures instructions { IfOk result (λ job. job.limits.instructions ≤ 4294967296) }
    ensures words { IfOk result (λ job. job.limits.words ≤ 4194304) }
    ensures patient { IfOk result (λ job. 1 ≤ job.patience) }
{
    Ok(Job {
        file: Bytes::from_slice(alloc, &FILE)?,
        script: Bytes::from_slice(alloc, b"{\"classes\":[]}")?,
        main: None,
        args: ArgTexts::new(alloc),
        limits: Limits {
            instructions: if instructions < 1000 {
                instructions
            } else {
                1000
            },
            ..LIMITS
        },
        place: Text::from_str(alloc, "here")?,
        patience: if patience < 1 { 1 } else { patience },
    })
}

/// The word of an end, and its number where it has one.
fn word(end: Option<LinkEnd>) -> (&'static str, u32) {
    match end {
        None => ("none", 0),
        Some(LinkEnd::DialFailed) => ("dial", 0),
        Some(LinkEnd::Failed) => ("failed", 0),
        Some(LinkEnd::Ended) => ("ended", 0),
        Some(LinkEnd::Waited(times)) => ("waited", times),
        Some(LinkEnd::BadFrame(FrameFault::BadKind)) => ("frame F1", 0),
        Some(LinkEnd::BadFrame(_)) => ("frame", 0),
        Some(LinkEnd::Unexpected(kind)) => ("unexpected", u32::from(kind)),
        Some(LinkEnd::Unfit(ImageFault::CutOff)) => ("unfit W1", 0),
        Some(LinkEnd::Unfit(_)) => ("unfit", 0),
        Some(LinkEnd::Refused(status)) => ("refused", u32::from(status)),
    }
}

/// The plain file that bytes are, or none.
fn plain_of(alloc: Global, file: &[u8]) -> Result<Option<Plain>, AllocError>
    ensures bytes { AreBytes file.now }
    ensures plain { IfOk result (λ found. IfSome found (λ plain. IsPlain file.now plain)) }
{
    read_plain(alloc, file)
}

/// The run of a file with its one function moved, or not, and how it fared.
fn run_file<L: Link>(
    rt: &impl Abort,
    alloc: Global,
    file: &[u8],
    is_moved: bool,
    job: &Job,
    link: &mut L,
) -> Result<(Report, Travel), Fail>
    requires arguments { job.now.args ≡ [] }
    requires instructions { job.now.limits.instructions ≤ 4294967296 }
    requires words { job.now.limits.words ≤ 4194304 }
    requires patient { 1 ≤ job.now.patience }
{
    let plain = plain_of(alloc, file)?.expect(rt, "the file is plain");
    assert!(rt; hello_fits(job));
    assert!(rt; plain.functions.len() == 1);
    let moved = if is_moved { Some(0) } else { None };
    Ok(offload(alloc, &plain, moved, job, link)?)
}

/// The same of the sample, within so many instructions and with this patience.
fn run<L: Link>(
    rt: &impl Abort,
    alloc: Global,
    is_moved: bool,
    instructions: u64,
    patience: u32,
    link: &mut L,
) -> Result<(Report, Travel), Fail> {
    let job = job(alloc, instructions, patience)?;
    run_file(rt, alloc, &FILE, is_moved, &job, link)
}

/// Over a link that gives these bytes and then this end.
fn over(
    rt: &impl Abort,
    alloc: Global,
    frames: &[&[u8]],
    end: CannedEnd,
) -> Result<(Report, Travel), Fail> {
    let mut bytes = Bytes::new(alloc);
    for frame in frames {
        bytes.extend_from_slice(frame)?;
    }
    let mut link = CannedLink::new(alloc, bytes, end);
    run(rt, alloc, true, 100, 3, &mut link)
}

/// Asserts what was printed in a run that returned, and how the device fared.
fn assert_fares(
    rt: &impl Abort,
    done: (Report, Travel),
    out: &str,
    migrations: u64,
    fallback: (&str, u32),
) {
    let (report, travel) = done;
    assert!(rt; report.out.as_slice() == out.as_bytes());
    assert!(rt; matches!(report.ending, Ending::Returned));
    assert_eq!(rt; travel.migrations, migrations);
    assert_eq!(rt; word(travel.fallback), fallback);
}

#[test]
fn follows_a_reply_that_fits(rt: HostRuntime) -> Result<(), Fail> {
    let alloc = rt.alloc();
    let right = over(&rt, alloc, &[&READY, &BACK], CannedEnd::End)?;
    assert_fares(&rt, right, "6\n", 1, ("none", 0));
    let wrong = over(&rt, alloc, &[&READY, &BACK_OF_SEVEN], CannedEnd::End)?;
    assert_fares(&rt, wrong, "7\n", 1, ("none", 0));
    Ok(())
}

#[test]
fn falls_back_at_each_end(rt: HostRuntime) -> Result<(), Fail> {
    let alloc = rt.alloc();
    let ended = over(&rt, alloc, &[], CannedEnd::End)?;
    assert_fares(&rt, ended, "6\n", 0, ("ended", 0));
    let ready_alone = over(&rt, alloc, &[&READY], CannedEnd::End)?;
    assert_fares(&rt, ready_alone, "6\n", 0, ("ended", 0));
    let waited = over(&rt, alloc, &[&READY], CannedEnd::NotYet)?;
    assert_fares(&rt, waited, "6\n", 0, ("waited", 3));
    Ok(())
}

#[test]
fn falls_back_at_each_wrong_frame(rt: HostRuntime) -> Result<(), Fail> {
    let alloc = rt.alloc();
    let refused = over(&rt, alloc, &[&REFUSE_70], CannedEnd::End)?;
    assert_fares(&rt, refused, "6\n", 0, ("refused", 70));
    let back_first = over(&rt, alloc, &[&BACK], CannedEnd::End)?;
    assert_fares(&rt, back_first, "6\n", 0, ("unexpected", 4));
    let later = over(&rt, alloc, &[&LATER_READY, &BACK], CannedEnd::End)?;
    assert_fares(&rt, later, "6\n", 0, ("unexpected", 2));
    let ready_twice = over(&rt, alloc, &[&READY, &READY], CannedEnd::End)?;
    assert_fares(&rt, ready_twice, "6\n", 0, ("unexpected", 2));
    let cut = over(&rt, alloc, &[&READY, &BACK_CUT], CannedEnd::End)?;
    assert_fares(&rt, cut, "6\n", 0, ("unfit W1", 0));
    let no_frame = over(&rt, alloc, &[&READY, &[7]], CannedEnd::End)?;
    assert_fares(&rt, no_frame, "6\n", 0, ("frame F1", 0));
    Ok(())
}

#[test]
fn moves_nothing(rt: HostRuntime) -> Result<(), Fail> {
    let alloc = rt.alloc();
    let mut link = CannedLink::new(alloc, Bytes::new(alloc), CannedEnd::End);
    let done = run(&rt, alloc, false, 100, 3, &mut link)?;
    assert_fares(&rt, done, "6\n", 0, ("none", 0));
    Ok(())
}

/// Over a clone in memory, with these happenings.
fn with_clone(
    rt: &impl Abort,
    alloc: Global,
    happenings: &[Happening],
    instructions: u64,
) -> Result<(Report, Travel), Fail> {
    let happenings: Happenings = List::from_slice(alloc, happenings)?;
    let mut link = PairLink::new(alloc, happenings)?;
    run(rt, alloc, true, instructions, 3, &mut link)
}

#[test]
fn a_clone_in_memory_does_the_function(rt: HostRuntime) -> Result<(), Fail> {
    let alloc = rt.alloc();
    let calm = with_clone(&rt, alloc, &[], 100)?;
    assert_fares(&rt, calm, "6\n", 1, ("none", 0));
    let undialed = with_clone(&rt, alloc, &[Happening::Fail], 100)?;
    assert_fares(&rt, undialed, "6\n", 0, ("dial", 0));
    Ok(())
}

#[test]
fn patience_is_counted_frame_by_frame(rt: HostRuntime) -> Result<(), Fail> {
    let alloc = rt.alloc();
    let not_yet = Happening::NotYet;
    let up = Happening::Up(1_000_000);
    let down = Happening::Down(1_000_000);
    let three = with_clone(&rt, alloc, &[not_yet, not_yet, not_yet], 100)?;
    assert_fares(&rt, three, "6\n", 0, ("waited", 3));
    let two = with_clone(&rt, alloc, &[not_yet, not_yet], 100)?;
    assert_fares(&rt, two, "6\n", 1, ("none", 0));
    let twos = [
        not_yet, not_yet, up, not_yet, not_yet, down, not_yet, not_yet, up, not_yet, not_yet, down,
    ];
    let each = with_clone(&rt, alloc, &twos, 100)?;
    assert_fares(&rt, each, "6\n", 1, ("none", 0));
    Ok(())
}

#[test]
fn the_budget_travels(rt: HostRuntime) -> Result<(), Fail> {
    let alloc = rt.alloc();
    for (instructions, out) in [(3, ""), (7, "6\n")] {
        let (report, travel) = with_clone(&rt, alloc, &[], instructions)?;
        assert!(rt; report.out.as_slice() == out.as_bytes());
        assert!(rt; matches!(report.ending, Ending::Stopped(StopCause::Budget)));
        assert_eq!(rt; travel.migrations, 1);
        assert!(rt; travel.fallback.is_none());
    }
    let whole = with_clone(&rt, alloc, &[], 8)?;
    assert_fares(&rt, whole, "6\n", 1, ("none", 0));
    Ok(())
}
