//! What each happening makes the link answer. The Hello has 55 bytes, and the clone refuses it in 26.

ghost use Rattle.std.specs.Prelude.{◌<◌, ◌≤◌, length};

use crate::pair_sample::{NINTH_VERSION, REFUSE_64};
use cc_link::{Dialed, Got, Link, Sent};
use cc_meaning::travel::{Happening, Happenings};
use cc_pair::PairLink;
use std::alloc::Global;
use std::process::Abort;
use std::test::Fail;

/// A link that these befall.
fn befallen(alloc: Global, list: &[Happening]) -> Result<PairLink, Fail> {
    Ok(PairLink::new(alloc, Happenings::from_slice(alloc, list)?)?)
}

/// The same, with the whole Hello sent.
fn asked(rt: &impl Abort, alloc: Global, list: &[Happening]) -> Result<PairLink, Fail> {
    let mut link = befallen(alloc, list)?;
    assert!(rt; link.send(&NINTH_VERSION) == Sent::Took(55));
    Ok(link)
}

/// The place of the refusal up to which it was got.
fn gets(rt: &impl Abort, link: &mut PairLink, room: usize, from: usize, to: usize)
    requires some { 0 < room }
    requires within { room ≤ 65536 }
    requires front { from ≤ to }
    requires back { to ≤ 26 }
{
    match link.receive(room) {
        Got::Bytes(list) => assert!(rt; list.as_slice() == &REFUSE_64[from..to]),
        _ => assert!(rt; false),
    }
}

fn waits(rt: &impl Abort, link: &mut PairLink) {
    assert!(rt; matches!(&link.receive(65_536), Got::NotYet));
}

fn fails(rt: &impl Abort, link: &mut PairLink) {
    assert!(rt; matches!(&link.receive(65_536), Got::Failed));
}

fn ends(rt: &impl Abort, link: &mut PairLink) {
    assert!(rt; matches!(&link.receive(65_536), Got::End));
}

#[test]
fn bytes_go_up_and_down_as_told(rt: HostRuntime) -> Result<(), Fail> {
    let list = [
        Happening::Up(54),
        Happening::Down(26),
        Happening::NotYet,
        Happening::Up(0),
        Happening::Up(1),
        Happening::Down(0),
        Happening::Down(10),
        Happening::Down(100),
    ];
    let mut link = asked(&rt, rt.alloc(), &list)?;
    waits(&rt, &mut link);
    gets(&rt, &mut link, 7, 0, 7);
    gets(&rt, &mut link, 7, 7, 10);
    gets(&rt, &mut link, 100, 10, 26);
    waits(&rt, &mut link);
    Ok(())
}

#[test]
fn more_goes_up_than_was_sent(rt: HostRuntime) -> Result<(), Fail> {
    let list = [Happening::Up(1000), Happening::NotYet];
    let mut link = asked(&rt, rt.alloc(), &list)?;
    waits(&rt, &mut link);
    gets(&rt, &mut link, 26, 0, 26);
    waits(&rt, &mut link);
    Ok(())
}

#[test]
fn a_cut_link_gives_what_came_down(rt: HostRuntime) -> Result<(), Fail> {
    let list = [
        Happening::Up(55),
        Happening::Down(20),
        Happening::Cut,
        Happening::NotYet,
    ];
    let mut link = asked(&rt, rt.alloc(), &list)?;
    gets(&rt, &mut link, 15, 0, 15);
    assert!(rt; link.send(b"x") == Sent::Failed);
    gets(&rt, &mut link, 15, 15, 20);
    ends(&rt, &mut link);
    assert!(rt; link.send(b"x") == Sent::Failed);
    ends(&rt, &mut link);
    assert!(rt; link.dial("again") == Dialed::Up);
    ends(&rt, &mut link);
    Ok(())
}

#[test]
fn each_failure_fails_one_call(rt: HostRuntime) -> Result<(), Fail> {
    let list = [
        Happening::Fail,
        Happening::Fail,
        Happening::NotYet,
        Happening::Fail,
    ];
    let mut link = befallen(rt.alloc(), &list)?;
    assert!(rt; link.dial("first") == Dialed::Failed);
    assert!(rt; link.send(&NINTH_VERSION) == Sent::Failed);
    assert!(rt; link.dial("again") == Dialed::Up);
    assert!(rt; link.send(&NINTH_VERSION) == Sent::NotYet);
    fails(&rt, &mut link);
    waits(&rt, &mut link);
    assert!(rt; link.send(&NINTH_VERSION) == Sent::Took(55));
    gets(&rt, &mut link, 100, 0, 26);
    Ok(())
}

#[test]
fn a_clone_that_stopped_says_what_it_said(rt: HostRuntime) -> Result<(), Fail> {
    let list = [
        Happening::Up(55),
        Happening::CloneStops,
        Happening::NotYet,
        Happening::Up(55),
        Happening::Down(5),
    ];
    let mut link = asked(&rt, rt.alloc(), &list)?;
    waits(&rt, &mut link);
    gets(&rt, &mut link, 100, 0, 5);
    gets(&rt, &mut link, 100, 5, 26);
    waits(&rt, &mut link);
    Ok(())
}

#[test]
fn a_clone_that_stopped_hears_nothing(rt: HostRuntime) -> Result<(), Fail> {
    let list = [
        Happening::Up(54),
        Happening::NotYet,
        Happening::CloneStops,
        Happening::CloneStops,
        Happening::NotYet,
    ];
    let mut link = asked(&rt, rt.alloc(), &list)?;
    waits(&rt, &mut link);
    assert!(rt; link.send(b"x") == Sent::NotYet);
    assert!(rt; link.send(b"x") == Sent::Took(1));
    waits(&rt, &mut link);
    waits(&rt, &mut link);
    Ok(())
}
