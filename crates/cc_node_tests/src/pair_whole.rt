//! A Hello and a Run of a plain file, there and back.

ghost use Rattle.std.specs.Prelude.{◌<◌, ◌≤◌, length};

use crate::pair_sample::{BACK, HELLO, READY, RUN};
use cc_link::{Dialed, Got, Link, Sent};
use cc_meaning::travel::{Happening, Happenings};
use cc_pair::PairLink;
use std::test::Fail;

/// Sends bytes, and gives what comes then.
fn ask<L: Link>(link: &mut L, bytes: &[u8], room: usize) -> (Sent, Got)
    requires some { 0 < length bytes.now }
    requires place { 0 < room }
    requires within { room ≤ 65536 }
{
    let sent = link.send(bytes);
    (sent, link.receive(room))
}

fn is_bytes(got: &Got, bytes: &[u8]) -> bool {
    match got {
        Got::Bytes(list) => list.as_slice() == bytes,
        _ => false,
    }
}

#[test]
fn a_run_goes_there_and_comes_back(rt: HostRuntime) -> Result<(), Fail> {
    let mut link = PairLink::new(rt.alloc(), Happenings::new(rt.alloc()))?;
    assert!(rt; link.dial("anywhere") == Dialed::Up);
    let (sent, ready) = ask(&mut link, &HELLO, 65_536);
    assert!(rt; sent == Sent::Took(HELLO.len()));
    assert!(rt; is_bytes(&ready, &READY));
    let (sent, back) = ask(&mut link, &RUN, 65_536);
    assert!(rt; sent == Sent::Took(RUN.len()));
    assert!(rt; is_bytes(&back, &BACK));
    assert!(rt; matches!(&link.receive(1), Got::NotYet));
    Ok(())
}

#[test]
fn a_run_goes_in_pieces(rt: HostRuntime) -> Result<(), Fail> {
    let alloc = rt.alloc();
    let list = [
        Happening::Up(567),
        Happening::Up(1),
        Happening::Up(60),
        Happening::Down(100),
        Happening::Up(1),
        Happening::Down(3),
    ];
    let mut link = PairLink::new(alloc, Happenings::from_slice(alloc, &list)?)?;
    assert!(rt; link.send(&HELLO) == Sent::Took(HELLO.len()));
    let (sent, ready) = ask(&mut link, &RUN, 1000);
    assert!(rt; sent == Sent::Took(RUN.len()));
    assert!(rt; is_bytes(&ready, &READY));
    assert!(rt; is_bytes(&link.receive(1000), &BACK[..3]));
    assert!(rt; is_bytes(&link.receive(10), &BACK[3..13]));
    assert!(rt; is_bytes(&link.receive(1000), &BACK[13..]));
    assert!(rt; matches!(&link.receive(1000), Got::NotYet));
    Ok(())
}
