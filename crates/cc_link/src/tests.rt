ghost use Rattle.std.specs.Prelude.{◌<◌, ◌≤◌, length};

use crate::{CannedEnd, CannedLink, Dialed, Got, Link, Sent};
use cc_meaning::lists::Bytes;
use std::test::Fail;

/// Dials and sends.
fn say<L: Link>(link: &mut L, bytes: &[u8]) -> (Dialed, Sent)
    requires { 0 < length bytes.now }
{
    let dialed = link.dial("somewhere");
    (dialed, link.send(bytes))
}

/// What is received, at most so many bytes.
fn hear<L: Link>(link: &mut L, room: usize) -> Got
    requires some { 0 < room }
    requires within { room ≤ 65536 }
{
    link.receive(room)
}

fn is_bytes(got: &Got, bytes: &[u8]) -> bool {
    match got {
        Got::Bytes(list) => list.as_slice() == bytes,
        _ => false,
    }
}

#[test]
fn link_gives_and_ends(rt: HostRuntime) -> Result<(), Fail> {
    let alloc = rt.alloc();
    let mut link = CannedLink::new(alloc, Bytes::from_slice(alloc, b"abcde")?, CannedEnd::End);
    assert!(rt; say(&mut link, b"xyz") == (Dialed::Up, Sent::Took(3)));
    assert!(rt; is_bytes(&hear(&mut link, 3), b"abc"));
    assert!(rt; is_bytes(&hear(&mut link, 3), b"de"));
    assert!(rt; matches!(&hear(&mut link, 3), Got::End));
    assert!(rt; matches!(&hear(&mut link, 3), Got::End));
    Ok(())
}

#[test]
fn link_waits(rt: HostRuntime) -> Result<(), Fail> {
    let alloc = rt.alloc();
    let mut link = CannedLink::new(alloc, Bytes::new(alloc), CannedEnd::NotYet);
    assert!(rt; matches!(&hear(&mut link, 1), Got::NotYet));
    assert!(rt; say(&mut link, b"x") == (Dialed::Up, Sent::Took(1)));
    assert!(rt; matches!(&hear(&mut link, 65_536), Got::NotYet));
    Ok(())
}
