//! Class data and code.

use cc_items::{put_code, put_members};
use cc_list::List;
use cc_meaning::fault::Memory;
use cc_meaning::file::{RawCatch, RawCode, RawField, RawTry};
use cc_meaning::lists::Bytes;
use cc_meaning_dex::StatedMethod;
use std::alloc::Global;
use std::test::Fail;

const FIELDS: [RawField; 3] = [
    RawField {
        row: 4,
        flags: 1,
        is_static: false,
    },
    RawField {
        row: 3,
        flags: 9,
        is_static: true,
    },
    RawField {
        row: 6,
        flags: 2,
        is_static: false,
    },
];

const METHODS: [StatedMethod; 3] = [
    StatedMethod {
        row: 2,
        flags: 1,
        is_direct: false,
        code_at: 0,
    },
    StatedMethod {
        row: 5,
        flags: 0x10001,
        is_direct: true,
        code_at: 0x200,
    },
    StatedMethod {
        row: 9,
        flags: 1,
        is_direct: false,
        code_at: 0x80,
    },
];

#[test]
fn puts_members(rt: HostRuntime) -> Result<(), Fail> {
    let alloc = rt.alloc();
    let mut out = Bytes::new(alloc);
    put_members(&mut out, &List::from_slice(alloc, &FIELDS)?, &METHODS)?;
    let want: [u8; 23] = [
        1, 2, 1, 2, 3, 9, 4, 1, 2, 2, 5, 0x81, 0x80, 4, 0x80, 4, 2, 1, 0, 7, 1, 0x80, 1,
    ];
    assert!(rt; out.as_slice() == &want[..]);
    Ok(())
}

fn covered(alloc: Global, start: u32, catches: &[RawCatch]) -> Result<RawTry, Memory> {
    Ok(RawTry {
        start,
        end: start.saturating_add(1),
        catches: List::from_slice(alloc, catches)?,
    })
}

fn code(alloc: Global) -> Result<RawCode, Memory> {
    let typed = RawCatch {
        row: Some(5),
        at: 2,
    };
    let all = RawCatch { row: None, at: 2 };
    let mut tries = List::new(alloc);
    tries.push(covered(alloc, 0, &[typed, all])?)?;
    tries.push(covered(alloc, 1, &[typed])?)?;
    Ok(RawCode {
        registers: 2,
        ins: 1,
        units: List::from_slice(alloc, &[0, 0, 14])?,
        tries,
    })
}

/// A handler of one type and one that takes all has the size -1, which is 7f in SLEB128.
#[test]
fn puts_code(rt: HostRuntime) -> Result<(), Fail> {
    let alloc = rt.alloc();
    let mut out = Bytes::new(alloc);
    put_code(&mut out, 3, &code(alloc)?)?;
    let head: [u8; 24] = [
        2, 0, 1, 0, 3, 0, 2, 0, 0, 0, 0, 0, 3, 0, 0, 0, 0, 0, 0, 0, 14, 0, 0, 0,
    ];
    let tries: [u8; 24] = [
        0, 0, 0, 0, 1, 0, 1, 0, 1, 0, 0, 0, 1, 0, 5, 0, 2, 0x7f, 5, 2, 2, 1, 5, 2,
    ];
    assert_eq!(rt; out.len(), 48);
    assert!(rt; out.as_slice().starts_with(&head));
    assert!(rt; out.as_slice().ends_with(&tries));
    Ok(())
}
