//! Worked values of numbers, texts and checksums.

use cc_meaning::fault::{LebFault, TextFault};
use cc_text::{adler32, mutf8, sleb, text, uleb};
use std::test::Fail;

/// A fault of a number by a letter, since faults are not compared: cut off, or too big.
fn letter(fault: LebFault) -> char {
    match fault {
        LebFault::CutOff => 'c',
        LebFault::TooBig => 't',
    }
}

/// A fault of a text by a letter and its place: cut off, a bad form, a bad count, or no memory.
fn letter_at(fault: TextFault) -> (char, usize) {
    match fault {
        TextFault::CutOff => ('c', 0),
        TextFault::BadForm { at } => ('f', at),
        TextFault::BadCount => ('n', 0),
        TextFault::Memory => ('m', 0),
    }
}

#[test]
fn reads_numbers(rt: HostRuntime) {
    for (bytes, want) in [
        (b"\xe5\x8e\x26".as_slice(), Ok((624485, 3))),
        (b"\x80\x00".as_slice(), Ok((0, 2))),
        (b"\x7f".as_slice(), Ok((127, 1))),
        (b"\x80\x7f".as_slice(), Ok((16256, 2))),
        (b"\xff\xff\xff\xff\x0f".as_slice(), Ok((4294967295, 5))),
        (b"\x80\x80\x80\x80\x10".as_slice(), Err('t')),
        (b"\x80\x80\x80\x80\x80".as_slice(), Err('t')),
        (b"\x80".as_slice(), Err('c')),
        (b"".as_slice(), Err('c')),
    ] {
        assert_eq!(rt; uleb(bytes, 0).map_err(letter), want, "of {bytes:?}");
    }
    assert_eq!(rt; uleb(b"\x05\xac\x02", 1).map_err(letter), Ok((300, 3)));
    assert_eq!(rt; uleb(b"\x05", 2).map_err(letter), Err('c'));
}

#[test]
fn reads_signed_numbers(rt: HostRuntime) {
    for (bytes, want) in [
        (b"\xc0\xbb\x78".as_slice(), Ok((-123456, 3))),
        (b"\x00".as_slice(), Ok((0, 1))),
        (b"\x01".as_slice(), Ok((1, 1))),
        (b"\x7f".as_slice(), Ok((-1, 1))),
        (b"\x80\x7f".as_slice(), Ok((-128, 2))),
        (b"\xff\xff\xff\xff\x07".as_slice(), Ok((2147483647, 5))),
        (b"\x80\x80\x80\x80\x78".as_slice(), Ok((-2147483648, 5))),
        (b"\x80\x80\x80\x80\x08".as_slice(), Err('t')),
        (b"\xff\xff\xff\xff\x77".as_slice(), Err('t')),
        (b"\xff".as_slice(), Err('c')),
    ] {
        assert_eq!(rt; sleb(bytes, 0).map_err(letter), want, "of {bytes:?}");
    }
}

#[test]
fn reads_texts(rt: HostRuntime) -> Result<(), Fail> {
    let bytes = b"\xc0\x80\x41\xed\xa0\xbd\xed\xb8\x80\x00";
    let (units, next) = mutf8(rt.alloc(), bytes, 0, 4)?;
    assert_eq!(rt; units.as_slice(), [0, 0x41, 0xd83d, 0xde00].as_slice());
    assert_eq!(rt; next, 10);
    let units = text(rt.alloc(), b"\x02\xc3\xa9!\x00", 0)?;
    assert_eq!(rt; units.as_slice(), [0xe9, 0x21].as_slice());
    Ok(())
}

#[test]
fn refuses_texts(rt: HostRuntime) {
    for (bytes, count, want) in [
        (
            b"\xc0\x80\x41\xed\xa0\xbd\xed\xb8\x80\x00".as_slice(),
            3,
            ('n', 0),
        ),
        (b"\xc1\x81\x00".as_slice(), 1, ('f', 0)),
        (b"\xf0\x9f\x98\x80\x00".as_slice(), 2, ('f', 0)),
        (b"\x41\xe0\x81\x81\x00".as_slice(), 2, ('f', 1)),
        (b"\x41\xc3\x41\x00".as_slice(), 2, ('f', 1)),
        (b"\x41\x80\x00".as_slice(), 9, ('f', 1)),
        (b"\x41\xc3".as_slice(), 2, ('c', 0)),
        (b"\xed\xa0".as_slice(), 1, ('c', 0)),
        (b"\xe0\x81".as_slice(), 1, ('f', 0)),
        (b"\x41".as_slice(), 9, ('c', 0)),
        (b"".as_slice(), 0, ('c', 0)),
    ] {
        assert_eq!(rt;
            mutf8(rt.alloc(), bytes, 0, count).err().map(letter_at),
            Some(want),
            "of {bytes:?}"
        );
    }
    assert_eq!(rt;
        text(rt.alloc(), b"\x02A\x00", 0).err().map(letter_at),
        Some(('n', 0))
    );
    assert_eq!(rt;
        text(rt.alloc(), b"\x80", 0).err().map(letter_at),
        Some(('c', 0))
    );
}

#[test]
fn sums(rt: HostRuntime) {
    assert_eq!(rt; adler32(b"Wikipedia"), 0x11e60398);
    assert_eq!(rt; adler32(b""), 1);
}
