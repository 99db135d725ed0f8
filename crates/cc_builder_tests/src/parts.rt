//! Numbers, texts and lists of types.

use cc_items::{put_text, put_types, put_u16, put_u32, put_uleb};
use cc_meaning::lists::Bytes;
use std::test::Fail;

/// The last two numbers in ULEB128 are those of the table in the Dalvik Executable format, section LEB128, and the largest of 32 bits.
#[test]
fn puts_numbers(rt: HostRuntime) -> Result<(), Fail> {
    let mut out = Bytes::new(rt.alloc());
    put_u16(&mut out, 0x1234)?;
    put_u32(&mut out, 0x12345678)?;
    put_uleb(&mut out, 0)?;
    put_uleb(&mut out, 127)?;
    put_uleb(&mut out, 128)?;
    put_uleb(&mut out, 16256)?;
    put_uleb(&mut out, u32::MAX)?;
    let want: [u8; 17] = [
        0x34, 0x12, 0x78, 0x56, 0x34, 0x12, 0x00, 0x7f, 0x80, 0x01, 0x80, 0x7f, 0xff, 0xff, 0xff,
        0xff, 0x0f,
    ];
    assert!(rt; out.as_slice() == &want[..]);
    Ok(())
}

/// The bytes are those of UTF-8, as Python's `'aé€'.encode()` gives them, with the form of two bytes for 0.
#[test]
fn puts_a_text(rt: HostRuntime) -> Result<(), Fail> {
    let mut out = Bytes::new(rt.alloc());
    put_text(&mut out, &[0x61, 0, 0xe9, 0x20ac])?;
    let want: [u8; 10] = [4, 0x61, 0xc0, 0x80, 0xc3, 0xa9, 0xe2, 0x82, 0xac, 0];
    assert!(rt; out.as_slice() == &want[..]);
    Ok(())
}

#[test]
fn puts_types(rt: HostRuntime) -> Result<(), Fail> {
    let mut out = Bytes::new(rt.alloc());
    put_types(&mut out, &[1, 0x203])?;
    let want: [u8; 8] = [2, 0, 0, 0, 1, 0, 3, 2];
    assert!(rt; out.as_slice() == &want[..]);
    Ok(())
}
