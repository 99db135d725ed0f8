//! Images of a function's entry and end, to the byte.

ghost use Rattle.std.specs.Prelude.{◌<◌, ◌^◌, length};

use crate::clone_sample::{ADDS_ONE, RUN};
use cc_meaning::fault::ImageFault;
use cc_meaning::value::Value;
use cc_plain::read_plain;
use cc_wire::{decode_run, encode_run, function_numbered, method_number};
use std::alloc::Global;
use std::process::Abort;
use std::test::Fail;

/// The bytes of a frame before its payload.
const HEAD: usize = 25;

#[test]
fn an_entry_is_read_and_written(rt: HostRuntime) -> Result<(), Fail> {
    let Some(plain) = read_plain(rt.alloc(), &ADDS_ONE)? else {
        assert!(rt; false);
        return Ok(());
    };
    let Ok(image) = decode_run(rt.alloc(), &RUN[HEAD..], &plain) else {
        assert!(rt; false);
        return Ok(());
    };
    assert_eq!(rt; image.method, 0);
    assert_eq!(rt; image.instructions, 98);
    assert_eq!(rt; image.words, 98);
    assert!(rt; matches!(image.args.as_slice(), [Value::Int(5)]));
    let bytes = encode_run(rt.alloc(), &image)?;
    assert_eq!(rt; bytes.as_slice(), &RUN[HEAD..]);
    Ok(())
}

#[test]
fn a_function_has_the_number_that_its_run_names(rt: HostRuntime) -> Result<(), Fail> {
    let Some(plain) = read_plain(rt.alloc(), &ADDS_ONE)? else {
        assert!(rt; false);
        return Ok(());
    };
    let number = method_number(&plain, 0);
    assert_eq!(rt; number.to_be_bytes().as_slice(), &RUN[HEAD..HEAD + 4]);
    assert!(rt; function_numbered(&plain, number).is_some());
    Ok(())
}

/// A letter for a fault of a Run's bytes, and where it is.
fn fault_of(rt: &impl Abort, bytes: &[u8], alloc: Global) -> Result<(char, u32), Fail>
    requires { length bytes.now < 2 ^ 32 }
{
    let Some(plain) = read_plain(alloc, &ADDS_ONE)? else {
        assert!(rt; false);
        return Ok(('?', 0));
    };
    Ok(match decode_run(alloc, bytes, &plain) {
        Ok(_) => ('-', 0),
        Err(ImageFault::CutOff) => ('c', 0),
        Err(ImageFault::Trailing) => ('t', 0),
        Err(ImageFault::BadKind { at }) => ('k', at),
        Err(ImageFault::BadCounter) => ('n', 0),
        Err(_) => ('?', 0),
    })
}

/// What the bytes of the entry get with one byte changed.
fn changed(rt: &impl Abort, at: usize, to: u8, alloc: Global) -> Result<(char, u32), Fail> {
    let mut bytes = [0u8; 36];
    bytes.copy_from_slice(&RUN[HEAD..]);
    if let Some(byte) = bytes.get_mut(at) {
        *byte = to;
    }
    fault_of(rt, &bytes, alloc)
}

#[test]
fn false_entries_have_their_faults(rt: HostRuntime) -> Result<(), Fail> {
    let alloc = rt.alloc();
    let mut longer = [0u8; 37];
    longer[..36].copy_from_slice(&RUN[HEAD..]);
    assert!(rt; fault_of(&rt, &RUN[HEAD..RUN.len() - 1], alloc)? == ('c', 0));
    assert!(rt; fault_of(&rt, &longer, alloc)? == ('t', 0));
    assert!(rt; changed(&rt, 3, 1, alloc)? == ('k', 0));
    assert!(rt; changed(&rt, 22, 4, alloc)? == ('k', 22));
    assert!(rt; changed(&rt, 30, 1, alloc)? == ('k', 27));
    assert!(rt; changed(&rt, 35, 1, alloc)? == ('k', 35));
    assert!(rt; changed(&rt, 13, 64, alloc)? == ('n', 0));
    assert!(rt; changed(&rt, 17, 0, alloc)? == ('n', 0));
    Ok(())
}
