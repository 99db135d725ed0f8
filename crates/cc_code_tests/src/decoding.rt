//! Decoding, against what another program tells, and at the ends.

use crate::opcodes::{UNITS, WANTED};
use crate::shown::{Shown, args_of, show};
use cc_insn::decode;
use std::test::Fail;

const CUT: Shown = ("CutOff", "", [0; 4], 0);

const BAD: Shown = ("BadPayload", "", [0; 4], 0);

const UNUSED: Shown = ("Unused", "", [0; 4], 0);

const FLOAT: Shown = ("Float", "", [0; 4], 0);

/// The units of a payload, and what they give.
const PAYLOADS: [(&[u16], Shown); 19] = [
    (
        &[0x0100, 2, 5, 0, 7, 0, 0xfffe, 0xffff],
        ("PackedPayload", "", [5, 2, 7, -2], 8),
    ),
    (
        &[0x0100, 0, 0xffff, 0xffff],
        ("PackedPayload", "", [-1, 0, 0, 0], 4),
    ),
    (&[0x0100, 2, 5, 0, 7, 0, 0xfffe], CUT),
    (&[0x0100], CUT),
    (&[0x0100, 0xffff, 0, 0], CUT),
    (
        &[0x0200, 2, 0xffff, 0xffff, 3, 0, 6, 0, 0xfffa, 0xffff],
        ("SparsePayload", "", [2, -1, -6, 0], 10),
    ),
    (&[0x0200, 0], ("SparsePayload", "", [0; 4], 2)),
    (&[0x0200, 1, 0, 0, 0], CUT),
    (&[0x0200], CUT),
    (
        &[0x0300, 1, 3, 0, 0x0201, 0xff03],
        ("ArrayPayload", "", [1, 3, 1, 3], 6),
    ),
    (
        &[0x0300, 4, 1, 0, 0x0201, 0x0403],
        ("ArrayPayload", "", [4, 4, 1, 4], 6),
    ),
    (&[0x0300, 8, 0, 0], ("ArrayPayload", "", [8, 0, 0, 0], 4)),
    (&[0x0300, 1, 3, 0, 0x0201], CUT),
    (&[0x0300, 3, 0, 0], BAD),
    (&[0x0300, 0, 0, 0], BAD),
    (&[0x0300, 3, 1, 0, 0, 0], BAD),
    (&[0x0300, 3, 1, 0, 0], CUT),
    (&[0x0300, 0xffff, 0xffff, 0xffff], CUT),
    (&[0x0300, 1, 0xffff, 0xffff, 0], CUT),
];

/// Units, a place in them, and what they give there.
const PLACES: [(&[u16], usize, Shown); 12] = [
    (&[0x0028], 0, ("Goto", "", [0; 4], 1)),
    (&[0x0014, 0x0001], 0, CUT),
    (&[0x003e], 0, UNUSED),
    (&[0x00a6, 0x0000], 0, FLOAT),
    (&[0x00a6], 0, FLOAT),
    (&[0x0000, 0xff28], 1, ("Goto", "", [-1, 0, 0, 0], 1)),
    (&[0x0000], 1, CUT),
    (&[0x0000], 2, CUT),
    (&[0x606e], 0, UNUSED),
    (&[0x506e], 0, CUT),
    (&[0x0400], 0, ("Nop", "", [0; 4], 1)),
    (&[0xff00], 0, ("Nop", "", [0; 4], 1)),
];

/// The units of an instruction with a list of arguments, and the arguments.
const ARGUMENTS: [(&[u16], &[u16]); 3] = [
    (&[0x5e24, 0x0007, 0xdcba], &[10, 11, 12, 13, 14]),
    (&[0x3e6e, 0x0007, 0xdcba], &[10, 11, 12]),
    (&[0x0374, 0x0007, 0xffff], &[65535, 0, 1]),
];

#[test]
fn decodes_each_opcode(rt: HostRuntime) {
    for (units, want) in UNITS.iter().zip(WANTED.iter()) {
        let found = decode(rt.alloc(), units.as_slice(), 0);
        assert_eq!(rt; show(&found), *want, "of {units:?}");
    }
}

#[test]
fn cuts_each_opcode_off(rt: HostRuntime) {
    for (units, want) in UNITS.iter().zip(WANTED.iter()) {
        let units = units.as_slice();
        if want.3 > 0 && want.3 <= units.len() {
            let fewer = &units[..want.3 - 1];
            let found = decode(rt.alloc(), fewer, 0);
            assert_eq!(rt; show(&found), CUT, "of {fewer:?}");
        }
    }
}

#[test]
fn decodes_payloads(rt: HostRuntime) {
    for (units, want) in PAYLOADS.iter() {
        let found = decode(rt.alloc(), units, 0);
        assert_eq!(rt; show(&found), *want, "of {units:?}");
    }
}

#[test]
fn decodes_at_a_place(rt: HostRuntime) {
    for (units, at, want) in PLACES.iter() {
        let found = decode(rt.alloc(), units, *at);
        assert_eq!(rt; show(&found), *want, "of {units:?} at {at}");
    }
}

#[test]
fn names_arguments_in_order(rt: HostRuntime) -> Result<(), Fail> {
    for (units, want) in ARGUMENTS.iter() {
        let (insn, _) = decode(rt.alloc(), units, 0)?;
        assert_eq!(rt; args_of(&insn), *want, "of {units:?}");
    }
    Ok(())
}
