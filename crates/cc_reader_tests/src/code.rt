//! Code items.

use crate::class_reading::{expect_fault, read, read_draft};
use crate::classes_sample::{
    ABSTRACT, CLASS_A, CLASS_B, INTS, METHOD_OF_C, NATIVE, OF_B, PLAIN, STATIC, TAKES_THREE,
    direct_method, sample, simple, static_field,
};
use crate::draft::Draft;
use crate::tried::{StatedTry, put_tried, tried};
use cc_meaning::file::{RawCatch, RawClasses};
use std::alloc::Global;
use std::process::Abort;
use std::test::Fail;

/// A code item's place of how many units it has (Dalvik Executable format, section code_item).
const UNIT_COUNT: u32 = 12;

/// Tries that the methods of class A have this code, without tries: registers, registers of arguments, and units.
fn expect_code(
    rt: &impl Abort,
    classes: &RawClasses,
    wanted: &[(u16, u16, &[u16])],
) -> Result<(), Fail> {
    let Some(class) = classes.get(CLASS_A) else {
        return Err("no class")?;
    };
    assert_eq!(rt; class.methods.len(), wanted.len());
    for (method, (registers, ins, units)) in class.methods.iter().zip(wanted) {
        let Some(code) = &method.code else {
            return Err("no code")?;
        };
        assert_eq!(rt; (code.registers, code.ins), (*registers, *ins));
        assert_eq!(rt; code.units.as_slice(), *units);
        assert!(rt; code.tries.is_empty());
    }
    Ok(())
}

#[test]
fn reads_code(rt: HostRuntime) -> Result<(), Fail> {
    let file = sample(rt.alloc())?;
    let classes = read(rt.alloc(), file.as_slice())?;
    let wanted: [(u16, u16, &[u16]); 2] = [
        (5, 0, &[0x000e]),
        (4, 4, &[0x1012, 0x00ff, 0xff00, 0x000e]),
    ];
    expect_code(&rt, &classes, &wanted)
}

/// Two methods may name one code item. Class C is made a second row of the type A, so that its method is one of A.
#[test]
fn reads_shared_code(rt: HostRuntime) -> Result<(), Fail> {
    let mut draft = Draft::new(rt.alloc())?;
    let shared = draft.put_code(&simple(rt.alloc(), 5, 0)?)?;
    let own = draft.put_code(&simple(rt.alloc(), 6, 4)?)?;
    let methods = [
        direct_method(PLAIN, STATIC, shared),
        direct_method(TAKES_THREE, 1, own),
        direct_method(METHOD_OF_C, STATIC, shared),
    ];
    draft.put_members(CLASS_A, &[], &methods)?;
    draft.unite_types();
    let classes = read_draft(draft)?;
    let wanted: [(u16, u16, &[u16]); 3] = [(5, 0, &[0x000e]), (6, 4, &[0x000e]), (5, 0, &[0x000e])];
    expect_code(&rt, &classes, &wanted)
}

#[test]
fn judges_arguments(rt: HostRuntime) -> Result<(), Fail> {
    let plain = "BadCode { method: 0 }";
    let three = "BadCode { method: 1 }";
    let cases = [
        (PLAIN, STATIC, 0, 0, ""),
        (PLAIN, STATIC, 5, 1, plain),
        (PLAIN, 0, 1, 1, ""),
        (PLAIN, 0, 0, 1, plain),
        (PLAIN, 0, 1, 0, plain),
        (TAKES_THREE, STATIC, 3, 3, ""),
        (TAKES_THREE, STATIC, 9, 2, three),
        (TAKES_THREE, STATIC, 9, 4, three),
        (TAKES_THREE, STATIC, 2, 3, three),
        (TAKES_THREE, 1, 4, 4, ""),
        (TAKES_THREE, 1, 4, 3, three),
        (TAKES_THREE, 1, 3, 4, three),
    ];
    for (row, flags, registers, ins, want) in cases {
        let mut draft = Draft::new(rt.alloc())?;
        let at = draft.put_code(&simple(rt.alloc(), registers, ins)?)?;
        draft.put_members(CLASS_A, &[], &[direct_method(row, flags, at)])?;
        expect_fault(&rt, draft, want)?;
    }
    Ok(())
}

#[test]
fn judges_whether_there_is_code(rt: HostRuntime) -> Result<(), Fail> {
    let none = "BadCode { method: 0 }";
    let cases = [
        (STATIC, true, ""),
        (STATIC, false, none),
        (STATIC + NATIVE, true, none),
        (STATIC + NATIVE, false, ""),
        (STATIC + ABSTRACT, true, none),
        (STATIC + ABSTRACT, false, ""),
        (STATIC + NATIVE + ABSTRACT, true, none),
        (STATIC + NATIVE + ABSTRACT, false, ""),
    ];
    for (flags, has_code, want) in cases {
        let mut draft = Draft::new(rt.alloc())?;
        let at = draft.put_code(&simple(rt.alloc(), 0, 0)?)?;
        let named = if has_code { at } else { 0 };
        draft.put_members(CLASS_A, &[], &[direct_method(PLAIN, flags, named)])?;
        expect_fault(&rt, draft, want)?;
    }
    Ok(())
}

#[test]
fn judges_where_code_ends(rt: HostRuntime) -> Result<(), Fail> {
    // Behind the unit stand the eight bytes of the class data, and then the file ends.
    for (count, want) in [
        (1, ""),
        (5, ""),
        (6, "BadCode { method: 0 }"),
        (u32::MAX, "BadCode { method: 0 }"),
    ] {
        let mut draft = Draft::new(rt.alloc())?;
        let at = draft.put_code(&simple(rt.alloc(), 0, 0)?)?;
        draft.set_number(at.saturating_add(UNIT_COUNT) as usize, count);
        let before = draft.end();
        draft.put_members(CLASS_A, &[], &[direct_method(PLAIN, STATIC, at)])?;
        assert_eq!(rt; draft.end().saturating_sub(before), 8);
        expect_fault(&rt, draft, want)?;
    }
    Ok(())
}

#[test]
fn judges_where_code_stands(rt: HostRuntime) -> Result<(), Fail> {
    for offset in [100_000, u32::MAX] {
        let mut draft = Draft::new(rt.alloc())?;
        let methods = [direct_method(PLAIN, STATIC, offset)];
        draft.put_members(CLASS_A, &[], &methods)?;
        expect_fault(&rt, draft, "BadCode { method: 0 }")?;
    }
    Ok(())
}

/// A handler that takes all.
const TAKES_ALL: [RawCatch; 1] = [RawCatch { row: None, at: 0 }];

/// A try whose handler begins nowhere.
const BAD_TRY: [StatedTry; 1] = [StatedTry {
    start: 0,
    count: 1,
    handler: 9,
}];

/// Puts code that takes so many registers for arguments, with a bad try or with none, and answers where it stands.
fn put_code_by(draft: &mut Draft, ins: u16, has_bad_try: bool) -> Result<u32, Fail> {
    let alloc = draft.alloc();
    let at = if has_bad_try {
        let code = tried(alloc, ins, &[0x000e], &[&TAKES_ALL])?;
        put_tried(draft, &code, &BAD_TRY)?
    } else {
        draft.put_code(&simple(alloc, 0, ins)?)?
    };
    Ok(at)
}

/// The file with a static field in class A, of its own or of another class, with a wrong value, and with two methods: of each, how many registers its
/// arguments take, where none is right, and whether it has a bad try. The class behind has class data nowhere, and class C's method is one of A.
fn with_faults(
    alloc: Global,
    first: (u16, bool),
    second: (u16, bool),
    field: u32,
) -> Result<Draft, Fail> {
    let mut draft = Draft::new(alloc)?;
    let one = put_code_by(&mut draft, first.0, first.1)?;
    let two = put_code_by(&mut draft, second.0, second.1)?;
    let fields = [static_field(field, STATIC)];
    let methods = [
        direct_method(PLAIN, STATIC, one),
        direct_method(METHOD_OF_C, STATIC, two),
    ];
    draft.put_members(CLASS_A, &fields, &methods)?;
    // An array of one value, which is false: no int is.
    let values = draft.put(&[1, 0x1f])?;
    draft.set_values(CLASS_A, values);
    draft.set_members(CLASS_B, u32::MAX);
    draft.unite_types();
    Ok(draft)
}

#[test]
fn judges_in_order(rt: HostRuntime) -> Result<(), Fail> {
    let cases = [
        ((0, true), (1, true), OF_B, "BadClassData { class: 0 }"),
        ((0, true), (1, false), INTS, "BadCode { method: 3 }"),
        ((1, true), (1, true), INTS, "BadCode { method: 0 }"),
        ((0, false), (0, true), INTS, "BadTry { method: 3 }"),
        ((0, true), (0, true), INTS, "BadTry { method: 0 }"),
        ((0, false), (0, false), INTS, "BadValue { class: 0 }"),
    ];
    for (first, second, field, want) in cases {
        let draft = with_faults(rt.alloc(), first, second, field)?;
        expect_fault(&rt, draft, want)?;
    }
    Ok(())
}
