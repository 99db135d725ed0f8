//! Class data.

use crate::class_reading::{expect_fault, read, read_draft};
use crate::classes_sample::{
    ABSTRACT, ARRAYS, BOOLEANS, BYTES, CHARS, CLASS_A, CLASS_B, CLASS_C, CLASS_D, FIELDS, FLOATS,
    INTS, LONGS, METHOD_OF_B, METHOD_OF_C, METHODS, OBJECTS, OF_B, OF_C, PLAIN, PUBLIC, SHORTS,
    STATIC, STRINGS, TAKES_THREE, direct_method, instance_field, sample, static_field,
    virtual_method,
};
use crate::draft::Draft;
use cc_builder::DexBuilder;
use cc_items::put_uleb;
use cc_list::List;
use cc_meaning::file::{RawClass, RawField};
use cc_meaning::lists::Bytes;
use cc_meaning_dex::StatedMethod;
use std::alloc::Global;
use std::process::Abort;
use std::test::Fail;

/// No class data of these bytes, as it is judged.
const BAD: &str = "BadClassData { class: 0 }";

/// The file with other fields in class A, and without methods there.
fn with_fields(alloc: Global, fields: &[RawField]) -> Result<Draft, Fail> {
    let mut draft = Draft::new(alloc)?;
    draft.put_members(CLASS_A, fields, &[])?;
    Ok(draft)
}

/// The file with other methods in class A, and without fields there.
fn with_methods(alloc: Global, methods: &[StatedMethod]) -> Result<Draft, Fail> {
    let mut draft = Draft::new(alloc)?;
    draft.put_members(CLASS_A, &[], methods)?;
    Ok(draft)
}

/// The file with these bytes as the class data of class A.
fn with_bytes(alloc: Global, bytes: &[u8]) -> Result<Draft, Fail> {
    let mut draft = Draft::new(alloc)?;
    let at = draft.put(bytes)?;
    draft.set_members(CLASS_A, at);
    Ok(draft)
}

#[test]
fn reads_no_classes(rt: HostRuntime) -> Result<(), Fail> {
    let alloc = rt.alloc();
    let file = DexBuilder::new(alloc)?.finish()?;
    let none = read(alloc, file.as_slice())?;
    assert!(rt; none.is_empty());
    Ok(())
}

/// Tries that a class has no members.
fn expect_nothing(rt: &impl Abort, class: &RawClass) {
    assert!(rt; class.fields.is_empty());
    assert!(rt; class.methods.is_empty());
    assert!(rt; class.values.is_empty());
}

#[test]
fn reads_classes_without_members(rt: HostRuntime) -> Result<(), Fail> {
    let mut draft = Draft::new(rt.alloc())?;
    draft.put_members(CLASS_C, &[], &[])?;
    let classes = read_draft(draft)?;
    assert_eq!(rt; classes.len(), 4);
    for class in classes.iter().skip(2) {
        expect_nothing(&rt, class);
    }
    Ok(())
}

/// Tries that a class has these fields: their rows, their flags, and whether they are static.
fn expect_fields(
    rt: &impl Abort,
    class: Option<&RawClass>,
    wanted: &[(u32, u32, bool)],
) -> Result<(), Fail> {
    let Some(class) = class else {
        return Err("no class")?;
    };
    assert_eq!(rt; class.fields.len(), wanted.len());
    for (field, wanted) in class.fields.iter().zip(wanted) {
        assert_eq!(rt; (field.row, field.flags, field.is_static), *wanted);
    }
    Ok(())
}

#[test]
fn reads_fields(rt: HostRuntime) -> Result<(), Fail> {
    let file = sample(rt.alloc())?;
    let classes = read(rt.alloc(), file.as_slice())?;
    let wanted = [
        (BYTES, STATIC, true),
        (CHARS, STATIC, true),
        (INTS, 0x19, true),
        (OBJECTS, STATIC, true),
        (STRINGS, 0x3_0008, true),
        (SHORTS, STATIC, true),
        (BOOLEANS, STATIC, true),
        (ARRAYS, STATIC, true),
        (FLOATS, 4, false),
        (LONGS, 2, false),
    ];
    expect_fields(&rt, classes.get(CLASS_A), &wanted)?;
    expect_fields(&rt, classes.get(CLASS_B), &[(OF_B, 0, false)])
}

/// A row of fields twice, and a static flag in the list of the instances' fields. Class C is made a second row of the type A, so that its field is one of A.
#[test]
fn reads_stated_fields(rt: HostRuntime) -> Result<(), Fail> {
    let fields = [
        static_field(INTS, 0x19),
        static_field(STRINGS, 0x3_0008),
        instance_field(LONGS, 2),
        instance_field(LONGS, 4),
        instance_field(OF_C, STATIC),
    ];
    let mut draft = with_fields(rt.alloc(), &fields)?;
    draft.unite_types();
    let classes = read_draft(draft)?;
    let wanted = [
        (INTS, 0x19, true),
        (STRINGS, 0x3_0008, true),
        (LONGS, 2, false),
        (LONGS, 4, false),
        (OF_C, STATIC, false),
    ];
    expect_fields(&rt, classes.get(CLASS_A), &wanted)
}

/// Tries that a class has these methods, without code: their rows, their flags, and whether they are direct.
fn expect_methods(
    rt: &impl Abort,
    class: Option<&RawClass>,
    wanted: &[(u32, u32, bool)],
) -> Result<(), Fail> {
    let Some(class) = class else {
        return Err("no class")?;
    };
    assert_eq!(rt; class.methods.len(), wanted.len());
    for (method, wanted) in class.methods.iter().zip(wanted) {
        assert_eq!(rt; (method.row, method.flags, method.is_direct), *wanted);
        assert!(rt; method.code.is_none());
    }
    Ok(())
}

#[test]
fn reads_methods_without_code(rt: HostRuntime) -> Result<(), Fail> {
    let methods = [
        direct_method(METHOD_OF_C, 0x101, 0),
        virtual_method(PLAIN, ABSTRACT),
        virtual_method(TAKES_THREE, 0x500),
    ];
    let mut draft = with_methods(rt.alloc(), &methods)?;
    draft.unite_types();
    let classes = read_draft(draft)?;
    let wanted = [
        (METHOD_OF_C, 0x101, true),
        (PLAIN, ABSTRACT, false),
        (TAKES_THREE, 0x500, false),
    ];
    expect_methods(&rt, classes.get(CLASS_A), &wanted)?;
    expect_methods(&rt, classes.get(CLASS_B), &[(METHOD_OF_B, ABSTRACT, false)])
}

#[test]
fn judges_rows_of_fields(rt: HostRuntime) -> Result<(), Fail> {
    for (row, want) in [(OF_C, ""), (OF_B, BAD), (FIELDS, BAD), (u32::MAX, BAD)] {
        for field in [static_field(row, 0), instance_field(row, 0)] {
            let mut draft = with_fields(rt.alloc(), &[field])?;
            draft.unite_types();
            expect_fault(&rt, draft, want)?;
        }
    }
    Ok(())
}

#[test]
fn judges_rows_of_methods(rt: HostRuntime) -> Result<(), Fail> {
    for (row, want) in [
        (METHOD_OF_C, ""),
        (METHOD_OF_B, BAD),
        (METHODS, BAD),
        (u32::MAX, BAD),
    ] {
        let mut draft = with_methods(rt.alloc(), &[virtual_method(row, ABSTRACT)])?;
        draft.unite_types();
        expect_fault(&rt, draft, want)?;
    }
    Ok(())
}

/// Class data of two static fields, the second of which lies so many rows behind the first, which lies one behind row 0.
fn two_fields(alloc: Global, step: u32) -> Result<Bytes, Fail> {
    let mut bytes = List::new(alloc);
    for number in [2, 0, 0, 0, 1, 0, step, 0] {
        put_uleb(&mut bytes, number)?;
    }
    Ok(bytes)
}

#[test]
fn judges_differences(rt: HostRuntime) -> Result<(), Fail> {
    let alloc = rt.alloc();
    for (step, want) in [(LONGS, ""), (FIELDS - 1, BAD), (u32::MAX, BAD)] {
        let bytes = two_fields(alloc, step)?;
        let draft = with_bytes(alloc, bytes.as_slice())?;
        expect_fault(&rt, draft, want)?;
    }
    Ok(())
}

/// The bytes are four counts, and then a row's difference and flags for each field, all in ULEB128.
#[test]
fn judges_bytes(rt: HostRuntime) -> Result<(), Fail> {
    let cases: [(&[u8], &str); 8] = [
        (&[0, 0, 0, 0], ""),
        (&[0x80, 0, 0, 0, 0], ""),
        (&[0, 0, 0], BAD),
        (&[1, 0, 0, 0, 4], BAD),
        (&[1, 0, 0, 0, 4, 0x80], BAD),
        (&[0xff, 0xff, 0xff, 0xff, 0x0f, 0, 0, 0], BAD),
        (&[0x80, 0x80, 0x80, 0x80, 0x10, 0, 0, 0], BAD),
        (&[0, 0, 0, 0x80, 0x80, 0x80, 0x80, 0x80, 0], BAD),
    ];
    for (bytes, want) in cases {
        let draft = with_bytes(rt.alloc(), bytes)?;
        expect_fault(&rt, draft, want)?;
    }
    Ok(())
}

#[test]
fn judges_where_class_data_stands(rt: HostRuntime) -> Result<(), Fail> {
    for offset in [100_000, u32::MAX] {
        let mut draft = Draft::new(rt.alloc())?;
        draft.set_members(CLASS_A, offset);
        expect_fault(&rt, draft, BAD)?;
    }
    Ok(())
}

/// A field of class B in classes C and D, which it isn't a field of, as it is of B.
#[test]
fn names_the_first_class(rt: HostRuntime) -> Result<(), Fail> {
    let field = [instance_field(OF_B, PUBLIC)];
    let mut good = Draft::new(rt.alloc())?;
    good.put_members(CLASS_B, &field, &[])?;
    expect_fault(&rt, good, "")?;
    let mut bad = Draft::new(rt.alloc())?;
    bad.put_members(CLASS_D, &field, &[])?;
    bad.put_members(CLASS_C, &field, &[])?;
    expect_fault(&rt, bad, "BadClassData { class: 2 }")
}
