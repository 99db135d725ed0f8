//! Static values. Each is written in a byte, whose low five bits are its type and whose high three an argument, and in the bytes of a number, the lowest
//! first, of which there are one more than the argument says. A null and a boolean have no number (Dalvik Executable format, section encoded_value encoding).

use crate::class_reading::{expect_fault, read, read_draft};
use crate::classes_sample::{
    ARRAYS, BOOLEANS, BYTES, CHARS, CLASS_A, FLOATS, INTS, LONGS, NAME, OBJECTS, SHORTS, STATIC,
    STRINGS, TEXTS, instance_field, sample, static_field,
};
use crate::draft::Draft;
use cc_meaning::file::{RawClasses, RawField};
use cc_meaning::program::StaticValue;
use std::alloc::Global;
use std::process::Abort;
use std::test::Fail;

/// The types of values.
const BYTE: u8 = 0x00;

const SHORT: u8 = 0x02;

const CHAR: u8 = 0x03;

const INT: u8 = 0x04;

const LONG: u8 = 0x06;

const NULL: u8 = 0x1e;

const BOOLEAN: u8 = 0x1f;

/// No values of their fields, as they are judged.
const BAD: &str = "BadValue { class: 0 }";

/// The file with these fields in class A, and these bytes as the items of the array of its values, of which there are so many.
fn with_values(alloc: Global, fields: &[RawField], count: u8, items: &[u8]) -> Result<Draft, Fail> {
    let mut draft = Draft::new(alloc)?;
    draft.put_members(CLASS_A, fields, &[])?;
    let at = draft.put(&[count])?;
    draft.put(items)?;
    draft.set_values(CLASS_A, at);
    Ok(draft)
}

/// The file with a static field of this row alone in class A, and this as its value.
fn with_value(alloc: Global, row: u32, written: &[u8]) -> Result<Draft, Fail> {
    with_values(alloc, &[static_field(row, STATIC)], 1, written)
}

/// Whether two values are the same.
fn is_same(this: StaticValue, that: StaticValue) -> bool {
    match (this, that) {
        (StaticValue::Int(a), StaticValue::Int(b)) => a == b,
        (StaticValue::Long(a), StaticValue::Long(b)) => a == b,
        (StaticValue::Text(a), StaticValue::Text(b)) => a == b,
        (StaticValue::Null, StaticValue::Null) => true,
        _ => false,
    }
}

/// Tries that class A has these values.
fn expect_values(
    rt: &impl Abort,
    classes: &RawClasses,
    wanted: &[StaticValue],
) -> Result<(), Fail> {
    let Some(class) = classes.get(CLASS_A) else {
        return Err("no class")?;
    };
    assert_eq!(rt; class.values.len(), wanted.len());
    for (value, want) in class.values.iter().zip(wanted) {
        assert!(rt; is_same(*value, *want));
    }
    Ok(())
}

/// The values that the builder was given, in the order of their fields' rows. The field behind the last of them has none.
#[test]
fn reads_built_values(rt: HostRuntime) -> Result<(), Fail> {
    let file = sample(rt.alloc())?;
    let classes = read(rt.alloc(), file.as_slice())?;
    let wanted = [
        StaticValue::Int(-128),
        StaticValue::Int(65535),
        StaticValue::Int(i32::MIN),
        StaticValue::Null,
        StaticValue::Text(NAME),
        StaticValue::Int(-257),
        StaticValue::Int(1),
    ];
    expect_values(&rt, &classes, &wanted)
}

#[test]
fn reads_ints(rt: HostRuntime) -> Result<(), Fail> {
    let cases: [(u32, &[u8], i32); 18] = [
        (BOOLEANS, &[0x1f], 0),
        (BOOLEANS, &[0x3f], 1),
        (BYTES, &[0x00, 0x80], -128),
        (BYTES, &[0x00, 0x7f], 127),
        (SHORTS, &[0x02, 0xff], -1),
        (SHORTS, &[0x22, 0x34, 0x92], -28108),
        (SHORTS, &[0x22, 0xff, 0xfe], -257),
        (CHARS, &[0x03, 0x80], 128),
        (CHARS, &[0x03, 0xff], 255),
        (CHARS, &[0x23, 0xff, 0xff], 65535),
        (CHARS, &[0x23, 0x34, 0x92], 37428),
        (INTS, &[0x04, 0x9c], -100),
        (INTS, &[0x04, 0x7f], 127),
        (INTS, &[0x24, 0xff, 0xfe], -257),
        (INTS, &[0x44, 1, 2, 3], 197_121),
        (INTS, &[0x44, 0, 0, 0x80], -8_388_608),
        (INTS, &[0x64, 0, 0, 0, 0x80], i32::MIN),
        (INTS, &[0x64, 0xff, 0xff, 0xff, 0x7f], i32::MAX),
    ];
    for (row, written, want) in cases {
        let classes = read_draft(with_value(rt.alloc(), row, written)?)?;
        expect_values(&rt, &classes, &[StaticValue::Int(want)])?;
    }
    Ok(())
}

#[test]
fn reads_longs(rt: HostRuntime) -> Result<(), Fail> {
    let cases: [(&[u8], i64); 4] = [
        (&[0x06, 0xff], -1),
        (&[0x86, 1, 2, 3, 4, 0x85], -528_213_671_423),
        (&[0xe6, 0, 0, 0, 0, 0, 0, 0, 0x80], i64::MIN),
        (&[0x26, 0x34, 0x12], 0x1234),
    ];
    for (written, want) in cases {
        let classes = read_draft(with_value(rt.alloc(), LONGS, written)?)?;
        expect_values(&rt, &classes, &[StaticValue::Long(want)])?;
    }
    Ok(())
}

#[test]
fn reads_references(rt: HostRuntime) -> Result<(), Fail> {
    let cases: [(u32, &[u8], StaticValue); 5] = [
        (STRINGS, &[0x17, 12], StaticValue::Text(12)),
        (STRINGS, &[0x77, 3, 0, 0, 0], StaticValue::Text(3)),
        (STRINGS, &[0x1e], StaticValue::Null),
        (OBJECTS, &[0x1e], StaticValue::Null),
        (ARRAYS, &[0x1e], StaticValue::Null),
    ];
    for (row, written, want) in cases {
        let classes = read_draft(with_value(rt.alloc(), row, written)?)?;
        expect_values(&rt, &classes, &[want])?;
    }
    Ok(())
}

/// The type of a value that a field takes, of all with argument 0. A field of floating point takes none.
#[test]
fn judges_kinds(rt: HostRuntime) -> Result<(), Fail> {
    let taken = [
        (BOOLEANS, BOOLEAN),
        (BYTES, BYTE),
        (SHORTS, SHORT),
        (CHARS, CHAR),
        (INTS, INT),
        (LONGS, LONG),
        (OBJECTS, NULL),
        (ARRAYS, NULL),
        (FLOATS, 0x20),
    ];
    for (row, accepted) in taken {
        for form in 0..32 {
            let want = if form == accepted { "" } else { BAD };
            let bytes = [form, 0];
            let size = if form == NULL || form == BOOLEAN {
                1
            } else {
                2
            };
            let written = &bytes[..size];
            expect_fault(&rt, with_value(rt.alloc(), row, written)?, want)?;
        }
    }
    Ok(())
}

#[test]
fn judges_values(rt: HostRuntime) -> Result<(), Fail> {
    let cases: [(u32, &[u8], &str); 14] = [
        (BOOLEANS, &[0x5f], BAD),
        (BYTES, &[0x20, 0, 0], BAD),
        (SHORTS, &[0x42, 0, 0, 0], BAD),
        (CHARS, &[0x43, 0, 0, 0], BAD),
        (INTS, &[0x84, 0, 0, 0, 0, 0], BAD),
        (INTS, &[0x06, 0], BAD),
        (LONGS, &[0x04, 0], BAD),
        (STRINGS, &[0x97, 0, 0, 0, 0, 0], BAD),
        (STRINGS, &[0x17, TEXTS as u8 - 1], ""),
        (STRINGS, &[0x17, TEXTS as u8], BAD),
        (STRINGS, &[0x3e], BAD),
        (OBJECTS, &[0x3e], BAD),
        (OBJECTS, &[0x17, 0], BAD),
        (FLOATS, &[0x70, 0, 0, 0, 0], BAD),
    ];
    for (row, written, want) in cases {
        expect_fault(&rt, with_value(rt.alloc(), row, written)?, want)?;
    }
    Ok(())
}

/// There are two static fields, and two of instances, which take no values.
#[test]
fn judges_how_many(rt: HostRuntime) -> Result<(), Fail> {
    let fields = [
        static_field(INTS, STATIC),
        static_field(INTS, STATIC),
        instance_field(INTS, 0),
        instance_field(INTS, 0),
    ];
    let cases: [(u8, &[u8], &str); 4] = [
        (0, &[], ""),
        (1, &[0x04, 1], ""),
        (2, &[0x04, 1, 0x04, 1], ""),
        (3, &[0x04, 1, 0x04, 1, 0x04, 1], BAD),
    ];
    for (count, items, want) in cases {
        let draft = with_values(rt.alloc(), &fields, count, items)?;
        expect_fault(&rt, draft, want)?;
    }
    Ok(())
}
