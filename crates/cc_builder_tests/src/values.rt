//! Static values.

use cc_items::put_values;
use cc_list::List;
use cc_meaning::fault::Memory;
use cc_meaning::file::{FieldRow, Ids, RawField, RawFields};
use cc_meaning::lists::{Bytes, Texts};
use cc_meaning::program::StaticValue;
use std::alloc::Global;
use std::test::Fail;

/// Descriptors: `Z`, `B`, `S`, `C`, `I`, `J` and `[I`.
const KINDS: [&[u16]; 7] = [&[90], &[66], &[83], &[67], &[73], &[74], &[91, 73]];

const STRING: [u16; 18] = [
    76, 106, 97, 118, 97, 47, 108, 97, 110, 103, 47, 83, 116, 114, 105, 110, 103, 59,
];

fn descriptors(alloc: Global) -> Result<Texts, Memory> {
    let mut texts = List::new(alloc);
    for kind in &KINDS {
        texts.push(List::from_slice(alloc, kind)?)?;
    }
    texts.push(List::from_slice(alloc, &STRING)?)?;
    Ok(texts)
}

/// A field of each type.
fn tables(alloc: Global) -> Result<Ids, Memory> {
    let mut fields = List::new(alloc);
    for kind in 0..8 {
        fields.push(FieldRow {
            class: 0,
            kind,
            name: 0,
        })?;
    }
    Ok(Ids {
        texts: descriptors(alloc)?,
        types: List::from_slice(alloc, &[0, 1, 2, 3, 4, 5, 6, 7])?,
        protos: List::new(alloc),
        fields,
        methods: List::new(alloc),
        classes: List::new(alloc),
    })
}

fn fields(alloc: Global) -> Result<RawFields, Memory> {
    let mut fields = List::new(alloc);
    for row in 0..8 {
        fields.push(RawField {
            row,
            flags: 8,
            is_static: true,
        })?;
    }
    Ok(fields)
}

const VALUES: [StaticValue; 8] = [
    StaticValue::Int(1),
    StaticValue::Int(-1),
    StaticValue::Int(-2),
    StaticValue::Int(0xfffe),
    StaticValue::Int(258),
    StaticValue::Long(-2),
    StaticValue::Null,
    StaticValue::Text(7),
];

#[test]
fn puts_values(rt: HostRuntime) -> Result<(), Fail> {
    let alloc = rt.alloc();
    let mut out = Bytes::new(alloc);
    let values = List::from_slice(alloc, &VALUES)?;
    put_values(&mut out, &tables(alloc)?, &fields(alloc)?, &values)?;
    let want: [u8; 30] = [
        8, 0x3f, 0x00, 0xff, 0x22, 0xfe, 0xff, 0x23, 0xfe, 0xff, 0x64, 2, 1, 0, 0, 0xe6, 0xfe,
        0xff, 0xff, 0xff, 0xff, 0xff, 0xff, 0xff, 0x1e, 0x77, 7, 0, 0, 0,
    ];
    assert!(rt; out.as_slice() == &want[..]);
    Ok(())
}

/// An int that no byte holds is put as an int, whatever the field's type.
#[test]
fn puts_a_value_of_another_kind(rt: HostRuntime) -> Result<(), Fail> {
    let alloc = rt.alloc();
    let mut out = Bytes::new(alloc);
    let values = List::from_slice(alloc, &[StaticValue::Null, StaticValue::Int(128)])?;
    put_values(&mut out, &tables(alloc)?, &fields(alloc)?, &values)?;
    let want: [u8; 7] = [2, 0x1e, 0x64, 0x80, 0, 0, 0];
    assert!(rt; out.as_slice() == &want[..]);
    Ok(())
}
