//! The types of descriptors.

use crate::names_sample::{ascii, small, tables};
use cc_meaning::program::{Base, DexType};
use cc_names::{class_names, type_of, types_of_rows};
use std::test::Fail;

/// A type's dimensions, the letter of its base, and the number of its class.
fn shown(found: Option<DexType>) -> Option<(u8, u8, u32)> {
    let (letter, class) = match found?.base {
        Base::Boolean => (b'Z', 0),
        Base::Byte => (b'B', 0),
        Base::Short => (b'S', 0),
        Base::Char => (b'C', 0),
        Base::Int => (b'I', 0),
        Base::Long => (b'J', 0),
        Base::Class(class) => (b'L', class),
    };
    Some((found?.dims, letter, class))
}

#[test]
fn gives_types_of_rows(rt: HostRuntime) -> Result<(), Fail> {
    let alloc = rt.alloc();
    let ids = small(tables(alloc)?)?;
    let names = class_names(alloc, &ids)?;
    let found = types_of_rows(alloc, &ids, &names)?;
    let want = [
        Some((0, b'L', 0)),
        Some((0, b'L', 1)),
        None,
        Some((0, b'I', 0)),
        Some((2, b'L', 2)),
        Some((1, b'I', 0)),
        None,
        Some((0, b'J', 0)),
        Some((0, b'L', 0)),
        None,
        None,
    ];
    assert_eq!(rt; found.len(), want.len());
    for (found, want) in found.iter().zip(want) {
        assert_eq!(rt; shown(*found), want);
    }
    Ok(())
}

#[test]
fn gives_types_of_descriptors(rt: HostRuntime) -> Result<(), Fail> {
    let alloc = rt.alloc();
    let ids = small(tables(alloc)?)?;
    let names = class_names(alloc, &ids)?;
    let cases: [(&[u8], Option<(u8, u8, u32)>); 11] = [
        (b"Z", Some((0, b'Z', 0))),
        (b"[B", Some((1, b'B', 0))),
        (b"S", Some((0, b'S', 0))),
        (b"[[[C", Some((3, b'C', 0))),
        (b"[Ljava/lang/String;", Some((1, b'L', 23))),
        (b"Ljava/lang/Object;", Some((0, b'L', 20))),
        (b"D", None),
        (b"[[D", None),
        (b"Lnowhere;", None),
        (b"[V", None),
        (b"", None),
    ];
    for (name, want) in cases {
        let found = type_of(&names, ascii(alloc, name)?.as_slice());
        assert_eq!(rt; shown(found), want);
    }
    Ok(())
}
