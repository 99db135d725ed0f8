//! Outlines of the classes of a file, and their order.

use crate::outline_sample::SAMPLE;
use cc_dexids::read_ids;
use cc_hierarchy::{classes_lead, from_the_top, judge_classes, outlines};
use cc_list::List;
use cc_meaning::file::{RawClass, RawClasses};
use cc_meaning::program::ClassKind;
use cc_names::class_names;
use cc_program_laws::{classes_have_ancestries, spelled_tables_fit};
use std::alloc::{AllocError, Global};
use std::test::Fail;

/// The number of a class, and what its outline says.
type Expected = (usize, ClassKind, Option<u32>, Option<u32>, &'static [u32]);

/// What stands in the file, and what built-in classes have. Numbers are places in the sorted list of names, which a program of another language gave.
const EXPECTED: [Expected; 12] = [
    (0, ClassKind::File, Some(2), Some(24), &[]),
    (1, ClassKind::File, Some(1), Some(2), &[6, 0]),
    (2, ClassKind::File, Some(0), Some(4), &[]),
    (3, ClassKind::Outside, None, Some(24), &[]),
    (4, ClassKind::OutsideError, None, Some(14), &[]),
    (5, ClassKind::OutsideError, None, Some(13), &[]),
    (6, ClassKind::Outside, None, Some(24), &[]),
    (14, ClassKind::BuiltIn, None, Some(31), &[]),
    (24, ClassKind::BuiltIn, None, None, &[]),
    (26, ClassKind::BuiltIn, None, Some(32), &[]),
    (33, ClassKind::Array, None, Some(24), &[]),
    (36, ClassKind::Array, None, Some(24), &[]),
];

#[test]
fn outlines_classes(rt: HostRuntime) -> Result<(), Fail> {
    spelled_tables_fit();
    let ids = read_ids(rt.alloc(), &SAMPLE)?;
    assert_eq!(rt; ids.classes.len(), 3);
    let names = class_names(rt.alloc(), &ids)?;
    assert_eq!(rt; names.len(), 37);
    let made = outlines(rt.alloc(), &ids, &names)?;
    assert_eq!(rt; made.len(), 37);
    for (number, kind, definition, superclass, interfaces) in EXPECTED {
        let Some(outline) = made.get(number) else {
            return Err("no outline")?;
        };
        assert!(rt; outline.kind == kind, "kind of {number}");
        assert_eq!(rt; outline.definition, definition, "{number}");
        assert_eq!(rt; outline.superclass, superclass, "{number}");
        assert_eq!(rt; outline.interfaces.as_slice(), interfaces, "{number}");
    }
    Ok(())
}

/// Classes without members.
fn bare_classes(alloc: Global, count: usize) -> Result<RawClasses, AllocError> {
    let mut classes = List::new(alloc);
    for _ in 0..count {
        classes.push(RawClass {
            fields: List::new(alloc),
            methods: List::new(alloc),
            values: List::new(alloc),
        })?;
    }
    Ok(classes)
}

#[test]
fn orders_classes(rt: HostRuntime) -> Result<(), Fail> {
    spelled_tables_fit();
    classes_have_ancestries();
    classes_lead();
    let alloc = rt.alloc();
    let ids = read_ids(alloc, &SAMPLE)?;
    let classes = bare_classes(alloc, 3)?;
    assert_eq!(rt; ids.classes.len(), 3);
    assert_eq!(rt; classes.len(), 3);
    judge_classes(alloc, &ids, &classes)?;
    let names = class_names(alloc, &ids)?;
    assert_eq!(rt; names.len(), 37);
    let made = outlines(alloc, &ids, &names)?;
    let order = from_the_top(alloc, &made)?;
    assert_eq!(rt; order.len(), 37);
    assert_eq!(rt; order.get(0).copied(), Some(24));
    Ok(())
}
