//! Tries and their handlers.

use crate::class_reading::{expect_fault, read, read_draft};
use crate::classes_sample::{
    A, B, CLASS_A, INT, INT_ARRAY, PLAIN, PUBLIC, STATIC, STRING, TYPES, VOID, direct_method,
    listing,
};
use crate::draft::Draft;
use crate::tried::{StatedTry, put_tried, tried, tries_at};
use cc_builder::{DexBuilder, units_of};
use cc_list::List;
use cc_meaning::fault::Memory;
use cc_meaning::file::{RawCatch, RawClasses};
use cc_meaning::listing::{ListedCatch, ListedCatches, ListedTries, ListedTry};
use cc_meaning::lists::Bytes;
use std::alloc::Global;
use std::process::Abort;
use std::test::Fail;

/// No try, or no handler list, as it is judged.
const BAD: &str = "BadTry { method: 0 }";

/// Units of code.
const UNITS: [u16; 4] = [0, 0, 0, 0x000e];

/// A handler of a type.
const fn of(row: u32, at: u32) -> RawCatch {
    RawCatch { row: Some(row), at }
}

/// A handler that takes all.
const fn all(at: u32) -> RawCatch {
    RawCatch { row: None, at }
}

/// A type, an address for all, and two types with such an address.
const OF_A: [RawCatch; 1] = [RawCatch {
    row: Some(A),
    at: 1,
}];

const OF_ALL: [RawCatch; 1] = [RawCatch { row: None, at: 300 }];

const OF_TWO: [RawCatch; 3] = [
    RawCatch {
        row: Some(B),
        at: 2,
    },
    RawCatch {
        row: Some(STRING),
        at: 3,
    },
    RawCatch { row: None, at: 0 },
];

/// A type that is an array.
const OF_ARRAY: [RawCatch; 1] = [RawCatch {
    row: Some(INT_ARRAY),
    at: 3,
}];

/// Handlers that begin 1, 4, 7, 13 and 16 bytes behind the start of their list.
const HANDLERS: [&[RawCatch]; 5] = [&OF_A, &OF_ALL, &OF_TWO, &OF_ARRAY, &OF_ARRAY];

/// Where these handlers begin.
const STARTS: [u16; 5] = [1, 4, 7, 13, 16];

/// A try by the handler that lies so far behind the start of the list.
const fn by(start: u32, count: u16, handler: u16) -> StatedTry {
    StatedTry {
        start,
        count,
        handler,
    }
}

/// Has class A one static method, whose code stands at this offset.
fn set_code(draft: &mut Draft, at: u32) -> Result<(), Memory> {
    draft.put_members(CLASS_A, &[], &[direct_method(PLAIN, STATIC, at)])
}

/// The file with code of these units, handlers and tries in class A.
fn with_tries(
    alloc: Global,
    units: &[u16],
    handlers: &[&[RawCatch]],
    tries: &[StatedTry],
) -> Result<Draft, Memory> {
    let mut draft = Draft::new(alloc)?;
    let code = tried(alloc, 0, units, handlers)?;
    let at = put_tried(&mut draft, &code, tries)?;
    set_code(&mut draft, at)?;
    Ok(draft)
}

/// A try with its handlers: where it starts and ends, and for each handler the row of its type and its address.
type Covered<'a> = (u32, u32, &'a [(Option<u32>, u32)]);

/// Tries that a class's first method has these tries.
fn expect_tries(
    rt: &impl Abort,
    classes: &RawClasses,
    units: &[u16],
    wanted: &[Covered<'_>],
) -> Result<(), Fail> {
    let Some(method) = classes.get(CLASS_A).and_then(|class| class.methods.get(0)) else {
        return Err("no method")?;
    };
    let Some(code) = &method.code else {
        return Err("no code")?;
    };
    assert_eq!(rt; code.units.as_slice(), units);
    assert_eq!(rt; code.tries.len(), wanted.len());
    for (covered, (start, end, catches)) in code.tries.iter().zip(wanted) {
        assert_eq!(rt; (covered.start, covered.end), (*start, *end));
        assert_eq!(rt; covered.catches.len(), catches.len());
        for (catch, wanted) in covered.catches.iter().zip(*catches) {
            assert_eq!(rt; (catch.row, catch.at), *wanted);
        }
    }
    Ok(())
}

/// Handlers that a builder is given, each with a class or with none.
fn catches(alloc: Global, listed: &[(&str, u32)]) -> Result<ListedCatches, Memory> {
    let mut catches = List::new(alloc);
    for (name, at) in listed {
        let class = if name.is_empty() {
            None
        } else {
            Some(units_of(alloc, name)?)
        };
        catches.push(ListedCatch { class, at: *at })?;
    }
    Ok(catches)
}

/// Tries that a builder is given.
fn listed_tries(alloc: Global) -> Result<ListedTries, Memory> {
    let listed: [(u32, u32, &[(&str, u32)]); 4] = [
        (0, 1, &[("LA;", 1)]),
        (1, 2, &[("", 300)]),
        (2, 2, &[("LB;", 2), ("[I", 3), ("", 0)]),
        (2, 3, &[("[I", 3)]),
    ];
    let mut tries = List::new(alloc);
    for (start, end, handlers) in listed {
        tries.push(ListedTry {
            start,
            end,
            catches: catches(alloc, handlers)?,
        })?;
    }
    Ok(tries)
}

/// A file with one method, whose code has tries.
fn built(alloc: Global, units: &[u16]) -> Result<Bytes, Memory> {
    let mut builder = DexBuilder::new(alloc)?;
    let class = builder.class("LA;", "", PUBLIC)?;
    let mut code = listing(alloc, 0, units)?;
    code.tries = listed_tries(alloc)?;
    builder.method(class, "name", "()V", STATIC, Some(code))?;
    builder.finish()
}

/// The types of the file are `LA;`, `LB;`, `V` and `[I`.
#[test]
fn reads_built_tries(rt: HostRuntime) -> Result<(), Fail> {
    for units in [&UNITS[..4], &UNITS[..3]] {
        let file = built(rt.alloc(), units)?;
        let classes = read(rt.alloc(), file.as_slice())?;
        let wanted: [Covered<'_>; 4] = [
            (0, 1, &[(Some(0), 1)]),
            (1, 2, &[(None, 300)]),
            (2, 2, &[(Some(1), 2), (Some(3), 3), (None, 0)]),
            (2, 3, &[(Some(3), 3)]),
        ];
        expect_tries(&rt, &classes, units, &wanted)?;
    }
    Ok(())
}

#[test]
fn reads_tries(rt: HostRuntime) -> Result<(), Fail> {
    for units in [&UNITS[..4], &UNITS[..3]] {
        let tries = [
            by(0, 2, 7),
            by(1, 2, 1),
            by(2, 0, 4),
            by(3, 0, 7),
            by(0, 3, 13),
        ];
        let draft = with_tries(rt.alloc(), units, &HANDLERS, &tries)?;
        let classes = read_draft(draft)?;
        let mixed: &[(Option<u32>, u32)] = &[(Some(B), 2), (Some(STRING), 3), (None, 0)];
        let wanted: [Covered<'_>; 5] = [
            (0, 2, mixed),
            (1, 3, &[(Some(A), 1)]),
            (2, 2, &[(None, 300)]),
            (3, 3, mixed),
            (0, 3, &[(Some(INT_ARRAY), 3)]),
        ];
        expect_tries(&rt, &classes, units, &wanted)?;
    }
    Ok(())
}

#[test]
fn judges_what_a_try_covers(rt: HostRuntime) -> Result<(), Fail> {
    let cases = [
        (0, 4, ""),
        (4, 0, ""),
        (3, 1, ""),
        (3, 2, BAD),
        (5, 0, BAD),
        (u32::MAX, u16::MAX, BAD),
    ];
    for (start, count, want) in cases {
        let tries = [by(0, 1, 1), by(start, count, 1)];
        let draft = with_tries(rt.alloc(), &UNITS, &HANDLERS, &tries)?;
        expect_fault(&rt, draft, want)?;
    }
    Ok(())
}

#[test]
fn judges_where_a_handler_begins(rt: HostRuntime) -> Result<(), Fail> {
    for handler in 0..20 {
        let draft = with_tries(rt.alloc(), &UNITS, &HANDLERS, &[by(0, 1, handler)])?;
        let want = if STARTS.contains(&handler) { "" } else { BAD };
        expect_fault(&rt, draft, want)?;
    }
    Ok(())
}

/// A handler's type is judged also where no try has the handler.
#[test]
fn judges_types_of_handlers(rt: HostRuntime) -> Result<(), Fail> {
    for row in 0..20 {
        let is = row < TYPES && row != VOID;
        let want = if is { "" } else { BAD };
        let unused = [of(row, 1), all(1)];
        let handlers: [&[RawCatch]; 2] = [&[of(INT, 1)], &unused];
        let tries = [by(0, 1, 1), by(0, 1, 1)];
        let draft = with_tries(rt.alloc(), &UNITS, &handlers, &tries)?;
        expect_fault(&rt, draft, want)?;
    }
    Ok(())
}

/// Behind a count of handlers stands for each a size, which is negative or 0 where something takes all, and pairs of a type and an address, all in LEB128.
#[test]
fn judges_bytes_of_handlers(rt: HostRuntime) -> Result<(), Fail> {
    let cases: [(&[u8], &str); 9] = [
        (&[1, 0, 5], ""),
        (&[1, 0x7f, 0, 4, 5], ""),
        (&[0x81, 0, 0, 5], BAD),
        (&[0], BAD),
        (&[0xff, 0xff, 0xff, 0xff, 0x0f], BAD),
        (&[1, 0x80, 0x80, 0x80, 0x80, 0x80], BAD),
        (&[1, 1, 0x80, 0x80, 0x80, 0x80, 0x10, 4], BAD),
        (&[1, 1, 0, 0x80, 0x80, 0x80, 0x80, 0x80, 4], BAD),
        (&[1, 0, 0xff, 0xff, 0xff, 0xff, 0x1f], BAD),
    ];
    for (bytes, want) in cases {
        let mut draft = Draft::new(rt.alloc())?;
        let code = tried(rt.alloc(), 0, &UNITS, &[&[all(5)]])?;
        let at = put_tried(&mut draft, &code, &[by(0, 1, 1)])?;
        draft.cut(tries_at(at, &code).saturating_add(8));
        draft.put(bytes)?;
        set_code(&mut draft, at)?;
        expect_fault(&rt, draft, want)?;
    }
    Ok(())
}

/// Code without tries has no handler list, so what stands behind its units isn't read.
#[test]
fn reads_no_handlers_without_tries(rt: HostRuntime) -> Result<(), Fail> {
    let mut draft = Draft::new(rt.alloc())?;
    let code = tried(rt.alloc(), 0, &UNITS, &[])?;
    let at = draft.put_code(&code)?;
    draft.put(&[0xff, 0xff])?;
    set_code(&mut draft, at)?;
    expect_fault(&rt, draft, "")
}
