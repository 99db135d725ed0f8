//! The tables of a small file, and units of ASCII.

ghost use Rattle.std.specs.Prelude.{◌^◌, ◌<◌, length, IfOk};

use cc_list::List;
use cc_meaning::file::{FieldRow, Ids, MethodRow, ProtoRow};
use cc_meaning::lists::{Rows, Texts, Units};
use std::alloc::{AllocError, Global};
use std::test::Fail;

pub fn ascii(alloc: Global, text: &[u8]) -> Result<Units, AllocError> {
    let mut units = List::new(alloc);
    for byte in text {
        units.push(u16::from(*byte))?;
    }
    Ok(units)
}

pub fn ascii_texts(alloc: Global, texts: &[&[u8]]) -> Result<Texts, AllocError> {
    let mut list = List::new(alloc);
    for text in texts {
        list.push(ascii(alloc, text)?)?;
    }
    Ok(list)
}

/// The texts of the file. Two rows have the text `La;`.
const TEXTS: [&[u8]; 14] = [
    b"La;", b"Lab;", b"V", b"I", b"[[Lb;", b"[I", b"F", b"run", b"ru", b"J", b"La;", b"n", b"[F",
    b"run(I",
];

/// The rows of texts of the file's types, and one that isn't there.
const TYPES: [u32; 11] = [0, 1, 2, 3, 4, 5, 6, 9, 10, 12, 99];

/// Classes, prototypes and names of the file's methods.
const METHODS: [(u32, u32, u32); 9] = [
    (1, 0, 7),
    (0, 2, 7),
    (0, 1, 7),
    (8, 1, 7),
    (0, 0, 8),
    (4, 0, 7),
    (0, 0, 13),
    (0, 3, 7),
    (1, 0, 11),
];

/// Classes, types and names of the file's fields.
const FIELDS: [(u32, u32, u32); 5] = [(1, 3, 7), (0, 5, 7), (0, 3, 7), (8, 3, 7), (0, 3, 8)];

fn prototype(alloc: Global, gives: u32, params: &[u32]) -> Result<ProtoRow, AllocError> {
    Ok(ProtoRow {
        result: gives,
        params: Rows::from_slice(alloc, params)?,
    })
}

/// `()V`, `(I)V`, `(I[I)I` and `()J`.
fn prototypes(alloc: Global) -> Result<List<ProtoRow>, AllocError> {
    let mut rows = List::new(alloc);
    rows.push(prototype(alloc, 2, &[])?)?;
    rows.push(prototype(alloc, 2, &[3])?)?;
    rows.push(prototype(alloc, 3, &[3, 5])?)?;
    rows.push(prototype(alloc, 7, &[])?)?;
    Ok(rows)
}

fn methods(alloc: Global) -> Result<List<MethodRow>, AllocError> {
    let mut rows = List::new(alloc);
    for (class, proto, name) in METHODS {
        rows.push(MethodRow { class, proto, name })?;
    }
    Ok(rows)
}

fn fields(alloc: Global) -> Result<List<FieldRow>, AllocError> {
    let mut rows = List::new(alloc);
    for (class, kind, name) in FIELDS {
        rows.push(FieldRow { class, kind, name })?;
    }
    Ok(rows)
}

/// Tables of no more than these texts.
pub fn tables_of(alloc: Global, texts: Texts) -> Ids {
    Ids {
        texts,
        types: List::new(alloc),
        protos: List::new(alloc),
        fields: List::new(alloc),
        methods: List::new(alloc),
        classes: List::new(alloc),
    }
}

/// The tables of the file.
pub fn tables(alloc: Global) -> Result<Ids, AllocError> {
    Ok(Ids {
        texts: ascii_texts(alloc, &TEXTS)?,
        types: Rows::from_slice(alloc, &TYPES)?,
        protos: prototypes(alloc)?,
        fields: fields(alloc)?,
        methods: methods(alloc)?,
        classes: List::new(alloc),
    })
}

/// Tables that are no longer than those of these tests.
pub fn small(ids: Ids) -> Result<Ids, Fail>
    ensures { IfOk result (λ ids. (length ids.texts < 2 ^ 30) × (length ids.types < 2 ^ 30)) }
{
    if ids.texts.len() > 100 || ids.types.len() > 100 {
        return Err("tables too long")?;
    }
    Ok(ids)
}
