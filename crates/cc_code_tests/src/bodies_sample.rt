//! A file's tables by hand, and classes over them.

use cc_list::List;
use cc_meaning::file::{
    FieldRow, Ids, MethodRow, ProtoRow, RawCatch, RawClass, RawClasses, RawCode, RawField,
    RawMethod, RawTry,
};
use cc_meaning::lists::{Texts, Units};
use std::alloc::{AllocError, Global};

// Rows of types, each that of its text too.
pub const INT: u32 = 0;

pub const VOID: u32 = 1;

pub const A: u32 = 2;

pub const DOUBLE: u32 = 3;

pub const FLOAT: u32 = 4;

pub const DOUBLES: u32 = 5;

pub const EXCEPTION: u32 = 6;

// Rows of texts that name members.
const U: u32 = 7;

const X: u32 = 8;

const TEXTS: [&str; 9] = [
    "I",
    "V",
    "LA;",
    "D",
    "F",
    "[D",
    "Ljava/lang/Exception;",
    "u",
    "x",
];

// The first rows of the texts are the types.
const TYPE_COUNT: u32 = 7;

/// The result and the parameters.
const PROTOTYPES: [(u32, &[u32]); 3] = [(VOID, &[]), (VOID, &[INT, DOUBLES]), (FLOAT, &[])];

// Rows of fields.
pub const X_INT: u32 = 0;

pub const X_DOUBLE: u32 = 1;

pub const X_OF_DOUBLES: u32 = 2;

const FIELDS: [FieldRow; 3] = [
    FieldRow {
        class: A,
        kind: INT,
        name: X,
    },
    FieldRow {
        class: A,
        kind: DOUBLE,
        name: X,
    },
    FieldRow {
        class: DOUBLES,
        kind: INT,
        name: X,
    },
];

// Rows of methods.
pub const U_PLAIN: u32 = 0;

pub const U_OF_DOUBLES: u32 = 1;

pub const U_TO_FLOAT: u32 = 2;

pub const X_PLAIN: u32 = 3;

const METHODS: [MethodRow; 4] = [
    MethodRow {
        class: A,
        proto: 0,
        name: U,
    },
    MethodRow {
        class: A,
        proto: 1,
        name: U,
    },
    MethodRow {
        class: A,
        proto: 2,
        name: U,
    },
    MethodRow {
        class: A,
        proto: 0,
        name: X,
    },
];

fn units(alloc: Global, text: &str) -> Result<Units, AllocError> {
    let mut units = List::new(alloc);
    for byte in text.as_bytes() {
        units.push(u16::from(*byte))?;
    }
    Ok(units)
}

fn texts(alloc: Global) -> Result<Texts, AllocError> {
    let mut texts = List::new(alloc);
    for text in TEXTS.iter() {
        texts.push(units(alloc, text)?)?;
    }
    Ok(texts)
}

fn protos(alloc: Global) -> Result<List<ProtoRow>, AllocError> {
    let mut protos = List::new(alloc);
    for (result, params) in PROTOTYPES.iter() {
        let params = List::from_slice(alloc, params)?;
        protos.push(ProtoRow {
            result: *result,
            params,
        })?;
    }
    Ok(protos)
}

pub fn tables(alloc: Global) -> Result<Ids, AllocError> {
    let mut types = List::new(alloc);
    for row in 0..TYPE_COUNT {
        types.push(row)?;
    }
    Ok(Ids {
        texts: texts(alloc)?,
        types,
        protos: protos(alloc)?,
        fields: List::from_slice(alloc, &FIELDS)?,
        methods: List::from_slice(alloc, &METHODS)?,
        classes: List::new(alloc),
    })
}

/// A method: its row, its units, no code where there is none, and the types that the handlers of its one try take.
#[derive(Clone, Copy)]
pub struct Body<'a> {
    pub row: u32,
    pub units: &'a [u16],
    pub catches: &'a [Option<u32>],
}

/// A class: the rows of its fields, and its methods.
#[derive(Clone, Copy)]
pub struct Given<'a> {
    pub fields: &'a [u32],
    pub bodies: &'a [Body<'a>],
}

fn one_try(alloc: Global, rows: &[Option<u32>]) -> Result<RawTry, AllocError> {
    let mut catches = List::new(alloc);
    for row in rows {
        catches.push(RawCatch { row: *row, at: 0 })?;
    }
    Ok(RawTry {
        start: 0,
        end: 1,
        catches,
    })
}

fn code(alloc: Global, body: &Body<'_>) -> Result<Option<RawCode>, AllocError> {
    if body.units.is_empty() {
        return Ok(None);
    }
    let mut tries = List::new(alloc);
    tries.push(one_try(alloc, body.catches)?)?;
    Ok(Some(RawCode {
        registers: 4,
        ins: 0,
        units: List::from_slice(alloc, body.units)?,
        tries,
    }))
}

fn class(alloc: Global, given: &Given<'_>) -> Result<RawClass, AllocError> {
    let mut fields = List::new(alloc);
    for row in given.fields {
        fields.push(RawField {
            row: *row,
            flags: 0,
            is_static: false,
        })?;
    }
    let mut methods = List::new(alloc);
    for body in given.bodies {
        methods.push(RawMethod {
            row: body.row,
            flags: 0,
            is_direct: true,
            code: code(alloc, body)?,
        })?;
    }
    Ok(RawClass {
        fields,
        methods,
        values: List::new(alloc),
    })
}

pub fn classes(alloc: Global, given: &[Given<'_>]) -> Result<RawClasses, AllocError> {
    let mut classes = List::new(alloc);
    for stated in given {
        classes.push(class(alloc, stated)?)?;
    }
    Ok(classes)
}
