//! Calls of a native method, which a script answers.

use crate::parts::{OUT, PRINT_INT, PUBLIC_STATIC_NATIVE, class_of, code, function, main_of};
use crate::{AssemblyFault, Member, ProgramCode, ProgramMethod, Step, build};
use cc_builder::DexBuilder;
use cc_meaning::instruction::{How, IntOp, Kind};
use std::alloc::Global;

const GIVES_INT: &str = "()I";

const NEXT: Member<'static> = Member {
    class: "LC;",
    name: "next",
    ty: GIVES_INT,
};

const F: Member<'static> = Member {
    class: "LA;",
    name: "f",
    ty: GIVES_INT,
};

/// The native method.
const ASKS: &[ProgramMethod<'static>] = &[ProgramMethod {
    name: "next",
    proto: GIVES_INT,
    flags: PUBLIC_STATIC_NATIVE,
    code: None,
}];

/// Prints what `f` gives, twice.
const PRINTS_TWICE: ProgramCode<'static> = ProgramCode {
    registers: 3,
    labels: 0,
    steps: &[
        Step::Static(Kind::Object, 0, OUT),
        Step::Invoke(How::Static, &[], F),
        Step::Result(Kind::Plain, 1),
        Step::Invoke(How::Virtual, &[0, 1], PRINT_INT),
        Step::Invoke(How::Static, &[], F),
        Step::Result(Kind::Plain, 1),
        Step::Invoke(How::Virtual, &[0, 1], PRINT_INT),
        Step::ReturnVoid,
    ],
    tries: &[],
};

/// `f` adds two answers, and `main` prints what it gives, twice.
pub fn ask_twice(alloc: Global) -> Result<DexBuilder, AssemblyFault> {
    let adds = code(
        2,
        0,
        &[
            Step::Invoke(How::Static, &[], NEXT),
            Step::Result(Kind::Plain, 0),
            Step::Invoke(How::Static, &[], NEXT),
            Step::Result(Kind::Plain, 1),
            Step::Op(IntOp::Add, 0, 1),
            Step::Return(Kind::Plain, 0),
        ],
    );
    let methods = [function("f", GIVES_INT, adds), main_of(PRINTS_TWICE)];
    build(alloc, &[class_of("LC;", ASKS), class_of("LA;", &methods)])
}

/// Calls `f`, and asks once more.
const ASKS_BEHIND: ProgramCode<'static> = ProgramCode {
    registers: 3,
    labels: 0,
    steps: &[
        Step::Invoke(How::Static, &[], F),
        Step::Result(Kind::Plain, 1),
        Step::Invoke(How::Static, &[], NEXT),
        Step::Result(Kind::Plain, 1),
        Step::ReturnVoid,
    ],
    tries: &[],
};

/// `f` asks once, and `main` once more behind it.
pub fn ask_apart(alloc: Global) -> Result<DexBuilder, AssemblyFault> {
    let asks = code(
        1,
        0,
        &[
            Step::Invoke(How::Static, &[], NEXT),
            Step::Result(Kind::Plain, 0),
            Step::Return(Kind::Plain, 0),
        ],
    );
    let methods = [function("f", GIVES_INT, asks), main_of(ASKS_BEHIND)];
    build(alloc, &[class_of("LC;", ASKS), class_of("LA;", &methods)])
}
