//! A division by zero, which the caller catches.

use crate::parts::{OUT, PRINT_INT, class_of, code, function, main_of};
use crate::{AssemblyFault, Member, ProgramCode, ProgramTry, Step, build};
use cc_builder::DexBuilder;
use cc_meaning::instruction::{How, IntOp, Kind};
use std::alloc::Global;

const F: Member<'static> = Member {
    class: "LA;",
    name: "f",
    ty: "()I",
};

/// The labels of `main`: what is tried begins and ends, the two handlers, and where they meet.
const BEGIN: usize = 0;

const END: usize = 1;

const OF_NULL: usize = 2;

const OF_ZERO: usize = 3;

const PRINT: usize = 4;

/// Calls `f`, and prints 1 for a null, or 2 for a division by zero.
const CATCHES: ProgramCode<'static> = ProgramCode {
    registers: 3,
    labels: 5,
    steps: &[
        Step::Static(Kind::Object, 0, OUT),
        Step::Place(BEGIN),
        Step::Invoke(How::Static, &[], F),
        Step::Result(Kind::Plain, 1),
        Step::Place(END),
        Step::Goto(PRINT),
        Step::Place(OF_NULL),
        Step::Const(1, 1),
        Step::Goto(PRINT),
        Step::Place(OF_ZERO),
        Step::Const(1, 2),
        Step::Place(PRINT),
        Step::Invoke(How::Virtual, &[0, 1], PRINT_INT),
        Step::ReturnVoid,
    ],
    tries: &[ProgramTry {
        start: BEGIN,
        end: END,
        handlers: &[
            ("Ljava/lang/NullPointerException;", OF_NULL),
            ("Ljava/lang/ArithmeticException;", OF_ZERO),
        ],
    }],
};

/// Prints 2: the caller's second handler takes the exception of `f`.
pub fn catch_division(alloc: Global) -> Result<DexBuilder, AssemblyFault> {
    let divides = code(
        2,
        0,
        &[
            Step::Const(0, 1),
            Step::Const(1, 0),
            Step::WideOp(IntOp::Div, 0, 0, 1),
            Step::Return(Kind::Plain, 0),
        ],
    );
    let methods = [function("f", "()I", divides), main_of(CATCHES)];
    build(alloc, &[class_of("LA;", &methods)])
}
