//! Sums and quotients that are printed.

use crate::parts::{OUT, PRINT_INT, class_of, code, main_of};
use crate::{AssemblyFault, Step, build};
use cc_builder::DexBuilder;
use cc_meaning::instruction::{How, IntOp, Kind};
use std::alloc::Global;

/// Prints 7.
pub fn print_sum(alloc: Global) -> Result<DexBuilder, AssemblyFault> {
    let main = code(
        4,
        0,
        &[
            Step::Static(Kind::Object, 0, OUT),
            Step::Const(1, 3),
            Step::Const(2, 4),
            Step::Op(IntOp::Add, 1, 2),
            Step::Invoke(How::Virtual, &[0, 1], PRINT_INT),
            Step::ReturnVoid,
        ],
    );
    build(alloc, &[class_of("LA;", &[main_of(main)])])
}

/// The same without an end: control runs past the last instruction.
pub fn sum_and_run_on(alloc: Global) -> Result<DexBuilder, AssemblyFault> {
    let main = code(
        4,
        0,
        &[
            Step::Static(Kind::Object, 0, OUT),
            Step::Const(1, 3),
            Step::Const(2, 4),
            Step::Op(IntOp::Add, 1, 2),
            Step::Invoke(How::Virtual, &[0, 1], PRINT_INT),
        ],
    );
    build(alloc, &[class_of("LA;", &[main_of(main)])])
}

/// `goto`, two units back.
const BACK: &[u16] = &[0xfe28];

/// The same with a jump in place of its end, two units back, where no instruction begins.
pub fn sum_and_go_back(alloc: Global) -> Result<DexBuilder, AssemblyFault> {
    let main = code(
        4,
        0,
        &[
            Step::Static(Kind::Object, 0, OUT),
            Step::Const(1, 3),
            Step::Const(2, 4),
            Step::Op(IntOp::Add, 1, 2),
            Step::Invoke(How::Virtual, &[0, 1], PRINT_INT),
            Step::Units(BACK),
        ],
    );
    build(alloc, &[class_of("LA;", &[main_of(main)])])
}

/// The same behind an instance of `System`, of which there is none.
pub fn make_system(alloc: Global) -> Result<DexBuilder, AssemblyFault> {
    let main = code(
        4,
        0,
        &[
            Step::New(0, "Ljava/lang/System;"),
            Step::Static(Kind::Object, 0, OUT),
            Step::Const(1, 3),
            Step::Const(2, 4),
            Step::Op(IntOp::Add, 1, 2),
            Step::Invoke(How::Virtual, &[0, 1], PRINT_INT),
            Step::ReturnVoid,
        ],
    );
    build(alloc, &[class_of("LA;", &[main_of(main)])])
}

/// Divides the least int by -1, prints the quotient, and divides it by zero.
pub fn divide_least(alloc: Global) -> Result<DexBuilder, AssemblyFault> {
    let main = code(
        4,
        0,
        &[
            Step::WideConst(0, i32::MIN),
            Step::Const(1, -1),
            Step::WideOp(IntOp::Div, 2, 0, 1),
            Step::Static(Kind::Object, 0, OUT),
            Step::Invoke(How::Virtual, &[0, 2], PRINT_INT),
            Step::Const(1, 0),
            Step::WideOp(IntOp::Div, 2, 2, 1),
            Step::ReturnVoid,
        ],
    );
    build(alloc, &[class_of("LA;", &[main_of(main)])])
}
