//! What registers hold where branches meet, and how many there are.

use crate::parts::{OUT, PRINT_INT, class_of, code, function, main_of};
use crate::{AssemblyFault, ProgramCode, Step, build};
use cc_builder::DexBuilder;
use cc_meaning::instruction::{How, IntOp, Kind, Test};
use std::alloc::Global;

/// Branches meet at 7, where register 1 holds a reference or an int, and it isn't read.
pub fn meet_after_branches(alloc: Global) -> Result<DexBuilder, AssemblyFault> {
    let main = code(
        3,
        2,
        &[
            Step::Const(0, 1),
            Step::IfZero(Test::Eq, 0, 0),
            Step::Static(Kind::Object, 1, OUT),
            Step::Goto(1),
            Step::Place(0),
            Step::Const(1, 5),
            Step::Place(1),
            Step::ReturnVoid,
        ],
    );
    build(alloc, &[class_of("LA;", &[main_of(main)])])
}

/// The same, where register 1 is added: no typing exists.
pub fn add_after_branches(alloc: Global) -> Result<DexBuilder, AssemblyFault> {
    let main = code(
        3,
        2,
        &[
            Step::Const(0, 1),
            Step::IfZero(Test::Eq, 0, 0),
            Step::Static(Kind::Object, 1, OUT),
            Step::Goto(1),
            Step::Place(0),
            Step::Const(1, 5),
            Step::Place(1),
            Step::Op(IntOp::Add, 0, 1),
            Step::ReturnVoid,
        ],
    );
    build(alloc, &[class_of("LA;", &[main_of(main)])])
}

/// Prints 7, as `print_sum` does.
const PRINTS_SUM: ProgramCode<'static> = ProgramCode {
    registers: 4,
    labels: 0,
    steps: &[
        Step::Static(Kind::Object, 0, OUT),
        Step::Const(1, 3),
        Step::Const(2, 4),
        Step::Op(IntOp::Add, 1, 2),
        Step::Invoke(How::Virtual, &[0, 1], PRINT_INT),
        Step::ReturnVoid,
    ],
    tries: &[],
};

/// `add-float v0, v0, v0`.
const ADD_FLOAT: &[u16] = &[0x00a6, 0x0000];

/// `print_sum` with a method `u` that adds floats, which no program may.
pub fn add_floats(alloc: Global) -> Result<DexBuilder, AssemblyFault> {
    let adds = code(1, 0, &[Step::Units(ADD_FLOAT), Step::ReturnVoid]);
    let methods = [main_of(PRINTS_SUM), function("u", "()V", adds)];
    build(alloc, &[class_of("LA;", &methods)])
}

/// So many `nop`s.
const NOPS_63: &[u16] = &[0; 63];

const NOPS_64: &[u16] = &[0; 64];

/// `print_sum` with a method `u` of 65,535 registers, whose 63 `nop`s and `return-void` have as many units as may be.
pub fn fill_registers(alloc: Global) -> Result<DexBuilder, AssemblyFault> {
    let wide = code(u16::MAX, 0, &[Step::Units(NOPS_63), Step::ReturnVoid]);
    let methods = [main_of(PRINTS_SUM), function("u", "()V", wide)];
    build(alloc, &[class_of("LA;", &methods)])
}

/// The same with one `nop` more, which is too many.
pub fn overfill_registers(alloc: Global) -> Result<DexBuilder, AssemblyFault> {
    let wide = code(u16::MAX, 0, &[Step::Units(NOPS_64), Step::ReturnVoid]);
    let methods = [main_of(PRINTS_SUM), function("u", "()V", wide)];
    build(alloc, &[class_of("LA;", &methods)])
}
