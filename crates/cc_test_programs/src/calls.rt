//! A function that adds one, called in several ways.

use crate::parts::{OUT, PRINT_INT, class_of, code, function, main_of};
use crate::{AssemblyFault, Member, ProgramCode, Step, build};
use cc_builder::DexBuilder;
use cc_meaning::instruction::{How, Kind, Test};
use std::alloc::Global;

const TAKES_INT: &str = "(I)I";

const F: Member<'static> = Member {
    class: "LA;",
    name: "f",
    ty: TAKES_INT,
};

const G: Member<'static> = Member {
    class: "LA;",
    name: "g",
    ty: TAKES_INT,
};

/// Gives its argument plus one.
const ADDS_ONE: ProgramCode<'static> = ProgramCode {
    registers: 1,
    labels: 0,
    steps: &[Step::Add(0, 0, 1), Step::Return(Kind::Plain, 0)],
    tries: &[],
};

/// Calls `f` of 5 and prints what it gives.
const PRINTS_F: ProgramCode<'static> = ProgramCode {
    registers: 3,
    labels: 0,
    steps: &[
        Step::Const(0, 5),
        Step::Invoke(How::Static, &[0], F),
        Step::Result(Kind::Plain, 0),
        Step::Static(Kind::Object, 1, OUT),
        Step::Invoke(How::Virtual, &[1, 0], PRINT_INT),
        Step::ReturnVoid,
    ],
    tries: &[],
};

/// Prints 6, which `f` gives.
pub fn add_one(alloc: Global) -> Result<DexBuilder, AssemblyFault> {
    let methods = [function("f", TAKES_INT, ADDS_ONE), main_of(PRINTS_F)];
    build(alloc, &[class_of("LA;", &methods)])
}

/// The same where `f` calls `g` first, so that it prints 7.
pub fn add_one_through(alloc: Global) -> Result<DexBuilder, AssemblyFault> {
    let calls_g = code(
        1,
        0,
        &[
            Step::Invoke(How::Static, &[0], G),
            Step::Result(Kind::Plain, 0),
            Step::Add(0, 0, 1),
            Step::Return(Kind::Plain, 0),
        ],
    );
    let methods = [
        function("g", TAKES_INT, ADDS_ONE),
        function("f", TAKES_INT, calls_g),
        main_of(PRINTS_F),
    ];
    build(alloc, &[class_of("LA;", &methods)])
}

/// The same where `f` calls itself first.
pub fn for_ever(alloc: Global) -> Result<DexBuilder, AssemblyFault> {
    let calls_itself = code(
        1,
        0,
        &[
            Step::Invoke(How::Static, &[0], F),
            Step::Result(Kind::Plain, 0),
            Step::Add(0, 0, 1),
            Step::Return(Kind::Plain, 0),
        ],
    );
    let methods = [function("f", TAKES_INT, calls_itself), main_of(PRINTS_F)];
    build(alloc, &[class_of("LA;", &methods)])
}

/// Calls `f` of 5 and `g` of what it gives, and prints that.
const PRINTS_G_OF_F: ProgramCode<'static> = ProgramCode {
    registers: 3,
    labels: 0,
    steps: &[
        Step::Const(0, 5),
        Step::Invoke(How::Static, &[0], F),
        Step::Result(Kind::Plain, 0),
        Step::Invoke(How::Static, &[0], G),
        Step::Result(Kind::Plain, 0),
        Step::Static(Kind::Object, 1, OUT),
        Step::Invoke(How::Virtual, &[1, 0], PRINT_INT),
        Step::ReturnVoid,
    ],
    tries: &[],
};

/// `f` gives what `g` gives, and `main` calls `g` once more with it, so that it prints 7.
pub fn add_one_again(alloc: Global) -> Result<DexBuilder, AssemblyFault> {
    let calls_g = code(
        1,
        0,
        &[
            Step::Invoke(How::Static, &[0], G),
            Step::Result(Kind::Plain, 0),
            Step::Return(Kind::Plain, 0),
        ],
    );
    let methods = [
        function("g", TAKES_INT, ADDS_ONE),
        function("f", TAKES_INT, calls_g),
        main_of(PRINTS_G_OF_F),
    ];
    build(alloc, &[class_of("LA;", &methods)])
}

/// `add_one` with a function `help` beside it, which counts from 50 down to zero and prints that.
pub fn add_one_beside_help(alloc: Global) -> Result<DexBuilder, AssemblyFault> {
    let help = code(
        2,
        1,
        &[
            Step::Const(0, 50),
            Step::Place(0),
            Step::Add(0, 0, -1),
            Step::IfZero(Test::Ne, 0, 0),
            Step::Static(Kind::Object, 1, OUT),
            Step::Invoke(How::Virtual, &[1, 0], PRINT_INT),
            Step::ReturnVoid,
        ],
    );
    let methods = [
        function("f", TAKES_INT, ADDS_ONE),
        main_of(PRINTS_F),
        function("help", "()V", help),
    ];
    build(alloc, &[class_of("LA;", &methods)])
}
