//! Outside exceptions: each is thrown and caught, and only what is below it fits it.

use cc_builder::DexBuilder;
use cc_check::{CheckFault, Summary, check_bytes};
use cc_meaning::fault::VerifyFault;
use cc_meaning::instruction::How;
use cc_test_programs::{
    AssemblyFault, Member, ProgramCode, ProgramTry, Step, build, class_of, code, function, main_of,
};
use std::alloc::Global;
use std::test::Fail;

/// A class that the file doesn't define, and whose name is that of an exception.
const FOO: &str = "Lx/FooException;";

const MAKE_FOO: Member<'static> = Member {
    class: FOO,
    name: "<init>",
    ty: "()V",
};

const TAKE_FOO: Member<'static> = Member {
    class: "LA;",
    name: "take",
    ty: "(Lx/FooException;)V",
};

/// `throw v0` and `move-exception v0`.
const THROW: [u16; 1] = [0x0027];

const MOVE_EXCEPTION: [u16; 1] = [0x000d];

/// The labels: what is tried begins and ends, and the handler.
const BEGIN: usize = 0;

const END: usize = 1;

const CAUGHT: usize = 2;

/// Makes an exception, throws it and catches it.
const THROWS: ProgramCode<'static> = ProgramCode {
    registers: 2,
    labels: 3,
    steps: &[
        Step::Place(BEGIN),
        Step::New(0, FOO),
        Step::Invoke(How::Direct, &[0], MAKE_FOO),
        Step::Units(&THROW),
        Step::Place(END),
        Step::Place(CAUGHT),
        Step::Units(&MOVE_EXCEPTION),
        Step::ReturnVoid,
    ],
    tries: &[ProgramTry {
        start: BEGIN,
        end: END,
        handlers: &[(FOO, CAUGHT)],
    }],
};

/// Hands a text to a method that takes an exception.
const HANDS_A_TEXT: ProgramCode<'static> = ProgramCode {
    registers: 2,
    labels: 0,
    steps: &[
        Step::Text(0, "t"),
        Step::Invoke(How::Static, &[0], TAKE_FOO),
        Step::ReturnVoid,
    ],
    tries: &[],
};

/// Hands an exception to it.
const HANDS_AN_EXCEPTION: ProgramCode<'static> = ProgramCode {
    registers: 2,
    labels: 0,
    steps: &[
        Step::New(0, FOO),
        Step::Invoke(How::Direct, &[0], MAKE_FOO),
        Step::Invoke(How::Static, &[0], TAKE_FOO),
        Step::ReturnVoid,
    ],
    tries: &[],
};

/// What a method that takes an exception is given and gives.
const OF_FOO: &str = "(Lx/FooException;)V";

/// Class A, whose `main` throws an exception and catches it.
fn throws(alloc: Global) -> Result<DexBuilder, AssemblyFault> {
    let take = code(2, 0, &[Step::ReturnVoid]);
    let methods = [main_of(THROWS), function("take", OF_FOO, take)];
    build(alloc, &[class_of("LA;", &methods)])
}

/// Class A, whose `main` hands an exception to a method that takes one.
fn hands_an_exception(alloc: Global) -> Result<DexBuilder, AssemblyFault> {
    let take = code(2, 0, &[Step::ReturnVoid]);
    let methods = [main_of(HANDS_AN_EXCEPTION), function("take", OF_FOO, take)];
    build(alloc, &[class_of("LA;", &methods)])
}

/// Class A, whose `main` hands a text to it.
fn hands_a_text(alloc: Global) -> Result<DexBuilder, AssemblyFault> {
    let take = code(2, 0, &[Step::ReturnVoid]);
    let methods = [main_of(HANDS_A_TEXT), function("take", OF_FOO, take)];
    build(alloc, &[class_of("LA;", &methods)])
}

#[test]
fn passes_a_throw(rt: HostRuntime) -> Result<(), Fail> {
    let alloc = rt.alloc();
    let file = throws(alloc)?.finish()?;
    let found = Summary {
        classes: 1,
        methods: 2,
        units: 9,
    };
    assert_eq!(rt; check_bytes(alloc, file.as_slice(), None)?, found);
    Ok(())
}

#[test]
fn passes_an_exception_as_argument(rt: HostRuntime) -> Result<(), Fail> {
    let alloc = rt.alloc();
    let file = hands_an_exception(alloc)?.finish()?;
    assert!(rt; check_bytes(alloc, file.as_slice(), None).is_ok());
    Ok(())
}

/// `const-string` has two units, so the call stands at 2.
#[test]
fn refuses_a_text_as_argument(rt: HostRuntime) -> Result<(), Fail> {
    let alloc = rt.alloc();
    let file = hands_a_text(alloc)?.finish()?;
    let found = check_bytes(alloc, file.as_slice(), None);
    let Err(CheckFault::Verify { fault, .. }) = found else {
        return Err("verified")?;
    };
    assert!(rt; matches!(fault, VerifyFault::IllTyped { pc: 2, .. }));
    Ok(())
}
