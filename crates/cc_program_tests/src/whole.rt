//! A program, read as a whole.

use crate::reading::text;
use crate::sample::{has_two_mains, prints_sum};
use cc_meaning::instruction::{Insn, MethodRef};
use cc_meaning::program::{Code, Method, MethodKind, Program};
use cc_program::read_dex;
use std::alloc::Global;
use std::process::Abort;
use std::test::Fail;

/// The class of the file, the 26 built-in ones and the array of texts.
const CLASSES: usize = 28;

/// Some of them, by their places in the order of names.
const NAMES: [(usize, &str); 4] = [
    (0, "LA;"),
    (1, "Ljava/io/PrintStream;"),
    (18, "Ljava/lang/Object;"),
    (27, "[Ljava/lang/String;"),
];

/// The texts of the file in order: those that it names, and the short forms `VI` and `VL` of its prototypes.
const TEXTS: [&str; 12] = [
    "I",
    "LA;",
    "Ljava/io/PrintStream;",
    "Ljava/lang/Object;",
    "Ljava/lang/System;",
    "V",
    "VI",
    "VL",
    "[Ljava/lang/String;",
    "main",
    "out",
    "println",
];

/// The numbers of the class of `main`, of its superclass, and of the class of `System.out`.
const A: u32 = 0;

const OBJECT: u32 = 18;

const SYSTEM: u32 = 24;

/// One method of the file, and 68 built-in ones: of PrintStream 11, of Object 2, of String 3, of StringBuilder 8, of Throwable 3, of each of the 20 classes
/// below it 2, and of the array 1.
const METHODS: usize = 69;

/// The number of `println(I)V` of PrintStream: before it stand `main`, five methods `print`, `println()V` and `println(C)V`.
const PRINTLN_OF_INT: u32 = 8;

fn sample(alloc: Global) -> Result<Program, Fail> {
    let file = prints_sum(alloc)?;
    Ok(read_dex(alloc, file.as_slice(), None)?)
}

#[test]
fn reads_classes(rt: HostRuntime) -> Result<(), Fail> {
    let alloc = rt.alloc();
    let program = sample(alloc)?;
    assert_eq!(rt; program.classes.len(), CLASSES);
    for (place, want) in NAMES {
        let Some(class) = program.classes.get(place) else {
            return Err("no class")?;
        };
        assert_eq!(rt; text(alloc, class.name.as_slice())?.as_str(), want);
    }
    let Some(class) = program.classes.get(A as usize) else {
        return Err("no class")?;
    };
    assert_eq!(rt; class.superclass, Some(OBJECT));
    assert!(rt; class.layout.is_empty());
    assert!(rt; class.initialiser.is_none());
    assert!(rt; class.values.is_empty());
    Ok(())
}

#[test]
fn reads_texts_and_fields(rt: HostRuntime) -> Result<(), Fail> {
    let alloc = rt.alloc();
    let program = sample(alloc)?;
    assert_eq!(rt; program.texts.len(), TEXTS.len());
    for (units, want) in program.texts.iter().zip(TEXTS) {
        assert_eq!(rt; text(alloc, units.as_slice())?.as_str(), want);
    }
    assert_eq!(rt; program.fields.len(), 1);
    let Some(field) = program.fields.get(0) else {
        return Err("no field")?;
    };
    assert_eq!(rt; text(alloc, field.name.as_slice())?.as_str(), "out");
    assert_eq!(rt; field.class, SYSTEM);
    assert!(rt; field.is_static);
    Ok(())
}

/// Tries that a method is of this class and name.
fn expect_method(
    rt: &impl Abort,
    alloc: Global,
    method: &Method,
    class: u32,
    name: &str,
) -> Result<(), Fail> {
    assert_eq!(rt; method.class, class);
    assert_eq!(rt; text(alloc, method.name.as_slice())?.as_str(), name);
    assert_eq!(rt; method.params.len(), 1);
    assert!(rt; method.result.is_none());
    Ok(())
}

#[test]
fn reads_methods(rt: HostRuntime) -> Result<(), Fail> {
    let alloc = rt.alloc();
    let program = sample(alloc)?;
    assert_eq!(rt; program.methods.len(), METHODS);
    let Some(main) = program.methods.get(program.main as usize) else {
        return Err("no main")?;
    };
    expect_method(&rt, alloc, main, A, "main")?;
    assert!(rt; main.is_static);
    let Some(println) = program.methods.get(PRINTLN_OF_INT as usize) else {
        return Err("no println")?;
    };
    expect_method(&rt, alloc, println, 1, "println")?;
    assert!(rt; println.is_virtual);
    assert!(rt; matches!(println.kind, MethodKind::BuiltIn));
    Ok(())
}

/// The code of the method that a program begins with.
fn main_code(program: &Program) -> Option<&Code> {
    let main = program.methods.get(program.main as usize)?;
    match &main.kind {
        MethodKind::Code(code) => Some(code),
        _ => None,
    }
}

/// The number of the method that an instruction invokes.
fn invoked(insn: &Insn) -> Option<u32> {
    match insn {
        Insn::Invoke {
            named: MethodRef::Known { method, .. },
            ..
        } => Some(*method),
        _ => None,
    }
}

#[test]
fn reads_code(rt: HostRuntime) -> Result<(), Fail> {
    let program = sample(rt.alloc())?;
    let Some(code) = main_code(&program) else {
        return Err("no code")?;
    };
    assert_eq!(rt; (code.registers, code.ins), (4, 1));
    assert!(rt; code.tries.is_empty());
    let wanted = [
        (0, 2, None),
        (2, 1, None),
        (3, 1, None),
        (4, 1, None),
        (5, 3, Some(PRINTLN_OF_INT)),
        (8, 1, None),
    ];
    assert_eq!(rt; code.insns.len(), wanted.len());
    for (placed, (at, units, method)) in code.insns.iter().zip(wanted) {
        assert_eq!(rt; (placed.at, placed.units), (at, units));
        assert_eq!(rt; invoked(&placed.insn), method, "at {at}");
    }
    Ok(())
}

/// The name of the class whose method a program begins with.
fn main_class(program: &Program) -> Option<&[u16]> {
    let main = program.methods.get(program.main as usize)?;
    let class = program.classes.get(main.class as usize)?;
    Some(class.name.as_slice())
}

#[test]
fn begins_with_the_main_class(rt: HostRuntime) -> Result<(), Fail> {
    let alloc = rt.alloc();
    let file = has_two_mains(alloc)?;
    for (asked, want) in [(None, "LB;"), (Some("LA;"), "LA;"), (Some("LB;"), "LB;")] {
        let program = read_dex(alloc, file.as_slice(), asked)?;
        let Some(class) = main_class(&program) else {
            return Err("no class")?;
        };
        assert_eq!(rt; text(alloc, class)?.as_str(), want);
    }
    Ok(())
}
