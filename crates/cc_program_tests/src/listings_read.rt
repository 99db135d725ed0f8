//! What is read of built files.

use cc_builder::DexBuilder;
use cc_meaning::program::{Method, MethodKind, Program};
use cc_program::read_dex;
use cc_test_programs::{link_nodes, measure_square, print_sum};
use std::alloc::{AllocError, Global};
use std::test::Fail;

/// The text of units of ASCII.
fn text(alloc: Global, units: &[u16]) -> Result<String, AllocError> {
    let mut text = String::new(alloc);
    for unit in units {
        text.push(char::from((*unit % 128) as u8))?;
    }
    Ok(text)
}

/// The program of a built file.
fn read(alloc: Global, builder: &DexBuilder) -> Result<Program, Fail> {
    let file = builder.finish()?;
    let program = read_dex(alloc, file.as_slice(), None)?;
    Ok(program)
}

/// How many instructions a method has.
fn count(method: &Method) -> usize {
    match &method.kind {
        MethodKind::Code(code) => code.insns.len(),
        _ => 0,
    }
}

/// The names of methods with code, with how many instructions each has.
fn coded(alloc: Global, program: &Program) -> Result<String, AllocError> {
    let mut all = String::new(alloc);
    for method in &program.methods {
        let instructions = count(method);
        if instructions > 0 {
            let name = text(alloc, method.name.as_slice())?;
            let one = format!(in alloc; "{name} {instructions} ")?;
            all.push_str(&one)?;
        }
    }
    Ok(all)
}

#[test]
fn reads_a_sum(rt: HostRuntime) -> Result<(), Fail> {
    let alloc = rt.alloc();
    let program = read(alloc, &print_sum(alloc)?)?;
    assert!(rt; coded(alloc, &program)?.as_str() == "main 6 ");
    Ok(())
}

/// In the order of whole names, `LCfg;->`, `LK;->` and `LSq;->`.
#[test]
fn reads_shapes(rt: HostRuntime) -> Result<(), Fail> {
    let alloc = rt.alloc();
    let program = read(alloc, &measure_square(alloc)?)?;
    assert!(rt; coded(alloc, &program)?.as_str() == "<clinit> 3 main 15 work 7 <init> 3 area 3 ");
    Ok(())
}

#[test]
fn reads_nodes(rt: HostRuntime) -> Result<(), Fail> {
    let alloc = rt.alloc();
    let program = read(alloc, &link_nodes(alloc)?)?;
    assert!(rt; coded(alloc, &program)?.as_str() == "f 8 main 27 <init> 2 ");
    Ok(())
}
