//! How many registers arguments take: two for a long and a double, one for all else.

use crate::class_reading::{expect_fault, read};
use crate::classes_sample::{PUBLIC, STATIC, direct_method, listing, simple};
use crate::draft::Draft;
use cc_builder::DexBuilder;
use cc_meaning::fault::Memory;
use cc_meaning::lists::Bytes;
use std::alloc::Global;
use std::process::Abort;
use std::test::Fail;

/// More registers than any of these methods takes for its arguments.
const REGISTERS: u16 = 9;

/// A file with one class and one method, of this prototype, with code.
fn file_with(alloc: Global, proto: &str, flags: u32) -> Result<Bytes, Memory> {
    let mut builder = DexBuilder::new(alloc)?;
    let class = builder.class("LA;", "", PUBLIC)?;
    let code = listing(alloc, REGISTERS, &[0x000e])?;
    builder.method(class, "m", proto, flags, Some(code))?;
    builder.finish()
}

/// Tries that the builder writes so many registers for the arguments of the file's method, and that these are read again.
fn expect_built(rt: &impl Abort, file: &Bytes, alloc: Global, ins: u16) -> Result<(), Fail> {
    let classes = read(alloc, file.as_slice())?;
    let Some(class) = classes.get(0) else {
        return Err("no class")?;
    };
    let Some(method) = class.methods.get(0) else {
        return Err("no method")?;
    };
    let Some(code) = &method.code else {
        return Err("no code")?;
    };
    assert_eq!(rt; (code.registers, code.ins), (REGISTERS, ins));
    Ok(())
}

/// Tries what reading the file comes to where its method takes so many registers for its arguments.
fn expect_judged(
    rt: &impl Abort,
    file: &Bytes,
    alloc: Global,
    stated: (u32, u16),
    want: &str,
) -> Result<(), Fail> {
    let (flags, ins) = stated;
    let mut draft = Draft::of(alloc, file.copy()?);
    let at = draft.put_code(&simple(alloc, REGISTERS, ins)?)?;
    draft.put_members(0, &[], &[direct_method(0, flags, at)])?;
    expect_fault(rt, draft, want)
}

/// Tries that a method of this prototype and these flags takes so many registers for its arguments, and no more or fewer.
fn expect_width(
    rt: &impl Abort,
    alloc: Global,
    proto: &str,
    flags: u32,
    ins: u16,
) -> Result<(), Fail> {
    let file = file_with(alloc, proto, flags)?;
    expect_built(rt, &file, alloc, ins)?;
    let wrong = "BadCode { method: 0 }";
    expect_judged(rt, &file, alloc, (flags, ins), "")?;
    expect_judged(rt, &file, alloc, (flags, ins.saturating_sub(1)), wrong)?;
    expect_judged(rt, &file, alloc, (flags, ins.saturating_add(1)), wrong)
}

#[test]
fn double_takes_two(rt: HostRuntime) -> Result<(), Fail> {
    expect_width(&rt, rt.alloc(), "(D)V", STATIC, 2)?;
    expect_width(&rt, rt.alloc(), "(D)V", PUBLIC, 3)
}

#[test]
fn array_of_doubles_takes_one(rt: HostRuntime) -> Result<(), Fail> {
    expect_width(&rt, rt.alloc(), "([D)V", STATIC, 1)?;
    expect_width(&rt, rt.alloc(), "([D)V", PUBLIC, 2)
}

#[test]
fn float_takes_one(rt: HostRuntime) -> Result<(), Fail> {
    expect_width(&rt, rt.alloc(), "(FD)V", STATIC, 3)?;
    expect_width(&rt, rt.alloc(), "(FD)V", PUBLIC, 4)
}

#[test]
fn double_and_long_take_four(rt: HostRuntime) -> Result<(), Fail> {
    expect_width(&rt, rt.alloc(), "(DJ)V", STATIC, 4)?;
    expect_width(&rt, rt.alloc(), "(DJ)V", PUBLIC, 5)
}
