//! The files of these tests.

ghost use Rattle.std.specs.Prelude.{◌≡◌, ◌<◌, length, IfOk};

use cc_builder::DexBuilder;
use cc_meaning::instruction::{How, IntOp, Kind};
use cc_meaning::lists::Bytes;
use cc_test_programs::{AssemblyFault, Member, ProgramCode, Step, assemble};
use std::alloc::Global;

/// Access flags.
const PUBLIC: u32 = 0x1;

const PUBLIC_STATIC: u32 = 0x9;

const OBJECT: &str = "Ljava/lang/Object;";

/// What `main` is given and gives.
const OF_TEXTS: &str = "([Ljava/lang/String;)V";

/// `System.out`.
const OUT: Member<'static> = Member {
    class: "Ljava/lang/System;",
    name: "out",
    ty: "Ljava/io/PrintStream;",
};

/// Prints an int.
const PRINT_INT: Member<'static> = Member {
    class: "Ljava/io/PrintStream;",
    name: "println",
    ty: "(I)V",
};

/// A file of one class, A, below this one.
fn below(alloc: Global, superclass: &str) -> Result<DexBuilder, AssemblyFault>
    ensures { IfOk result (λ builder. length builder ≡ 1) }
{
    let mut builder = DexBuilder::new(alloc)?;
    builder.class("LA;", superclass, PUBLIC)?;
    Ok(builder)
}

/// Adds a static method to a class, with code of four registers.
fn add(
    alloc: Global,
    builder: &mut DexBuilder,
    class: u32,
    named: (&str, &str),
    steps: &[Step<'_>],
) -> Result<(), AssemblyFault>
    requires { class < length builder.old }
    ensures { length builder.new ≡ length builder.old }
{
    let code = ProgramCode {
        registers: 4,
        labels: 0,
        steps,
        tries: &[],
    };
    let listing = assemble(alloc, &code)?;
    builder.method(class, named.0, named.1, PUBLIC_STATIC, Some(listing))?;
    Ok(())
}

/// Adds a method that prints 3 + 4 to a class.
fn add_printing(
    alloc: Global,
    builder: &mut DexBuilder,
    class: u32,
    name: &str,
) -> Result<(), AssemblyFault>
    requires { class < length builder.old }
    ensures { length builder.new ≡ length builder.old }
{
    let steps = [
        Step::Static(Kind::Object, 0, OUT),
        Step::Const(1, 3),
        Step::Const(2, 4),
        Step::Op(IntOp::Add, 1, 2),
        Step::Invoke(How::Virtual, &[0, 1], PRINT_INT),
        Step::ReturnVoid,
    ];
    add(alloc, builder, class, (name, OF_TEXTS), &steps)
}

/// A file whose class A is below this one and prints 3 + 4 in its `main`.
fn prints_below(alloc: Global, superclass: &str) -> Result<DexBuilder, AssemblyFault>
    ensures { IfOk result (λ builder. length builder ≡ 1) }
{
    let mut builder = below(alloc, superclass)?;
    add_printing(alloc, &mut builder, 0, "main")?;
    Ok(builder)
}

/// The bytes of a file.
fn bytes(builder: &DexBuilder) -> Result<Bytes, AssemblyFault> {
    let bytes = builder.finish()?;
    Ok(bytes)
}

/// A program that prints 3 + 4.
pub fn prints_sum(alloc: Global) -> Result<Bytes, AssemblyFault> {
    bytes(&prints_below(alloc, OBJECT)?)
}

/// A class below itself.
pub fn extends_itself(alloc: Global) -> Result<Bytes, AssemblyFault> {
    bytes(&prints_below(alloc, "LA;")?)
}

/// A class below String.
pub fn extends_string(alloc: Global) -> Result<Bytes, AssemblyFault> {
    bytes(&prints_below(alloc, "Ljava/lang/String;")?)
}

/// A class that names no superclass.
pub fn extends_nothing(alloc: Global) -> Result<Bytes, AssemblyFault> {
    bytes(&prints_below(alloc, "")?)
}

/// A program whose `main` has another name.
pub fn misnames_main(alloc: Global) -> Result<Bytes, AssemblyFault> {
    let mut builder = below(alloc, OBJECT)?;
    add_printing(alloc, &mut builder, 0, "mein")?;
    bytes(&builder)
}

/// Two definitions of class A.
pub fn defines_twice(alloc: Global) -> Result<Bytes, AssemblyFault> {
    let mut builder = prints_below(alloc, OBJECT)?;
    let again = builder.class("LA;", OBJECT, PUBLIC)?;
    add_printing(alloc, &mut builder, again, "main")?;
    bytes(&builder)
}

/// That program with a method whose result is a double.
pub fn returns_double(alloc: Global) -> Result<Bytes, AssemblyFault> {
    let mut builder = prints_below(alloc, OBJECT)?;
    add(alloc, &mut builder, 0, ("half", "()D"), &[Step::ReturnVoid])?;
    bytes(&builder)
}

/// A file whose `main` has these units.
fn has_units(alloc: Global, units: &[u16]) -> Result<Bytes, AssemblyFault> {
    let mut builder = below(alloc, OBJECT)?;
    let steps = [Step::Units(units)];
    add(alloc, &mut builder, 0, ("main", OF_TEXTS), &steps)?;
    bytes(&builder)
}

/// Behind a `nop` an `invoke-static` of row 1 of the methods, of which there is one.
pub fn invokes_no_row(alloc: Global) -> Result<Bytes, AssemblyFault> {
    has_units(alloc, &[0x0000, 0x0071, 1, 0, 0x000e])
}

/// Class B and then class A, each with a `main` that returns at once.
pub fn has_two_mains(alloc: Global) -> Result<Bytes, AssemblyFault> {
    let main = ("main", OF_TEXTS);
    let mut builder = DexBuilder::new(alloc)?;
    let b = builder.class("LB;", OBJECT, PUBLIC)?;
    add(alloc, &mut builder, b, main, &[Step::ReturnVoid])?;
    let a = builder.class("LA;", OBJECT, PUBLIC)?;
    add(alloc, &mut builder, a, main, &[Step::ReturnVoid])?;
    bytes(&builder)
}

/// That program, but that its `main` adds a register that holds nothing.
pub fn adds_unset(alloc: Global) -> Result<Bytes, AssemblyFault> {
    let mut builder = below(alloc, OBJECT)?;
    let steps = [
        Step::Const(1, 3),
        Step::Op(IntOp::Add, 1, 2),
        Step::ReturnVoid,
    ];
    add(alloc, &mut builder, 0, ("main", OF_TEXTS), &steps)?;
    bytes(&builder)
}
