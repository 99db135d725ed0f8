//! Whole programs as lists of classes, with their code as steps.

ghost use Rattle.std.specs.Prelude.{◌≡◌, ◌<◌, length, IfOk};

use crate::assembler::{Assembler, Label};
use crate::fault::AssemblyFault;
use crate::steps::{Step, label_of};
use cc_builder::{DexBuilder, units_of};
use cc_list::List;
use cc_meaning::listing::Listing;
use cc_meaning::lists::Units;
use std::alloc::Global;

/// A class: its descriptor, access flags, interfaces and members. Its superclass is `Object`.
#[derive(Clone, Copy)]
pub struct ProgramClass<'a> {
    pub name: &'a str,
    pub flags: u32,
    pub interfaces: &'a [&'a str],
    pub fields: &'a [ProgramField<'a>],
    pub methods: &'a [ProgramMethod<'a>],
}

/// A field: its name, its type's descriptor and its access flags.
#[derive(Clone, Copy)]
pub struct ProgramField<'a> {
    pub name: &'a str,
    pub ty: &'a str,
    pub flags: u32,
}

/// A method: its name, its prototype, its access flags, and its code where it has some.
#[derive(Clone, Copy)]
pub struct ProgramMethod<'a> {
    pub name: &'a str,
    pub proto: &'a str,
    pub flags: u32,
    pub code: Option<ProgramCode<'a>>,
}

/// A method's code: its registers, how many labels it has, its steps, and its tries.
#[derive(Clone, Copy)]
pub struct ProgramCode<'a> {
    pub registers: u16,
    pub labels: usize,
    pub steps: &'a [Step<'a>],
    pub tries: &'a [ProgramTry<'a>],
}

/// A try: the labels between which it lies, and its handlers, each of a class and a label.
#[derive(Clone, Copy)]
pub struct ProgramTry<'a> {
    pub start: usize,
    pub end: usize,
    pub handlers: &'a [(&'a str, usize)],
}

const OBJECT: &str = "Ljava/lang/Object;";

/// So many labels.
fn labels(code: &mut Assembler, count: usize) -> Result<List<Label>, AssemblyFault> {
    let mut labels = List::new(code.alloc());
    for _ in 0..count {
        let label = code.label()?;
        labels.push(label)?;
    }
    Ok(labels)
}

/// The handlers of a try, with their labels.
fn handlers(
    alloc: Global,
    labels: &[Label],
    covered: &ProgramTry<'_>,
) -> Result<List<(Option<Units>, Label)>, AssemblyFault> {
    let mut handlers = List::new(alloc);
    for (class, label) in covered.handlers {
        let class = units_of(alloc, class)?;
        let label = label_of(labels, *label)?;
        handlers.push((Some(class), label))?;
    }
    Ok(handlers)
}

/// Covers what tries cover.
fn cover(
    code: &mut Assembler,
    labels: &[Label],
    tries: &[ProgramTry<'_>],
) -> Result<(), AssemblyFault> {
    for covered in tries {
        let handlers = handlers(code.alloc(), labels, covered)?;
        let start = label_of(labels, covered.start)?;
        let end = label_of(labels, covered.end)?;
        code.cover(start, end, handlers)?;
    }
    Ok(())
}

/// Adds steps.
fn put_steps(
    code: &mut Assembler,
    labels: &[Label],
    steps: &[Step<'_>],
) -> Result<(), AssemblyFault> {
    for step in steps {
        code.put_step(labels, step)?;
    }
    Ok(())
}

/// The listing of a method's code.
pub fn assemble(alloc: Global, code: &ProgramCode<'_>) -> Result<Listing, AssemblyFault> {
    let mut assembler = Assembler::new(alloc, code.registers);
    let labels = labels(&mut assembler, code.labels)?;
    put_steps(&mut assembler, labels.as_slice(), code.steps)?;
    cover(&mut assembler, labels.as_slice(), code.tries)?;
    assembler.finish()
}

/// The listing of code, where there is some.
fn listing(
    alloc: Global,
    code: &Option<ProgramCode<'_>>,
) -> Result<Option<Listing>, AssemblyFault> {
    match code {
        Some(code) => {
            let listing = assemble(alloc, code)?;
            Ok(Some(listing))
        }
        None => Ok(None),
    }
}

fn add_interfaces(
    builder: &mut DexBuilder,
    class: u32,
    interfaces: &[&str],
) -> Result<(), AssemblyFault>
    requires { class < length builder.old }
    ensures { length builder.new ≡ length builder.old }
{
    for interface in interfaces {
        builder.implements(class, interface)?;
    }
    Ok(())
}

fn add_fields(
    builder: &mut DexBuilder,
    class: u32,
    fields: &[ProgramField<'_>],
) -> Result<(), AssemblyFault>
    requires { class < length builder.old }
    ensures { length builder.new ≡ length builder.old }
{
    for field in fields {
        builder.field(class, field.name, field.ty, field.flags, None)?;
    }
    Ok(())
}

fn add_methods(
    alloc: Global,
    builder: &mut DexBuilder,
    class: u32,
    methods: &[ProgramMethod<'_>],
) -> Result<(), AssemblyFault>
    requires { class < length builder.old }
    ensures { length builder.new ≡ length builder.old }
{
    for method in methods {
        let code = listing(alloc, &method.code)?;
        builder.method(class, method.name, method.proto, method.flags, code)?;
    }
    Ok(())
}

/// Adds a class with its members.
fn add_class(
    alloc: Global,
    builder: &mut DexBuilder,
    class: &ProgramClass<'_>,
) -> Result<(), AssemblyFault> {
    let number = builder.class(class.name, OBJECT, class.flags)?;
    add_interfaces(builder, number, class.interfaces)?;
    add_fields(builder, number, class.fields)?;
    add_methods(alloc, builder, number, class.methods)
}

/// A builder of these classes.
pub fn build(alloc: Global, classes: &[ProgramClass<'_>]) -> Result<DexBuilder, AssemblyFault> {
    let mut builder = DexBuilder::new(alloc)?;
    for class in classes {
        add_class(alloc, &mut builder, class)?;
    }
    Ok(builder)
}
