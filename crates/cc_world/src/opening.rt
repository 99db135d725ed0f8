//! The statics of a new world.

ghost use Rattle.std.specs.Prelude.{◌≡◌, [], ◌∷◌, ◌++◌, map, IfOk, OnOk};
ghost use Rattle.cc_meaning.specs.BuiltIn.{system_out_name};
ghost use Rattle.cc_meaning.specs.Kinds.{kind_of, zero_of};
ghost use Rattle.cc_meaning.specs.Names.{class_name, base_descriptor, descriptor, field_name};
ghost use Rattle.cc_meaning_world.specs.Opening.{opening_static};

use cc_list::List;
use cc_meaning::lists::{ClassIx, Units};
use cc_meaning::program::{Base, DexType, Field, Program};
use cc_meaning::value::{Value, Values};
use std::alloc::{AllocError, Global};

/// The number of the object of `System.out`.
pub(crate) const OUT_OBJECT: u32 = 0;

const BRACKET: u16 = 91;

fn add_ascii(name: &mut Units, text: &[u8]) -> Result<(), AllocError>
    ensures { OnOk result (name.new ≡ name.old ++ text.now) }
{
    for byte in text {
        name.push(u16::from(*byte))?;
    }
    Ok(())
}

fn add_class_name(name: &mut Units, program: &Program, class: ClassIx) -> Result<(), AllocError>
    ensures { OnOk result (name.new ≡ name.old ++ class_name program.now class) }
{
    match program.classes.get(class as usize) {
        Some(class) => name.extend_from_slice(class.name.as_slice()),
        None => Ok(()),
    }
}

fn add_base(name: &mut Units, program: &Program, base: Base) -> Result<(), AllocError>
    ensures { OnOk result (name.new ≡ name.old ++ base_descriptor program.now base) }
{
    match base {
        Base::Boolean => add_ascii(name, b"Z"),
        Base::Byte => add_ascii(name, b"B"),
        Base::Short => add_ascii(name, b"S"),
        Base::Char => add_ascii(name, b"C"),
        Base::Int => add_ascii(name, b"I"),
        Base::Long => add_ascii(name, b"J"),
        Base::Class(class) => add_class_name(name, program, class),
    }
}

fn add_descriptor(name: &mut Units, program: &Program, ty: DexType) -> Result<(), AllocError>
    ensures { OnOk result (name.new ≡ name.old ++ descriptor program.now ty) }
{
    for _ in 0..ty.dims {
        name.push(BRACKET)?;
    }
    add_base(name, program, ty.base)
}

/// A field's name as printed, as `Lc;->size:I`.
fn name_of_field(alloc: Global, program: &Program, field: &Field) -> Result<Units, AllocError>
    ensures { IfOk result (λ name. name ≡ field_name program.now field.now) }
{
    let mut name = List::new(alloc);
    add_class_name(&mut name, program, field.class)?;
    add_ascii(&mut name, b"->")?;
    name.extend_from_slice(field.name.as_slice())?;
    add_ascii(&mut name, b":")?;
    add_descriptor(&mut name, program, field.ty)?;
    Ok(name)
}

/// Zero or null.
fn zero(ty: DexType) -> Value
    ensures { result ≡ zero_of (kind_of ty) }
{
    if ty.dims > 0 {
        return Value::Obj(None);
    }
    match ty.base {
        Base::Long => Value::Long(0),
        Base::Class(_) => Value::Obj(None),
        _ => Value::Int(0),
    }
}

/// What a field holds before it is written. `out` is the name of `System.out`.
#[tactic(auto, unfolding(cc_meaning_world::specs::Opening::opening_static))]
fn opening(
    alloc: Global,
    out: &Units,
    program: &Program,
    field: &Field,
) -> Result<Value, AllocError>
    requires { out.now ≡ system_out_name }
    ensures { IfOk result (λ value. value ≡ opening_static program.now field.now) }
{
    let name = name_of_field(alloc, program, field)?;
    if name == *out {
        return Ok(Value::Obj(Some(OUT_OBJECT)));
    }
    Ok(zero(field.ty))
}

/// What each static holds before it is written.
#[tactic(auto, unfolding(cc_meaning::specs::BuiltIn::system_out_name))]
pub(crate) fn statics(alloc: Global, program: &Program) -> Result<Values, AllocError>
    ensures { IfOk result (λ values. values ≡ map (opening_static program.now) program.now.fields) }
{
    let mut out = List::new(alloc);
    add_ascii(&mut out, b"Ljava/lang/System;->out:Ljava/io/PrintStream;")?;
    let mut values = List::new(alloc);
    for field in program.fields.as_slice() {
        values.push(opening(alloc, &out, program, field)?)?;
    }
    Ok(values)
}
