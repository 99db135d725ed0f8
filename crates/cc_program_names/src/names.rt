//! Names as units of UTF-16.

ghost use Rattle.std.specs.Prelude.{◌≡◌, ◌++◌, IfOk, OnOk};
ghost use Rattle.std.specs.Str.{bytes_eq};
ghost use Rattle.cc_meaning.specs.Names.{class_name, base_descriptor, descriptor, field_name};

use cc_list::List;
use cc_meaning::lists::{ClassIx, Units};
use cc_meaning::program::{Base, DexType, Field, Program};
use std::alloc::{AllocError, Global};

/// `[`, which stands once for each dimension of an array.
const BRACKET: u16 = 91;

/// Whether units spell a text of ASCII. Takes no memory.
pub fn is_ascii(units: &[u16], text: &[u8]) -> bool
    ensures { result ≡ bytes_eq units.now text.now }
{
    if units.len() != text.len() {
        return false;
    }
    for at in 0..units.len() {
        if units[at] != u16::from(text[at]) {
            return false;
        }
    }
    true
}

/// Adds a text of ASCII.
pub fn add_ascii(name: &mut Units, text: &[u8]) -> Result<(), AllocError>
    ensures { OnOk result (name.new ≡ name.old ++ text.now) }
{
    for byte in text {
        name.push(u16::from(*byte))?;
    }
    Ok(())
}

/// Adds the name of the class of a number, nothing where there is none.
pub fn add_class_name(name: &mut Units, program: &Program, class: ClassIx) -> Result<(), AllocError>
    ensures { OnOk result (name.new ≡ name.old ++ class_name program.now class) }
{
    match program.classes.get(class as usize) {
        Some(class) => name.extend_from_slice(class.name.as_slice()),
        None => Ok(()),
    }
}

fn add_base(name: &mut Units, program: &Program, base: Base) -> Result<(), AllocError>
    ensures { OnOk result (name.new ≡ name.old ++ base_descriptor program.now base) }
{
    match base {
        Base::Boolean => add_ascii(name, b"Z"),
        Base::Byte => add_ascii(name, b"B"),
        Base::Short => add_ascii(name, b"S"),
        Base::Char => add_ascii(name, b"C"),
        Base::Int => add_ascii(name, b"I"),
        Base::Long => add_ascii(name, b"J"),
        Base::Class(class) => add_class_name(name, program, class),
    }
}

/// Adds the descriptor of a type.
/// Source: Dalvik Executable format, section TypeDescriptor Semantics.
pub fn add_descriptor(name: &mut Units, program: &Program, ty: DexType) -> Result<(), AllocError>
    ensures { OnOk result (name.new ≡ name.old ++ descriptor program.now ty) }
{
    for _ in 0..ty.dims {
        name.push(BRACKET)?;
    }
    add_base(name, program, ty.base)
}

/// A field's name as printed, as `Lc;->size:I`.
pub fn field_name(alloc: Global, program: &Program, field: &Field) -> Result<Units, AllocError>
    ensures { IfOk result (λ name. name ≡ field_name program.now field.now) }
{
    let mut name = List::new(alloc);
    add_class_name(&mut name, program, field.class)?;
    add_ascii(&mut name, b"->")?;
    name.extend_from_slice(field.name.as_slice())?;
    add_ascii(&mut name, b":")?;
    add_descriptor(&mut name, program, field.ty)?;
    Ok(name)
}
