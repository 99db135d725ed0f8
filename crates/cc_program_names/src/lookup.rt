//! Classes and fields by their names.

ghost use Rattle.std.specs.Prelude.{◌≡◌, ◌^◌, ◌≤◌, length, IfOk};
ghost use Rattle.std.specs.Str.{bytes_eq};
ghost use Rattle.cc_meaning.specs.Lookup.{class_named, field_named};
ghost use Rattle.cc_meaning.specs.Names.{field_name};
ghost use Rattle.cc_meaning.specs.Order.{IsRisingByName};

use crate::names::{field_name, is_ascii};
use cc_meaning::lists::ClassIx;
use cc_meaning::program::{Field, Program};
use std::alloc::{AllocError, Global};

/// The class of a name, by binary search. Takes no memory.
pub fn class_named(program: &Program, name: &[u16]) -> Option<ClassIx>
    requires few { length program.now.classes ≤ 2 ^ 32 }
    requires rising { IsRisingByName program.now.classes }
    ensures { result ≡ class_named name.now program.now }
{
    match program
        .classes
        .as_slice()
        .binary_search_by(|class| class.name.as_slice().cmp(&name))
    {
        Ok(at) => Some(at as u32),
        Err(_) => None,
    }
}

/// Whether a field has a name of ASCII.
fn is_named(
    alloc: Global,
    program: &Program,
    field: &Field,
    name: &[u8],
) -> Result<bool, AllocError>
    ensures { IfOk result (λ found. found ≡ bytes_eq (field_name program.now field.now) name.now) }
{
    let spelled = field_name(alloc, program, field)?;
    Ok(is_ascii(spelled.as_slice(), name))
}

/// The place of the field of a name of ASCII as printed. It spells the fields one by one until one has that name.
pub fn field_named(
    alloc: Global,
    program: &Program,
    name: &[u8],
) -> Result<Option<usize>, AllocError>
    ensures { IfOk result (λ field. field ≡ field_named name.now program.now) }
{
    let fields = program.fields.as_slice();
    for at in 0..fields.len() {
        if is_named(alloc, program, &fields[at], name)? {
            return Ok(Some(at));
        }
    }
    Ok(None)
}
