//! The units of texts and builders, and how values are printed.

ghost use Rattle.std.specs.Prelude.{◌≡◌, [], ◌∷◌, IfOk};
ghost use Rattle.std.specs.Fmt.{signed_decimal};
ghost use Rattle.std.specs.Option.{option_copied};
ghost use Rattle.cc_meaning_builtin.specs.Printing.{unit_of, truth_units};
ghost use Rattle.cc_builtin.specs.Parts.{text_at, builder_at, text_or_null_in, printed_in};

use cc_built_in::units_of;
use cc_heap::World;
use cc_list::List;
use cc_meaning::lists::{ObjId, Units};
use cc_meaning::value::{Object, Value};
use cc_meaning_builtin::builtin::Printed;
use std::alloc::{AllocError, Global};

/// The units of a text, where there is one of that number.
#[tactic(auto, unfolding(cc_meaning_builtin::specs::Calls::text_of))]
pub(crate) fn text(world: &World, id: ObjId) -> Option<&Units>
    ensures { option_copied result ≡ text_at world.now.world.objects id }
{
    if id >= world.len() {
        return None;
    }
    match world.get(id) {
        Object::Text(units) => Some(units),
        _ => None,
    }
}

/// The units of a builder, where there is one of that number.
#[tactic(auto, unfolding(cc_meaning_builtin::specs::Calls::builder_of))]
pub(crate) fn builder(world: &World, id: ObjId) -> Option<&Units>
    ensures { option_copied result ≡ builder_at world.now.world.objects id }
{
    if id >= world.len() {
        return None;
    }
    match world.get(id) {
        Object::Builder(units) => Some(units),
        _ => None,
    }
}

pub(crate) fn copy(alloc: Global, units: &[u16]) -> Result<Units, AllocError>
    ensures { IfOk result (λ copy. copy ≡ units.now) }
{
    let mut copy = List::new(alloc);
    copy.extend_from_slice(units)?;
    Ok(copy)
}

fn decimal(alloc: Global, number: i64) -> Result<Units, AllocError>
    ensures { IfOk result (λ units. units ≡ signed_decimal number) }
{
    let digits = number.to_string(alloc)?;
    units_of(alloc, digits.as_bytes())
}

fn truth(alloc: Global, number: i32) -> Result<Units, AllocError>
    ensures { IfOk result (λ units. units ≡ truth_units number) }
{
    if number == 0 {
        units_of(alloc, b"false")
    } else {
        units_of(alloc, b"true")
    }
}

/// The low 16 bits.
fn unit(alloc: Global, number: i32) -> Result<Units, AllocError>
    ensures { IfOk result (λ units. units ≡ unit_of number ∷ []) }
{
    let mut units = List::new(alloc);
    units.push((number.cast_unsigned() % 65536) as u16)?;
    Ok(units)
}

fn text_or_null(
    alloc: Global,
    world: &World,
    id: Option<ObjId>,
) -> Result<Option<Units>, AllocError>
    ensures { IfOk result (λ units. units ≡ text_or_null_in world.now.world.objects id) }
{
    let Some(id) = id else {
        return Ok(Some(units_of(alloc, b"null")?));
    };
    match text(world, id) {
        Some(units) => Ok(Some(copy(alloc, units.as_slice())?)),
        None => Ok(None),
    }
}

/// What is printed for a value, where it is one of that form.
pub(crate) fn printed(
    alloc: Global,
    world: &World,
    form: Printed,
    value: Value,
) -> Result<Option<Units>, AllocError>
    ensures { IfOk result (λ units. units ≡ printed_in world.now.world.objects form value) }
{
    match (form, value) {
        (Printed::Boolean, Value::Int(number)) => Ok(Some(truth(alloc, number)?)),
        (Printed::Char, Value::Int(number)) => Ok(Some(unit(alloc, number)?)),
        (Printed::Int, Value::Int(number)) => Ok(Some(decimal(alloc, i64::from(number))?)),
        (Printed::Long, Value::Long(number)) => Ok(Some(decimal(alloc, number)?)),
        (Printed::Text, Value::Obj(id)) => text_or_null(alloc, world, id),
        _ => Ok(None),
    }
}
