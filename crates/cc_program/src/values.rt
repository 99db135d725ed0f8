//! The values of static fields.

ghost use Rattle.std.specs.Prelude.{◌≡◌, ◌<◌, ◌≤◌, ◌^◌, ℕ, Some, Contains, length, slice_get, IfOk};
ghost use Rattle.cc_meaning.specs.Kinds.{kind_of};
ghost use Rattle.cc_meaning.specs.declared.program.StaticValue.TheVariants.{Text};
ghost use Rattle.cc_meaning_program.specs.Programs.{zero_value, zero_of_field};
ghost use Rattle.cc_program.specs.Values.{listed_at, IsNumbered, Holds, AreHeld};

use cc_list::List;
use cc_meaning::lists::FieldIx;
use cc_meaning::program::{Base, DexType, Field, StaticValue, StaticValues};
use cc_meaning_program::{FieldPlan, FieldSource};
use std::alloc::{AllocError, Global};

/// What a static field of this type holds for which no value is listed.
#[tactic(auto, unfolding(cc_meaning_program::specs::Programs::zero_value))]
fn zero_of(ty: DexType) -> StaticValue
    ensures { result ≡ zero_value (kind_of ty) }
{
    if ty.dims != 0 {
        return StaticValue::Null;
    }
    match ty.base {
        Base::Class(_) => StaticValue::Null,
        Base::Long => StaticValue::Long(0),
        Base::Boolean | Base::Byte | Base::Short | Base::Char | Base::Int => StaticValue::Int(0),
    }
}

/// What the field of a number holds for which no value is listed.
#[tactic(auto, unfolding(cc_meaning_program::specs::Programs::zero_of_field))]
fn zero_of_field(fields: &[Field], number: FieldIx) -> StaticValue
    ensures { result ≡ zero_of_field (slice_get fields.now number) }
{
    match fields.get(number as usize) {
        Some(field) => zero_of(field.ty),
        None => StaticValue::Null,
    }
}

/// Of the values that a class lists, the one for the field of a number.
#[tactic(auto, unfolding(crate::specs::Values::listed_at, crate::specs::Values::listed_for))]
fn listed_at(plans: &[FieldPlan], listed: &[StaticValue], number: FieldIx) -> Option<StaticValue>
    ensures { result ≡ listed_at plans.now listed.now number }
{
    match plans.get(number as usize)?.source {
        FieldSource::File { place } => listed.get(place as usize).copied(),
        FieldSource::Out | FieldSource::Outside { .. } => None,
    }
}

/// A listed value with the number of a text in place of its row.
fn numbered(texts: &[u32], listed: StaticValue) -> StaticValue
    requires { (row : ℕ) → listed ≡ Text row → row < length texts.now }
    ensures { IsNumbered texts.now listed result }
{
    match listed {
        StaticValue::Text(row) => StaticValue::Text(texts[row as usize]),
        other => other,
    }
}

/// What the field of a number holds.
fn held(
    fields: &[Field],
    texts: &[u32],
    number: FieldIx,
    listed: Option<StaticValue>,
) -> StaticValue
    requires { (row : ℕ) → listed ≡ Some (Text row) → row < length texts.now }
    ensures { Holds fields.now texts.now number listed result }
{
    match listed {
        Some(value) => numbered(texts, value),
        None => zero_of_field(fields, number),
    }
}

/// The values of these static fields of a class, up to the last for which the class lists one.
/// Source: Dalvik Executable format, section encoded_array_item.
pub(crate) fn values(
    alloc: Global,
    fields: &[Field],
    plans: &[FieldPlan],
    listed: &[StaticValue],
    texts: &[u32],
    own: &[FieldIx],
) -> Result<StaticValues, AllocError>
    requires { (row : ℕ) → Contains listed.now (Text row) → row < length texts.now }
    ensures { IfOk result (AreHeld fields.now plans.now listed.now texts.now own.now) }
{
    let mut values = StaticValues::new(alloc);
    let mut kept = 0;
    for number in own {
        let value = listed_at(plans, listed, *number);
        values.push(held(fields, texts, *number, value))?;
        if value.is_some() {
            kept = values.len();
        }
    }
    values.truncate(kept);
    Ok(values)
}
