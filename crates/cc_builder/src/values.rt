//! The values that static fields begin with.

ghost use Rattle.std.specs.Prelude.{◌≡◌, map, take, IfOk, Some};
ghost use Rattle.std.specs.List.{filter};
ghost use Rattle.cc_meaning_builder.specs.Members.{zero_of, FieldBegins, IsRawValue};
ghost use Rattle.cc_meaning_builder.specs.Named.{value_names};
ghost use Rattle.cc_meaning_builder.specs.Tables.{AreOrdered};
ghost use Rattle.cc_tables.specs.Rows.{FewRows};
ghost use Rattle.cc_builder.specs.Known.{AreKnown};
ghost use Rattle.cc_builder.specs.Placed.{said_count};

use crate::fields::PlacedField;
use crate::rows::text_row;
use cc_list::List;
use cc_meaning::fault::Memory;
use cc_meaning::file::Ids;
use cc_meaning::listing::ListedValue;
use cc_meaning::program::{StaticValue, StaticValues};
use cc_meaning_builder::content::ListedField;
use std::alloc::Global;

/// `J`, the descriptor of a long.
const LONG: u16 = 74;

/// `L`, which begins a class's descriptor.
const CLASS: u16 = 76;

/// `[`, which begins an array's descriptor.
const ARRAY: u16 = 91;

/// What a field of a type begins with where nothing is said.
fn zero_of(kind: &[u16]) -> StaticValue
    ensures { result ≡ zero_of kind.now }
{
    match kind {
        [LONG, ..] => StaticValue::Long(0),
        [CLASS | ARRAY, ..] => StaticValue::Null,
        _ => StaticValue::Int(0),
    }
}

/// A value that is said, in a file's form.
fn raw_value(ids: &Ids, value: &ListedValue) -> StaticValue
    requires few { FewRows ids.now }
    requires ordered { AreOrdered ids.now }
    ensures { AreKnown ids.now (value_names (Some value.now)) → IsRawValue ids.now value.now result }
{
    match value {
        ListedValue::Int(number) => StaticValue::Int(*number),
        ListedValue::Long(number) => StaticValue::Long(*number),
        ListedValue::Text(units) => StaticValue::Text(text_row(ids, units.as_slice())),
        ListedValue::Null => StaticValue::Null,
    }
}

/// What a field begins with.
pub fn first_value(ids: &Ids, field: &ListedField) -> StaticValue
    requires few { FewRows ids.now }
    requires ordered { AreOrdered ids.now }
    ensures { AreKnown ids.now (value_names field.now.value) → FieldBegins ids.now field.now result }
{
    match &field.value {
        Some(value) => raw_value(ids, value),
        None => zero_of(field.kind.as_slice()),
    }
}

/// The values of the static ones of these fields, up to the last that is said.
pub fn static_values(alloc: Global, fields: &[PlacedField]) -> Result<StaticValues, Memory>
    ensures { IfOk result (λ values. values ≡ map (λ field. field.value)
        (take (said_count (filter (λ field. field.raw.is_static) fields.now)) (filter (λ field. field.raw.is_static) fields.now))) }
{
    let mut values = List::new(alloc);
    let mut said = 0;
    for field in fields {
        if field.raw.is_static {
            values.push(field.value)?;
            if field.is_said {
                said = values.len();
            }
        }
    }
    values.truncate(said);
    Ok(values)
}
