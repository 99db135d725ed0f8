//! The fields of a class.

ghost use Rattle.std.specs.Prelude.{◌≡◌, map, IfOk};
ghost use Rattle.std.specs.List.{flat_map};
ghost use Rattle.cc_meaning_dex.specs.Classes.{EachPair};
ghost use Rattle.cc_meaning_builder.specs.Named.{field_names};
ghost use Rattle.cc_meaning_builder.specs.Tables.{AreOrdered};
ghost use Rattle.cc_tables.specs.Rows.{FewRows};
ghost use Rattle.cc_builder.specs.Known.{AreKnown};
ghost use Rattle.cc_builder.specs.Placed.{AreSortedFields, IsPlacedField};

use crate::flags::{STATIC, has_flag, list_place};
use crate::rows::field_row;
use crate::values::first_value;
use cc_list::List;
use cc_meaning::fault::Memory;
use cc_meaning::file::{Ids, RawField, RawFields};
use cc_meaning::program::StaticValue;
use cc_meaning_builder::content::ListedField;
use std::alloc::Global;

/// A field with its row, what it begins with, and whether that is said.
#[derive(Clone, Copy)]
pub struct PlacedField {
    pub raw: RawField,
    pub value: StaticValue,
    pub is_said: bool,
}

/// A field of a class with its row.
fn placed_field(ids: &Ids, class: &[u16], field: &ListedField) -> PlacedField
    requires few { FewRows ids.now }
    requires ordered { AreOrdered ids.now }
    ensures { AreKnown ids.now (field_names class.now field.now) → IsPlacedField ids.now class.now field.now result }
{
    let raw = RawField {
        row: field_row(ids, class, field.name.as_slice(), field.kind.as_slice()),
        flags: field.flags,
        is_static: has_flag(field.flags, STATIC),
    };
    PlacedField {
        raw,
        value: first_value(ids, field),
        is_said: field.value.is_some(),
    }
}

/// The fields of a class with their rows, in the order in which they were added.
fn placed_fields(
    alloc: Global,
    ids: &Ids,
    class: &[u16],
    fields: &[ListedField],
) -> Result<List<PlacedField>, Memory>
    requires few { FewRows ids.now }
    requires ordered { AreOrdered ids.now }
    ensures { IfOk result (λ placed. AreKnown ids.now (flat_map (field_names class.now) fields.now) → EachPair (IsPlacedField ids.now class.now) fields.now placed) }
{
    let mut placed = List::new(alloc);
    for field in fields {
        placed.push(placed_field(ids, class, field))?;
    }
    Ok(placed)
}

/// The fields of a class with their rows, in the order of a file.
pub fn sorted_fields(
    alloc: Global,
    ids: &Ids,
    class: &[u16],
    fields: &[ListedField],
) -> Result<List<PlacedField>, Memory>
    requires few { FewRows ids.now }
    requires ordered { AreOrdered ids.now }
    ensures { IfOk result (λ placed. AreKnown ids.now (flat_map (field_names class.now) fields.now) → AreSortedFields ids.now class.now fields.now placed) }
{
    let mut placed = placed_fields(alloc, ids, class, fields)?.into_vec();
    placed.sort_by_key(|field| list_place(field.raw.is_static, field.raw.row))?;
    Ok(List::from_vec(placed))
}

/// The fields without what they begin with.
pub fn raw_fields(alloc: Global, placed: &[PlacedField]) -> Result<RawFields, Memory>
    ensures { IfOk result (λ fields. fields ≡ map (λ field. field.raw) placed.now) }
{
    let mut fields = List::new(alloc);
    for field in placed {
        fields.push(field.raw)?;
    }
    Ok(fields)
}
