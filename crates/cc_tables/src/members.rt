//! The rows of fields and of methods.

ghost use Rattle.std.specs.Prelude.{◌≡◌, Some, slice_get};
ghost use Rattle.cc_meaning.specs.declared.listing.RowName.TheVariants as row;
ghost use Rattle.cc_tables.specs.Rows.{IsOneRow, IsRowOf, FieldsRise, FieldsFit, MethodsRise, MethodsFit};

use crate::prototypes::proto_row;
use crate::row_order::{compare_fields, compare_methods};
use crate::text_rows::{text_row, type_row};
use cc_meaning::file::{FieldRow, Ids, MethodRow};

/// The number of a row of fields, or `None` where it isn't there.
fn stated_field(ids: &Ids, wanted: FieldRow) -> Option<u32>
    requires { FieldsRise ids.now }
    ensures { IsOneRow (λ number. slice_get ids.now.fields number ≡ Some wanted) result }
{
    match ids
        .fields
        .as_slice()
        .binary_search_by(|other| compare_fields(*other, wanted))
    {
        Ok(place) => Some(place as u32),
        Err(_) => None,
    }
}

/// The number of a row of methods, or `None` where it isn't there.
fn stated_method(ids: &Ids, wanted: MethodRow) -> Option<u32>
    requires { MethodsRise ids.now }
    ensures { IsOneRow (λ number. slice_get ids.now.methods number ≡ Some wanted) result }
{
    match ids
        .methods
        .as_slice()
        .binary_search_by(|other| compare_methods(*other, wanted))
    {
        Ok(place) => Some(place as u32),
        Err(_) => None,
    }
}

/// The number of the row of fields that a class's descriptor, a name and a type's descriptor have, or `None` where there is no such row.
///
/// Source: Dalvik Executable format, section field_id_item.
pub fn field_row(ids: &Ids, class: &[u16], name: &[u16], kind: &[u16]) -> Option<u32>
    requires { FieldsRise ids.now }
    ensures { FieldsFit ids.now → IsRowOf ids.now (row.Field class.now name.now kind.now) result }
{
    let wanted = FieldRow {
        class: type_row(ids, class)?,
        kind: type_row(ids, kind)?,
        name: text_row(ids, name)?,
    };
    stated_field(ids, wanted)
}

/// The number of the row of methods that a class's descriptor, a name and a prototype, as `(IJ)V`, have, or `None` where there is no such row.
///
/// Source: Dalvik Executable format, section method_id_item.
pub fn method_row(ids: &Ids, class: &[u16], name: &[u16], proto: &[u16]) -> Option<u32>
    requires { MethodsRise ids.now }
    ensures { MethodsFit ids.now → IsRowOf ids.now (row.Method class.now name.now proto.now) result }
{
    let wanted = MethodRow {
        class: type_row(ids, class)?,
        proto: proto_row(ids, proto)?,
        name: text_row(ids, name)?,
    };
    stated_method(ids, wanted)
}
