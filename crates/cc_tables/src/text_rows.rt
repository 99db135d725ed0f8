//! The rows of texts and of types.

ghost use Rattle.std.specs.Prelude.{◌≡◌, ◌≢◌, [], Some, slice_get};
ghost use Rattle.cc_meaning.specs.declared.listing.RowName.TheVariants as row;
ghost use Rattle.cc_tables.specs.Rows.{IsDescribed, IsOneRow, IsRowOf, TextsRise, TypesRise, TypesFit};

use crate::row_order::compare_numbers;
use cc_meaning::file::Ids;
use cc_names::find;

/// The number of the row that a text has, or `None` where there is no such row.
///
/// Source: Dalvik Executable format, section string_id_item.
pub fn text_row(ids: &Ids, units: &[u16]) -> Option<u32>
    requires { TextsRise ids.now }
    ensures { IsRowOf ids.now (row.Text units.now) result }
{
    find(&ids.texts, units)
}

/// The number of the row of types that has this row of texts, or `None` where there is no such row.
fn typed_row(ids: &Ids, text: u32) -> Option<u32>
    requires { TypesRise ids.now }
    ensures { IsOneRow (λ number. slice_get ids.now.types number ≡ Some text) result }
{
    match ids
        .types
        .as_slice()
        .binary_search_by(|other| compare_numbers(*other, text))
    {
        Ok(place) => Some(place as u32),
        Err(_) => None,
    }
}

/// The number of the row of types whose text is this name, or `None` where there is no such row.
fn described_row(ids: &Ids, name: &[u16]) -> Option<u32>
    requires { TypesRise ids.now }
    ensures { IsOneRow (IsDescribed ids.now name.now) result }
{
    let text = text_row(ids, name)?;
    typed_row(ids, text)
}

/// The number of the row of types that a descriptor has, or `None` where there is no such row. For the empty name it is so where each type has a descriptor.
///
/// Source: Dalvik Executable format, section type_id_item.
pub fn type_row(ids: &Ids, name: &[u16]) -> Option<u32>
    requires { TypesRise ids.now }
    ensures named { name.now ≢ [] → IsRowOf ids.now (row.Class name.now) result }
    ensures fit { TypesFit ids.now → IsRowOf ids.now (row.Class name.now) result }
{
    described_row(ids, name)
}
