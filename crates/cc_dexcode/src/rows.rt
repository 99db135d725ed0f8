//! What the tables of a file say of the rows that its classes name.

ghost use Rattle.std.specs.Prelude.{◌≡◌, ◌+◌, MatchOption, Some, None, IfSome};
ghost use Rattle.cc_meaning_dex.specs.Rows.{descriptor_of, is_same_type, is_field_of, is_method_of};
ghost use Rattle.cc_meaning_dex.specs.Members.{row_behind};
ghost use Rattle.cc_dexcode.specs.Finding.{Finds};

use crate::flaw::Flaw;
use cc_meaning::file::Ids;

/// The descriptor of a row of types, where there is such a row.
pub fn descriptor(ids: &Ids, row: u32) -> Option<&[u16]>
    ensures { MatchOption result (descriptor_of ids.now row ≡ None) (λ units. descriptor_of ids.now row ≡ Some units.now) }
{
    let text = *ids.types.get(row as usize)?;
    Some(ids.texts.get(text as usize)?.as_slice())
}

/// Whether two rows of types have the same descriptor. One row is compared with itself at once, since names may be long.
fn is_same_type(ids: &Ids, this: u32, that: u32) -> bool
    ensures { result ≡ is_same_type ids.now this that }
{
    match (descriptor(ids, this), descriptor(ids, that)) {
        (Some(name), Some(other)) => this == that || name == other,
        _ => false,
    }
}

/// Whether there is such a row of fields, and it names the class of this row of types.
pub fn is_field_of(ids: &Ids, class: u32, row: u32) -> bool
    ensures { result ≡ is_field_of ids.now class row }
{
    match ids.fields.get(row as usize) {
        Some(field) => is_same_type(ids, class, field.class),
        None => false,
    }
}

/// Whether there is such a row of methods, and it names the class of this row of types.
pub fn is_method_of(ids: &Ids, class: u32, row: u32) -> bool
    ensures { result ≡ is_method_of ids.now class row }
{
    match ids.methods.get(row as usize) {
        Some(method) => is_same_type(ids, class, method.class),
        None => false,
    }
}

/// The row that lies so far behind another.
pub fn row_behind(difference: u32, before: u32) -> Result<u32, Flaw>
    ensures { Finds (row_behind difference before) result }
{
    match before.checked_add(difference) {
        Some(row) => Ok(row),
        None => Err(Flaw::Malformed),
    }
}
