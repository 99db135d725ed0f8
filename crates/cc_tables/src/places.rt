//! The places of rows in their tables. Where there is no such row, it is the number of rows that there are.

ghost use Rattle.std.specs.Prelude.{◌≡◌};
ghost use Rattle.cc_tables.specs.Made.{AreProtosMade, AreTextsMade, AreTypesMade};
ghost use Rattle.cc_tables.specs.Places.{proto_place, text_place, type_place};

use crate::order::{compare_protos, compare_types};
use cc_meaning::file::{Ids, ProtoRow};
use cc_names::find;

/// The row of a text.
pub fn text_place(ids: &Ids, units: &[u16]) -> u32
    requires { AreTextsMade ids.now }
    ensures { result ≡ text_place ids.now units.now }
{
    match find(&ids.texts, units) {
        Some(place) => place,
        None => ids.texts.len() as u32,
    }
}

/// The row of a type, by its descriptor.
pub fn type_place(ids: &Ids, name: &[u16]) -> u32
    requires { AreTypesMade ids.now }
    ensures { result ≡ type_place ids.now name.now }
{
    let text = text_place(ids, name);
    match ids
        .types
        .as_slice()
        .binary_search_by(|other| compare_types(*other, text))
    {
        Ok(place) => place as u32,
        Err(_) => ids.types.len() as u32,
    }
}

/// The row of a prototype.
pub fn proto_place(ids: &Ids, prototype: &ProtoRow) -> u32
    requires { AreProtosMade ids.now }
    ensures { result ≡ proto_place ids.now prototype.now }
{
    match ids
        .protos
        .as_slice()
        .binary_search_by(|other| compare_protos(other, prototype))
    {
        Ok(place) => place as u32,
        Err(_) => ids.protos.len() as u32,
    }
}
