//! The rows of prototypes.

ghost use Rattle.std.specs.Prelude.{◌≡◌, ◌↔◌, ◌++◌, ◌∷◌, ◌<◌, [], ℕ, List, Some, length, IfSome, IsTrue, MatchOption};
ghost use Rattle.std.specs.List.{flat_map};
ghost use Rattle.std.specs.Cmp.Lexicographic.{slice_cmp};
ghost use Rattle.std.specs.Ordering.{nat_cmp};
ghost use Rattle.cc_meaning_program.specs.Named.{type_name, prototype_of};
ghost use Rattle.cc_meaning_builder.specs.Tables.{prototype_key};
ghost use Rattle.cc_tables.specs.Params.{AreTypes, IsKeyed};
ghost use Rattle.cc_tables.specs.Rows.{IsOneRow, IsPrototypeNamed, TypesRise, ProtosRise, ProtosFit};

use crate::prototype::{behind_first, next_param, result_of};
use crate::text_rows::type_row;
use cc_meaning::file::{Ids, ProtoRow};
use cc_names::type_name;
use std::cmp::Ordering;

/// `(`, before the parameters.
const OPEN: [u16; 1] = [40];

/// `)`, between the parameters and the result.
const CLOSE: [u16; 1] = [41];

/// The row of the type of the first parameter that these units begin with, and what stands behind it; none where there is no parameter or no such type.
fn next_type<'a>(ids: &Ids, units: &'a [u16]) -> Option<(u32, &'a [u16])>
    requires { TypesRise ids.now }
    ensures { (types : List ℕ) (after : List ℕ) → AreTypes ids.now types after units.now →
        MatchOption result (types ≡ []) (λ next. (more : List ℕ) × (types ≡ next.0 ∷ more) × AreTypes ids.now more after next.1.now) }
{
    let (param, behind) = next_param(units)?;
    let row = type_row(ids, param)?;
    Some((row, behind))
}

/// The order of types of parameters, and of those that a name has: the first that differ decide.
fn compare_params(ids: &Ids, stated: &[u32], units: &[u16]) -> Ordering
    requires { TypesRise ids.now }
    ensures { (types : List ℕ) (after : List ℕ) → AreTypes ids.now types after units.now → result ≡ slice_cmp nat_cmp stated.now types }
{
    let mut rest = units;
    for one in stated {
        let Some((row, behind)) = next_type(ids, rest) else {
            return Ordering::Greater;
        };
        let order = one.cmp(&row);
        if !order.is_eq() {
            return order;
        }
        rest = behind;
    }
    match next_type(ids, rest) {
        Some(_) => Ordering::Less,
        None => Ordering::Equal,
    }
}

/// The order of a row of prototypes, and of a result's type and the types of the parameters that a name has.
fn compare_prototypes(ids: &Ids, stated: &ProtoRow, gives: u32, units: &[u16]) -> Ordering
    requires { TypesRise ids.now }
    ensures { (types : List ℕ) (after : List ℕ) → AreTypes ids.now types after units.now → result ≡ slice_cmp nat_cmp (prototype_key stated.now) (gives ∷ types) }
{
    let order = stated.result.cmp(&gives);
    if order.is_eq() {
        compare_params(ids, stated.params.as_slice(), units)
    } else {
        order
    }
}

/// What stands behind a text where these units begin with it.
fn behind<'a>(units: &'a [u16], text: &[u16]) -> Option<&'a [u16]>
    ensures { MatchOption result ((rest : List ℕ) → units.now ≡ text.now ++ rest → ⊥) (λ rest. units.now ≡ text.now ++ rest.now) }
{
    if units.len() < text.len() {
        return None;
    }
    let (front, rest) = units.split_at(text.len());
    if front == text { Some(rest) } else { None }
}

/// What stands behind the descriptors of types where these units begin with them.
fn behind_types<'a>(ids: &Ids, types: &[u32], units: &'a [u16]) -> Option<&'a [u16]>
    ensures { MatchOption result ((rest : List ℕ) → units.now ≡ flat_map (type_name ids.now) types.now ++ rest → ⊥)
        (λ rest. units.now ≡ flat_map (type_name ids.now) types.now ++ rest.now) }
{
    let mut rest = units;
    for row in types {
        rest = behind(rest, type_name(ids, *row))?;
    }
    Some(rest)
}

/// What stands behind `)` where a name begins with a row's parameters.
fn behind_params<'a>(ids: &Ids, prototype: &ProtoRow, name: &'a [u16]) -> Option<&'a [u16]>
    ensures { MatchOption result ((rest : List ℕ) → name.now ≡ 40 ∷ (flat_map (type_name ids.now) prototype.now.params ++ 41 ∷ rest) → ⊥)
        (λ rest. name.now ≡ 40 ∷ (flat_map (type_name ids.now) prototype.now.params ++ 41 ∷ rest.now)) }
{
    let params = behind(name, &OPEN)?;
    let close = behind_types(ids, prototype.params.as_slice(), params)?;
    behind(close, &CLOSE)
}

/// Whether a row of prototypes has this name.
fn is_named(ids: &Ids, prototype: &ProtoRow, name: &[u16]) -> bool
    ensures { IsTrue result ↔ (prototype_of ids.now (Some prototype.now) ≡ name.now) }
{
    match behind_params(ids, prototype, name) {
        Some(gives) => *gives == *type_name(ids, prototype.result),
        None => false,
    }
}

/// The number of the row of prototypes with a result's type and the types of the parameters that a name has, or `None` where there is no such row.
fn keyed_row(ids: &Ids, gives: u32, units: &[u16]) -> Option<u32>
    requires { ProtosRise ids.now }
    ensures keyed { (types : List ℕ) (after : List ℕ) → AreTypes ids.now types after units.now → IsOneRow (IsKeyed ids.now (gives ∷ types)) result }
    ensures there { IfSome result (λ number. number < length ids.now.protos) }
{
    match ids
        .protos
        .as_slice()
        .binary_search_by(|stated| compare_prototypes(ids, stated, gives, units))
    {
        Ok(place) => Some(place as u32),
        Err(_) => None,
    }
}

/// The number of the row of prototypes that has a name, as `(IJ)V`, or `None` where there is no such row.
///
/// Source: Dalvik Executable format, section proto_id_item.
pub fn proto_row(ids: &Ids, name: &[u16]) -> Option<u32>
    requires { ProtosRise ids.now }
    ensures { ProtosFit ids.now → IsOneRow (IsPrototypeNamed ids.now name.now) result }
{
    let params = behind_first(name);
    let gives = type_row(ids, result_of(params))?;
    let number = keyed_row(ids, gives, params)?;
    if is_named(ids, ids.protos.at(number as usize), name) {
        Some(number)
    } else {
        None
    }
}
