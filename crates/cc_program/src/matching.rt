//! The name of a row of methods within its class, compared with a text without being built.

ghost use Rattle.std.specs.Prelude.{◌≡◌, slice_get};
ghost use Rattle.std.specs.List.{flat_map};
ghost use Rattle.std.specs.Option.{option_copied};
ghost use Rattle.std.specs.Str.{bytes_eq};
ghost use Rattle.cc_meaning_program.specs.Named.{method_member, prototype_of, type_name};
ghost use Rattle.cc_program.specs.Matching.{without};

use cc_meaning::file::Ids;
use cc_names::{text, type_name};

/// What is left of a text behind units, where it begins with them.
#[tactic(auto, using(crate::proofs::Matches::nothing_left), unfolding(crate::specs::Matching::without))]
fn behind<'a>(text: &'a [u8], units: &[u16]) -> Option<&'a [u8]>
    ensures { option_copied result ≡ without text.now units.now }
{
    let mut rest = text;
    for unit in units {
        match rest.split_first() {
            Some((first, more)) => {
                if u16::from(*first) != *unit {
                    return None;
                }
                rest = more;
            }
            None => return None,
        }
    }
    Some(rest)
}

/// What is left behind the descriptor of a row of types.
fn behind_type<'a>(text: &'a [u8], ids: &Ids, row: u32) -> Option<&'a [u8]>
    ensures { option_copied result ≡ without text.now (type_name ids.now row) }
{
    behind(text, type_name(ids, row))
}

/// What is left behind the descriptors of rows of types.
#[tactic(auto, using(crate::proofs::Matches::next_type, crate::proofs::Matches::no_type), unfolding(crate::specs::Matching::without))]
fn behind_types<'a>(text: &'a [u8], ids: &Ids, types: &[u32]) -> Option<&'a [u8]>
    ensures { option_copied result ≡ without text.now (flat_map (type_name ids.now) types.now) }
{
    let mut rest = text;
    for row in types {
        rest = behind_type(rest, ids, *row)?;
    }
    Some(rest)
}

/// What is left behind the parameters and the result of a row of prototypes.
#[tactic(auto, using(crate::proofs::Matches::behind_both), unfolding(crate::specs::Matching::without, cc_meaning_program::specs::Named::prototype_of))]
fn behind_prototype<'a>(text: &'a [u8], ids: &Ids, row: u32) -> Option<&'a [u8]>
    ensures { option_copied result ≡ without text.now (prototype_of ids.now (slice_get ids.now.protos row)) }
{
    match ids.protos.get(row as usize) {
        Some(prototype) => {
            let params = behind(text, &[b'(' as u16])?;
            let closing = behind_types(params, ids, prototype.params.as_slice())?;
            let answer = behind(closing, &[b')' as u16])?;
            behind_type(answer, ids, prototype.result)
        }
        None => Some(text),
    }
}

/// What is left behind the name within its class of a row of methods.
#[tactic(auto, using(crate::proofs::Matches::behind_both), unfolding(crate::specs::Matching::without, cc_meaning_program::specs::Named::method_member, cc_meaning_program::specs::Named::method_within))]
fn behind_member<'a>(wanted: &'a [u8], ids: &Ids, row: u32) -> Option<&'a [u8]>
    ensures { option_copied result ≡ without wanted.now (method_member ids.now row) }
{
    match ids.methods.get(row as usize) {
        Some(method) => {
            let rest = behind(wanted, text(ids, method.name))?;
            behind_prototype(rest, ids, method.proto)
        }
        None => Some(wanted),
    }
}

/// Whether a text is the name within its class of a row of methods.
#[tactic(auto, using(crate::proofs::Matches::whole_of, crate::proofs::Matches::not_whole))]
pub fn is_member(ids: &Ids, row: u32, wanted: &[u8]) -> bool
    ensures { result ≡ bytes_eq (method_member ids.now row) wanted.now }
{
    match behind_member(wanted, ids, row) {
        Some(rest) => rest.is_empty(),
        None => false,
    }
}
