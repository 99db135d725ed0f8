//! The parts of a prototype's name.

ghost use Rattle.std.specs.Prelude.{◌≡◌, ◌<◌, ◌++◌, ◌∷◌, [], ℕ, List, drop, length, IfOk, IfSome, MatchOption};
ghost use Rattle.cc_meaning_builder.specs.WellNamed.{IsPrototypeName};
ghost use Rattle.cc_tables.specs.Params.{AreParams, ends_params};
ghost use Rattle.cc_tables.specs.Rows.{IsSplit};

use crate::descriptor::descriptor_len;
use cc_list::List;
use cc_meaning::fault::Memory;
use cc_meaning::lists::{Texts, Units};
use std::alloc::{AllocError, Global};

/// `)`, between the parameters and the result.
const CLOSE: u16 = 41;

/// What stands behind the first unit.
pub fn behind_first(units: &[u16]) -> &[u16]
    ensures { result.now ≡ drop 1 units.now }
{
    match units {
        [_, rest @ ..] => rest,
        [] => &[],
    }
}

/// Whether no parameter stands in front: there is `)`, or nothing.
fn ends_params(units: &[u16]) -> bool
    ensures { result ≡ ends_params units.now }
{
    matches!(units, [] | [CLOSE, ..])
}

/// The first of the parameters that these units begin with, and what stands behind it; none before `)` and at the end.
pub fn next_param(units: &[u16]) -> Option<(&[u16], &[u16])>
    ensures next { (params : List (List ℕ)) (after : List ℕ) → AreParams params after units.now →
        MatchOption result (params ≡ []) (λ parts. (more : List (List ℕ)) × (params ≡ parts.0.now ∷ more) × AreParams more after parts.1.now) }
    ensures shorter { IfSome result (λ parts. length parts.1.now < length units.now) }
{
    if ends_params(units) {
        return None;
    }
    Some(units.split_at(descriptor_len(units)))
}

/// What stands behind parameters and the `)` that ends them.
pub fn result_of(units: &[u16]) -> &[u16]
    ensures { (params : List (List ℕ)) (after : List ℕ) → AreParams params after units.now → result.now ≡ after }
{
    let mut rest = units;
    while let Some((_, behind)) = next_param(rest) {
        rest = behind;
    }
    behind_first(rest)
}

/// The parameters that these units begin with, each by itself.
fn split_params(alloc: Global, units: &[u16]) -> Result<Texts, AllocError>
    ensures { IfOk result (λ split. (params : List (List ℕ)) (after : List ℕ) → AreParams params after units.now → split ≡ params) }
{
    let mut split = List::new(alloc);
    let mut rest = units;
    while let Some((param, behind)) = next_param(rest) {
        split.push(List::from_slice(alloc, param)?)?;
        rest = behind;
    }
    Ok(split)
}

/// The descriptors of the parameters and of the result of a prototype, as of `(IJ)V`.
///
/// # Errors
///
/// `Memory`: there is none.
///
/// Source: Dalvik Executable format, section proto_id_item.
pub fn split_prototype(alloc: Global, name: &[u16]) -> Result<(Texts, Units), Memory>
    ensures { IfOk result (λ parts. IsPrototypeName name.now → IsSplit name.now parts.0 parts.1) }
{
    let params = behind_first(name);
    let split = split_params(alloc, params)?;
    let gives = List::from_slice(alloc, result_of(params))?;
    Ok((split, gives))
}
