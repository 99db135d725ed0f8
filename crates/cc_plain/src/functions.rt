//! Functions in the order of their names.

ghost use Rattle.std.specs.Prelude.{◌≡◌, ◌≢◌, ◌↔◌, ◌<◌, ◌≤◌, ◌-◌, ℕ, List, map, length, Some, IsTrue, IfOk, MatchOption, slice_get};
ghost use Rattle.std.specs.List.Sorted.{IsPermutation};
ghost use Rattle.cc_meaning.specs.Order.{IsRising};
ghost use Rattle.cc_meaning_plain.specs.declared.plain.PlainFunction.{PlainFunction};
ghost use Rattle.cc_meaning_plain.specs.Plain.{name_of};

use cc_meaning_plain::{PlainFunction, PlainFunctions};
use std::alloc::AllocError;

/// Whether each function's name comes before that of the next one, and so of all later ones.
fn is_rising(functions: &[PlainFunction]) -> bool
    ensures { IsTrue result ↔ IsRising (map name_of functions.now) }
{
    for at in 1..functions.len() {
        if !functions[at - 1].name.cmp(&functions[at].name).is_lt() {
            return false;
        }
    }
    true
}

/// The functions in the order of their names, where no two have one name.
pub fn in_order(functions: PlainFunctions) -> Result<Option<PlainFunctions>, AllocError>
    ensures { IfOk result (λ sorted. MatchOption sorted
        ((all : List PlainFunction) → IsPermutation functions all → IsRising (map name_of all) → ⊥)
        (λ all. IsPermutation functions all × IsRising (map name_of all))) }
{
    let mut functions = functions.into_vec();
    functions.sort_by(|a, b| a.name.cmp(&b.name))?;
    if !is_rising(functions.as_slice()) {
        return Ok(None);
    }
    Ok(Some(PlainFunctions::from_vec(functions)))
}

/// The place of the function of this name.
pub fn place_of(functions: &[PlainFunction], name: &[u16]) -> Option<usize>
    requires { IsRising (map name_of functions.now) }
    ensures { MatchOption result
        ((place : ℕ) → slice_get (map name_of functions.now) place ≢ Some name.now)
        (λ place. slice_get (map name_of functions.now) place ≡ Some name.now) }
{
    functions
        .binary_search_by(|function| function.name.as_slice().cmp(name))
        .ok()
}
