//! Members that the file defines in a class, in those above it, and in the interfaces of all of these.

ghost use Rattle.std.specs.Prelude.{◌≡◌, ◌<◌, ℕ, List, length, Contains, IfOk, OnOk};
ghost use Rattle.std.specs.List.{flat_map};
ghost use Rattle.cc_meaning_program.specs.Ancestry.{interfaces_named};
ghost use Rattle.cc_meaning_program.specs.Outlines.{AreNumbersOf};
ghost use Rattle.cc_owners.specs.Known.{IsKnown};
ghost use Rattle.cc_owners.specs.Entered.{AreOlder, OnlyMarked, AreEntered, IsFoundAbove, IsFoundInMethodOrder};

use crate::linked::Linked;
use crate::place::{Found, first_among, is_nowhere};
use crate::search::{Marks, first_above};
use cc_meaning::lists::ClassIx;
use cc_program_laws::interfaces_have_lists;
use std::alloc::{AllocError, Global};

/// The first of the interfaces that these classes name, each followed by those above it, in which the file defines the member of a row's name.
fn first_of_interfaces(
    alloc: Global,
    linked: &Linked<'_>,
    classes: &[ClassIx],
    row: u32,
    marks: &mut Marks,
    search: usize,
) -> Result<Option<Found>, AllocError>
    requires known { IsKnown linked.now }
    requires classes { (class : ℕ) → Contains classes.now class → class < length linked.now.names.now }
    requires wide { length marks.old ≡ length linked.now.names.now }
    requires entered { AreEntered linked.now row marks.old search }
    ensures wide { length marks.new ≡ length marks.old }
    ensures marked { OnOk result (OnlyMarked marks.old search marks.new) }
    ensures found { IfOk result (λ found. (order : List (List ℕ)) → AreNumbersOf linked.now.names.now order classes.now →
        IsFoundAbove linked.now row marks.new search (flat_map (interfaces_named linked.now.ids.now) order) found) }
{
    interfaces_have_lists();
    for class in classes {
        let above = linked.outlines.at(*class as usize).interfaces.as_slice();
        if let Some(found) = first_above(alloc, linked, above, row, marks, search)? {
            return Ok(Some(found));
        }
    }
    Ok(None)
}

/// The first of these classes, and then of their interfaces, each followed by those above it, in which the file defines the member of a row's name.
pub(crate) fn first_in_method_order(
    alloc: Global,
    linked: &Linked<'_>,
    classes: &[ClassIx],
    row: u32,
    marks: &mut Marks,
    search: usize,
) -> Result<Option<Found>, AllocError>
    requires known { IsKnown linked.now }
    requires classes { (class : ℕ) → Contains classes.now class → class < length linked.now.names.now }
    requires wide { length marks.old ≡ length linked.now.names.now }
    requires older { AreOlder marks.old search }
    ensures wide { length marks.new ≡ length marks.old }
    ensures marked { OnOk result (OnlyMarked marks.old search marks.new) }
    ensures found { IfOk result (λ found. (order : List (List ℕ)) → AreNumbersOf linked.now.names.now order classes.now →
        IsFoundInMethodOrder linked.now row order found) }
{
    interfaces_have_lists();
    if is_nowhere(linked, row) {
        return Ok(None);
    }
    if let Some(found) = first_among(linked, classes, row) {
        return Ok(Some(found));
    }
    let found = first_of_interfaces(alloc, linked, classes, row, marks, search)?;
    Ok(found)
}
