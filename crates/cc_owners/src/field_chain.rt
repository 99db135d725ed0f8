//! Members that the file defines in a class, in its interfaces, and then in its superclass in the same way.

ghost use Rattle.std.specs.Prelude.{◌≡◌, ◌<◌, ℕ, List, length, slice_get, Some, Contains, IfOk, OnOk};
ghost use Rattle.cc_meaning_program.specs.Outlines.{AreNumbersOf};
ghost use Rattle.cc_owners.specs.Known.{IsKnown};
ghost use Rattle.cc_owners.specs.Entered.{AreOlder, OnlyMarked, AreEntered};
ghost use Rattle.cc_owners.specs.Fields.{IsFoundAt, IsFoundInFieldOrder};

use crate::linked::Linked;
use crate::place::{Found, is_nowhere, place_in};
use crate::search::{Marks, first_above};
use cc_meaning::lists::ClassIx;
use cc_program_laws::interfaces_have_lists;
use std::alloc::{AllocError, Global};

/// The first of a class and its interfaces, each followed by those above it, in which the file defines the member of a row's name.
fn first_at(
    alloc: Global,
    linked: &Linked<'_>,
    class: ClassIx,
    row: u32,
    marks: &mut Marks,
    search: usize,
) -> Result<Option<Found>, AllocError>
    requires known { IsKnown linked.now }
    requires class { class < length linked.now.names.now }
    requires wide { length marks.old ≡ length linked.now.names.now }
    requires entered { AreEntered linked.now row marks.old search }
    ensures wide { length marks.new ≡ length marks.old }
    ensures marked { OnOk result (OnlyMarked marks.old search marks.new) }
    ensures found { IfOk result (λ found. (name : List ℕ) → slice_get linked.now.names.now class ≡ Some name → IsFoundAt linked.now row marks.new search name found) }
{
    interfaces_have_lists();
    if let Some(place) = place_in(linked, class, row) {
        return Ok(Some(Found { class, place }));
    }
    let above = linked.outlines.at(class as usize).interfaces.as_slice();
    let found = first_above(alloc, linked, above, row, marks, search)?;
    Ok(found)
}

/// The first of these classes, each followed by its interfaces, each of them followed by those above it, in which the file defines the member of a row's name.
pub(crate) fn first_in_field_order(
    alloc: Global,
    linked: &Linked<'_>,
    classes: &[ClassIx],
    row: u32,
    marks: &mut Marks,
    search: usize,
) -> Result<Option<Found>, AllocError>
    requires known { IsKnown linked.now }
    requires classes { (class : ℕ) → Contains classes.now class → class < length linked.now.names.now }
    requires wide { length marks.old ≡ length linked.now.names.now }
    requires older { AreOlder marks.old search }
    ensures wide { length marks.new ≡ length marks.old }
    ensures marked { OnOk result (OnlyMarked marks.old search marks.new) }
    ensures found { IfOk result (λ found. (order : List (List ℕ)) → AreNumbersOf linked.now.names.now order classes.now → IsFoundInFieldOrder linked.now row order found) }
{
    interfaces_have_lists();
    if is_nowhere(linked, row) {
        return Ok(None);
    }
    for class in classes {
        if let Some(found) = first_at(alloc, linked, *class, row, marks, search)? {
            return Ok(Some(found));
        }
    }
    Ok(None)
}
