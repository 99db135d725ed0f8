//! Interfaces, searched one after the other, each followed by those above it.

ghost use Rattle.std.specs.Prelude.{◌≡◌, ◌<◌, ◌++◌, ℕ, List, length, reverse, Contains, IfOk, OnOk};
ghost use Rattle.cc_meaning_program.specs.Outlines.{AreNumbersOf};
ghost use Rattle.cc_owners.specs.Known.{IsKnown};
ghost use Rattle.cc_owners.specs.Entered.{AreOlder, OnlyMarked, AreEntered, IsFoundAbove};

use crate::linked::Linked;
use crate::place::{Found, place_in};
use cc_list::List;
use cc_meaning::lists::{ClassIx, ClassList};
use cc_program_laws::interfaces_have_lists;
use std::alloc::{AllocError, Global};

/// For each class the number of the last search that has entered it.
pub(crate) type Marks = List<usize>;

/// Marks for so many classes, none of them of a search.
pub(crate) fn no_marks(alloc: Global, count: usize) -> Result<Marks, AllocError>
    ensures wide { IfOk result (λ marks. length marks ≡ count) }
    ensures older { IfOk result (λ marks. AreOlder marks 1) }
{
    Ok(List::from_vec(vec![in alloc; 0; count]?))
}

/// Puts these on a stack, so that the first of them is taken first.
fn push_reversed(stack: &mut ClassList, classes: &[ClassIx]) -> Result<(), AllocError>
    ensures { OnOk result (stack.new ≡ stack.old ++ reverse classes.now) }
{
    for back in 0..classes.len() {
        stack.push(classes[classes.len() - 1 - back])?;
    }
    Ok(())
}

/// The first of these interfaces, each followed by those above it, in which the file defines the member of a row's name. What the search has entered before
/// is passed over: all that is above it has been searched.
pub(crate) fn first_above(
    alloc: Global,
    linked: &Linked<'_>,
    classes: &[ClassIx],
    row: u32,
    marks: &mut Marks,
    search: usize,
) -> Result<Option<Found>, AllocError>
    requires known { IsKnown linked.now }
    requires classes { (class : ℕ) → Contains classes.now class → class < length linked.now.names.now }
    requires wide { length marks.old ≡ length linked.now.names.now }
    requires entered { AreEntered linked.now row marks.old search }
    ensures wide { length marks.new ≡ length marks.old }
    ensures marked { OnOk result (OnlyMarked marks.old search marks.new) }
    ensures found { IfOk result (λ found. (named : List (List ℕ)) → AreNumbersOf linked.now.names.now named classes.now → IsFoundAbove linked.now row marks.new search named found) }
{
    interfaces_have_lists();
    let mut stack = List::new(alloc);
    push_reversed(&mut stack, classes)?;
    while let Some(class) = stack.pop() {
        if *marks.at(class as usize) == search {
            continue;
        }
        marks.set(class as usize, search);
        if let Some(place) = place_in(linked, class, row) {
            return Ok(Some(Found { class, place }));
        }
        let above = linked.outlines.at(class as usize).interfaces.as_slice();
        push_reversed(&mut stack, above)?;
    }
    Ok(None)
}
