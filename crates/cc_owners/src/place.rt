//! The member of a row's name in classes that are given by their numbers.

ghost use Rattle.std.specs.Prelude.{◌≡◌, ◌<◌, ℕ, List, length, slice_get, Some, Contains, MatchOption};
ghost use Rattle.std.specs.Bool.{OnTrue};
ghost use Rattle.cc_meaning_program.specs.Searches.{NoneOf};
ghost use Rattle.cc_meaning_program.specs.Outlines.{AreNumbersOf};
ghost use Rattle.cc_owners.specs.Known.{IsKnown, Has, IsFound};
ghost use Rattle.cc_owners.specs.Members.{member_of};
ghost use Rattle.cc_owners.specs.Places.{place_of};

use crate::index::{find, is_defined};
use crate::linked::Linked;
use cc_meaning::lists::ClassIx;

/// A member that the file defines: its class, and its place among the members there.
#[derive(Clone, Copy)]
pub(crate) struct Found {
    pub class: ClassIx,
    pub place: u32,
}

/// The place, among the members that the file defines in a class, of the one that has the name of a row.
pub(crate) fn place_in(linked: &Linked<'_>, class: ClassIx, row: u32) -> Option<u32>
    requires known { IsKnown linked.now }
    requires class { class < length linked.now.names.now }
    ensures { (name : List ℕ) → slice_get linked.now.names.now class ≡ Some name →
        result ≡ place_of linked.now.ids.now linked.now.classes.now linked.now.table name (member_of linked.now.ids.now linked.now.table row) }
{
    match linked.outlines.at(class as usize).definition {
        Some(definition) => find(linked.ids, linked.table, linked.entries, definition, row),
        None => None,
    }
}

/// The first of these classes in which the file defines the member of a row's name.
pub(crate) fn first_among(linked: &Linked<'_>, classes: &[ClassIx], row: u32) -> Option<Found>
    requires known { IsKnown linked.now }
    requires classes { (class : ℕ) → Contains classes.now class → class < length linked.now.names.now }
    ensures { (order : List (List ℕ)) → AreNumbersOf linked.now.names.now order classes.now →
        MatchOption result (NoneOf (Has linked.now row) order) (IsFound linked.now row order) }
{
    for class in classes {
        if let Some(place) = place_in(linked, *class, row) {
            return Some(Found {
                class: *class,
                place,
            });
        }
    }
    None
}

/// Whether no class of the file defines a member of a row's name.
pub(crate) fn is_nowhere(linked: &Linked<'_>, row: u32) -> bool
    requires { IsKnown linked.now }
    ensures { OnTrue result ((class : List ℕ) → ¬ Has linked.now row class) }
{
    !is_defined(linked.ids, linked.table, linked.defined, row)
}
