//! Methods that the file doesn't define: built-in ones, and those of classes outside.

ghost use Rattle.std.specs.Prelude.{◌≡◌, ◌<◌, ◌∷◌, ℕ, Bool, List, length, take, slice_get, Some, Contains, MatchOption, cond};
ghost use Rattle.cc_meaning_program.specs.Ancestry.{Ancestry};
ghost use Rattle.cc_meaning_program.specs.Searches.{NoneOf};
ghost use Rattle.cc_meaning_program.specs.Owners.{Lists};
ghost use Rattle.cc_meaning_program.specs.Outlines.{AreNumbersOf};
ghost use Rattle.cc_owners.specs.Beyond.{listed_place, IsUndefined, IsFirstBeyond, Listed, IsListed, IsFoundListed, IsBeyondOwner};
ghost use Rattle.cc_owners.specs.Known.{IsKnown, AreAncestors};

use crate::built_in::{is_constructor, place_among};
use crate::linked::Linked;
use crate::place::Found;
use cc_built_in::{array_methods, methods_of_class};
use cc_meaning::lists::ClassIx;
use cc_meaning::program::ClassKind;
use cc_meaning_program::MethodOwner;

/// The place of a name among those of the built-in methods that a class lists.
fn listed_in(linked: &Linked<'_>, class: ClassIx, member: &[u16]) -> Option<u32>
    requires known { IsKnown linked.now }
    requires class { class < length linked.now.names.now }
    ensures { (name : List ℕ) → slice_get linked.now.names.now class ≡ Some name → result ≡ listed_place linked.now.ids.now name member.now }
{
    match linked.outlines.at(class as usize).kind {
        ClassKind::BuiltIn => {
            let name = linked.names.at(class as usize).as_slice();
            place_among(methods_of_class(name), member)
        }
        ClassKind::Array => place_among(array_methods(), member),
        _ => None,
    }
}

/// The first of these classes that lists a built-in method of this name.
fn first_listed(linked: &Linked<'_>, classes: &[ClassIx], member: &[u16]) -> Option<Found>
    requires known { IsKnown linked.now }
    requires classes { (class : ℕ) → Contains classes.now class → class < length linked.now.names.now }
    ensures { (order : List (List ℕ)) → AreNumbersOf linked.now.names.now order classes.now →
        MatchOption result (NoneOf (Listed linked.now.ids.now member.now) order) (IsFoundListed linked.now member.now order) }
{
    for class in classes {
        if let Some(place) = listed_in(linked, *class, member) {
            return Some(Found {
                class: *class,
                place,
            });
        }
    }
    None
}

/// Of a class and those above it the ones that are looked at for a built-in method: a constructor isn't inherited.
fn looked_at(classes: &[ClassIx], constructor: bool) -> &[ClassIx]
    requires { 0 < length classes.now }
    ensures { result.now ≡ cond constructor (take 1 classes.now) classes.now }
{
    if constructor {
        let (own, _) = classes.split_at(1);
        return own;
    }
    classes
}

/// Of a class that isn't of the file and those above it the first that lists a built-in method of this name, which the class inherits.
fn first_listing(linked: &Linked<'_>, classes: &[ClassIx], member: &[u16]) -> Option<Found>
    requires known { IsKnown linked.now }
    requires classes { (class : ℕ) → Contains classes.now class → class < length linked.now.names.now }
    requires some { 0 < length classes.now }
    ensures { (beyond : List ℕ) (above : List (List ℕ)) → AreNumbersOf linked.now.names.now (beyond ∷ above) classes.now → Ancestry linked.now.ids.now beyond (beyond ∷ above) →
        MatchOption result (NoneOf (Lists linked.now.ids.now beyond member.now) (beyond ∷ above)) (IsListed linked.now beyond member.now (beyond ∷ above)) }
{
    match linked.outlines.at(classes[0] as usize).kind {
        ClassKind::BuiltIn | ClassKind::Array => first_listed(
            linked,
            looked_at(classes, is_constructor(member)),
            member,
        ),
        _ => None,
    }
}

/// The place of the first of a class and those above it that isn't of the file.
pub(crate) fn first_beyond(linked: &Linked<'_>, classes: &[ClassIx]) -> usize
    requires known { IsKnown linked.now }
    requires ancestors { (class : ℕ) × AreAncestors linked.now class classes.now }
    ensures within { result < length classes.now }
    ensures beyond { (order : List (List ℕ)) → AreNumbersOf linked.now.names.now order classes.now → IsFirstBeyond linked.now.ids.now order result }
{
    for (place, class) in classes.iter().enumerate() {
        if linked.outlines.at(*class as usize).definition.is_none() {
            return place;
        }
    }
    unreachable!()
}

/// What a method is that the file doesn't define, by its name, where these are the class that a row names and those above it.
pub(crate) fn beyond(linked: &Linked<'_>, classes: &[ClassIx], member: &[u16]) -> MethodOwner
    requires known { IsKnown linked.now }
    requires ancestors { (class : ℕ) × AreAncestors linked.now class classes.now }
    ensures { (named : List ℕ) (order : List (List ℕ)) → AreNumbersOf linked.now.names.now order classes.now → Ancestry linked.now.ids.now named order →
        IsBeyondOwner linked.now named member.now result }
{
    let (_, upward) = classes.split_at(first_beyond(linked, classes));
    match first_listing(linked, upward, member) {
        Some(found) => MethodOwner::BuiltIn {
            class: found.class,
            place: found.place,
        },
        None => MethodOwner::Outside { class: upward[0] },
    }
}
