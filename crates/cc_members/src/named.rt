//! Whole names of members, compared without building them.

ghost use Rattle.std.specs.Prelude.{◌≡◌, ◌^◌, ◌<◌, ◌+◌, Some, length, map, slice_get, Contains, OnSome, MatchOption};
ghost use Rattle.std.specs.Option.{option_copied};
ghost use Rattle.std.specs.Cmp.Lexicographic.{slice_cmp};
ghost use Rattle.std.specs.Ordering.{nat_cmp};
ghost use Rattle.cc_meaning.specs.Order.{IsRising};
ghost use Rattle.cc_meaning_program.specs.Plans.{name_at};
ghost use Rattle.cc_members.specs.Named.{method_pieces, field_pieces, member_pieces, named_pieces, named_text, side};

use crate::planned_built_in::Listings;
use cc_list::List;
use cc_meaning::file::Ids;
use cc_meaning::lists::{ClassIx, Texts};
use cc_names::{Pieces, compare, prototype_piece, text, type_name};
use std::cmp::Ordering;

/// `->`, between the name of a class and that of its member.
const ARROW: [u16; 2] = [45, 62];

/// `:`, between a field's name and its type.
const COLON: [u16; 1] = [58];

/// What names a member within its class: a row of methods or of fields, or the places of a table of listed members and within it. A member that isn't there
/// has an empty name.
#[derive(Clone, Copy)]
pub enum Member {
    Method(u32),
    Field(u32),
    Listed { table: u32, place: u32 },
    Missing,
}

/// What names a member: the number of its class, and what names it there.
#[derive(Clone, Copy)]
pub struct Named {
    pub owner: ClassIx,
    pub member: Member,
}

/// Where members have their names.
#[derive(Clone, Copy)]
pub struct Names<'a> {
    pub ids: &'a Ids,
    pub classes: &'a Texts,
    pub listings: &'a Listings,
}

impl Names<'_> {
    /// The name of the class of a number, which is empty where there is none.
    #[tactic(auto, unfolding(cc_meaning_program::specs::Plans::name_at))]
    pub fn class(&self, number: ClassIx) -> &[u16]
        ensures { result.now ≡ name_at self.now.classes.now number }
    {
        match self.classes.get(number as usize) {
            Some(name) => name.as_slice(),
            None => &[],
        }
    }

    #[tactic(auto, unfolding(crate::specs::Named::method_pieces))]
    fn method_piece(&self, row: u32, at: usize) -> Option<&[u16]>
        ensures value { option_copied result ≡ slice_get (method_pieces self.now.ids.now (slice_get self.now.ids.now.methods row)) at }
        ensures few { OnSome result (at < 2 ^ 62 + 1) }
    {
        let method = self.ids.methods.get(row as usize)?;
        match at {
            0 => Some(text(self.ids, method.name)),
            _ => prototype_piece(self.ids, method.proto, at - 1),
        }
    }

    #[tactic(auto, unfolding(crate::specs::Named::field_pieces))]
    fn field_piece(&self, row: u32, at: usize) -> Option<&[u16]>
        ensures value { option_copied result ≡ slice_get (field_pieces self.now.ids.now (slice_get self.now.ids.now.fields row)) at }
        ensures few { OnSome result (at < 3) }
    {
        let field = self.ids.fields.get(row as usize)?;
        match at {
            0 => Some(text(self.ids, field.name)),
            1 => Some(&COLON),
            2 => Some(type_name(self.ids, field.kind)),
            _ => None,
        }
    }

    /// A piece of a member's name within its class, by its number.
    #[tactic(auto, unfolding(crate::specs::Named::member_pieces))]
    fn member_piece(&self, member: Member, at: usize) -> Option<&[u16]>
        ensures value { option_copied result ≡ slice_get (member_pieces self.now.ids.now self.now.listings.now.members member) at }
        ensures few { OnSome result (at < 2 ^ 62 + 1) }
    {
        match (member, at) {
            (Member::Method(row), _) => self.method_piece(row, at),
            (Member::Field(row), _) => self.field_piece(row, at),
            (Member::Listed { table, place }, 0) => Some(self.listings.text(table, place)),
            (_, _) => None,
        }
    }

    /// A piece of a member's whole name, by its number.
    #[tactic(auto, unfolding(crate::specs::Named::named_pieces))]
    fn named_piece(&self, named: Named, at: usize) -> Option<&[u16]>
        ensures value { option_copied result ≡ slice_get (named_pieces self.now.ids.now self.now.classes.now self.now.listings.now.members named) at }
        ensures few { OnSome result (at < 2 ^ 63) }
    {
        match at {
            0 => Some(self.class(named.owner)),
            1 => Some(&ARROW),
            _ => self.member_piece(named.member, at - 2),
        }
    }
}

/// Two members that are compared.
#[derive(Clone, Copy)]
struct Pair<'a> {
    names: &'a Names<'a>,
    one: Named,
    other: Named,
}

impl Pair<'_> {
    #[tactic(auto, unfolding(crate::specs::Named::side))]
    fn side(&self, row: u32) -> Named
        ensures { result ≡ side self.now.one self.now.other row }
    {
        match row {
            0 => self.one,
            _ => self.other,
        }
    }
}

impl Pieces for Pair<'_> {
    ghost pieces = { λ pair row. named_pieces pair.names.now.ids.now pair.names.now.classes.now pair.names.now.listings.now.members (side pair.one pair.other row) };

    fn piece(&self, row: u32, at: usize) -> Option<&[u16]> {
        self.names.named_piece(self.side(row), at)
    }

    #[tactic(auto, using(crate::proofs::NamedPieces::same_owner))]
    fn same_front(&self, one: u32, other: u32) -> usize {
        if self.side(one).owner == self.side(other).owner {
            2
        } else {
            0
        }
    }
}

/// Compares the whole names of two members by their units.
pub fn compare_named(names: &Names, one: Named, other: Named) -> Ordering
    ensures { result ≡ slice_cmp nat_cmp (named_text names.now.ids.now names.now.classes.now names.now.listings.now.members one)
        (named_text names.now.ids.now names.now.classes.now names.now.listings.now.members other) }
{
    compare(&Pair { names, one, other }, 0, 1)
}

/// The number of a member among members that rise by their whole names, or `None` where it isn't among them.
pub fn find_named(names: &Names, among: &List<Named>, wanted: Named) -> Option<u32>
    requires few { length among.now < 2 ^ 32 }
    requires rise { IsRising (map (named_text names.now.ids.now names.now.classes.now names.now.listings.now.members) among.now) }
    ensures { MatchOption result
        (Contains (map (named_text names.now.ids.now names.now.classes.now names.now.listings.now.members) among.now) (named_text names.now.ids.now names.now.classes.now names.now.listings.now.members wanted) → ⊥)
        (λ number. slice_get (map (named_text names.now.ids.now names.now.classes.now names.now.listings.now.members) among.now) number ≡ Some (named_text names.now.ids.now names.now.classes.now names.now.listings.now.members wanted)) }
{
    match among
        .as_slice()
        .binary_search_by(|other| compare_named(names, *other, wanted))
    {
        Ok(place) => Some(place as u32),
        Err(_) => None,
    }
}
