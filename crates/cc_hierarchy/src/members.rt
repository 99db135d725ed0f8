//! Members by their names within their classes, in the order of the units, without a copy of a name.

ghost use Rattle.std.specs.Prelude.{◌≡◌};
ghost use Rattle.cc_meaning.specs.declared.file.Ids.{Ids};
ghost use Rattle.std.specs.Cmp.Lexicographic.{slice_cmp};
ghost use Rattle.std.specs.Ordering.{nat_cmp};
ghost use Rattle.cc_meaning_program.specs.Named.{field_member, method_member};
ghost use Rattle.cc_hierarchy.specs.Members.{spelled, member_of};

use cc_meaning::file::Ids;
use cc_names::{text, type_name};
use std::cmp::Ordering;

/// The table of a file that the row of a member is of.
#[derive(Clone, Copy)]
pub(crate) enum MemberTable {
    Fields,
    Methods,
}

/// A member's name within its class in pieces: of a field its name, `:` and its type; of a method its name, `(`, the types of its parameters by
/// their rows, `)` and its result's type.
#[derive(Clone, Copy)]
struct MemberName<'a> {
    name: &'a [u16],
    opening: &'a [u16],
    params: &'a [u32],
    closing: &'a [u16],
    last: &'a [u16],
}

/// A name with nothing behind it.
#[tactic(auto, unfolding(crate::specs::Members::spelled))]
fn bare(name: &[u16]) -> MemberName<'_>
    ensures { (ids : Ids) → spelled ids result ≡ name.now }
{
    MemberName {
        name,
        opening: &[],
        params: &[],
        closing: &[],
        last: &[],
    }
}

/// The name within its class that a row of fields gives.
#[tactic(auto, unfolding(crate::specs::Members::spelled, cc_meaning_program::specs::Named::field_member, cc_meaning_program::specs::Named::field_within))]
fn field_name(ids: &Ids, row: u32) -> MemberName<'_>
    ensures { spelled ids.now result ≡ field_member ids.now row }
{
    match ids.fields.get(row as usize) {
        Some(field) => MemberName {
            name: text(ids, field.name),
            opening: &[58],
            params: &[],
            closing: &[],
            last: type_name(ids, field.kind),
        },
        None => bare(&[]),
    }
}

/// The name within its class that a row of methods gives.
#[tactic(auto, unfolding(crate::specs::Members::spelled, cc_meaning_program::specs::Named::method_member, cc_meaning_program::specs::Named::method_within, cc_meaning_program::specs::Named::prototype_of))]
fn method_name(ids: &Ids, row: u32) -> MemberName<'_>
    ensures { spelled ids.now result ≡ method_member ids.now row }
{
    let Some(method) = ids.methods.get(row as usize) else {
        return bare(&[]);
    };
    let name = text(ids, method.name);
    match ids.protos.get(method.proto as usize) {
        Some(prototype) => MemberName {
            name,
            opening: &[40],
            params: prototype.params.as_slice(),
            closing: &[41],
            last: type_name(ids, prototype.result),
        },
        None => bare(name),
    }
}

/// The name within its class that a row of a table gives.
#[tactic(auto, unfolding(crate::specs::Members::member_of))]
fn member_name(ids: &Ids, table: MemberTable, row: u32) -> MemberName<'_>
    ensures { spelled ids.now result ≡ member_of ids.now table row }
{
    match table {
        MemberTable::Fields => field_name(ids, row),
        MemberTable::Methods => method_name(ids, row),
    }
}

/// The order of two names by their units.
#[tactic(auto, unfolding(crate::specs::Members::spelled))]
fn compare(ids: &Ids, a: MemberName<'_>, b: MemberName<'_>) -> Ordering
    ensures { result ≡ slice_cmp nat_cmp (spelled ids.now a.entry) (spelled ids.now b.entry) }
{
    a.name
        .iter()
        .chain(a.opening.iter())
        .chain(a.params.iter().flat_map(|ty| type_name(ids, *ty).iter()))
        .chain(a.closing.iter())
        .chain(a.last.iter())
        .cmp(
            b.name
                .iter()
                .chain(b.opening.iter())
                .chain(b.params.iter().flat_map(|ty| type_name(ids, *ty).iter()))
                .chain(b.closing.iter())
                .chain(b.last.iter()),
        )
}

/// The order of the members of two rows of a table, by their names within their classes.
pub(crate) fn compare_members(ids: &Ids, table: MemberTable, a: u32, b: u32) -> Ordering
    ensures { result ≡ slice_cmp nat_cmp (member_of ids.now table a) (member_of ids.now table b) }
{
    compare(ids, member_name(ids, table, a), member_name(ids, table, b))
}
