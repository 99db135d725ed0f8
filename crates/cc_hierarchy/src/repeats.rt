//! Members that are defined twice in their class.

ghost use Rattle.std.specs.Prelude.{◌≡◌, ◌<◌, ◌↔◌, length, slice_index, IsTrue, IfOk};
ghost use Rattle.std.specs.Cmp.Lexicographic.{slice_cmp};
ghost use Rattle.std.specs.List.{range_with_len};
ghost use Rattle.std.specs.Ordering.{nat_cmp};
ghost use Rattle.cc_meaning_program.specs.ClassFaults.{Repeats};
ghost use Rattle.cc_hierarchy.specs.Indexes.{IsIndex};
ghost use Rattle.cc_hierarchy.specs.Members.{member_of, member_at};

use crate::members::{MemberTable, compare_members};
use cc_list::List;
use cc_meaning::file::Ids;
use std::alloc::{AllocError, Global};
use std::cmp::Ordering;

/// The places below a count.
fn places_below(alloc: Global, count: usize) -> Result<Vec<usize>, AllocError>
    ensures { IfOk result (λ places. places.items ≡ range_with_len 0 count) }
{
    (0..count).collect(alloc)
}

fn row_at(rows: &[u32], place: usize) -> u32
    ensures { result ≡ slice_index rows.now place }
{
    rows.get(place).copied().unwrap_or(0)
}

/// The order of the members at two places, by their names.
#[tactic(auto, unfolding(crate::specs::Members::member_at))]
fn compare_places(ids: &Ids, table: MemberTable, rows: &[u32], a: usize, b: usize) -> Ordering
    ensures { result ≡ slice_cmp nat_cmp (member_at ids.now table rows.now a) (member_at ids.now table rows.now b) }
{
    compare_members(ids, table, row_at(rows, a), row_at(rows, b))
}

/// The places of members in the order of their names.
fn places_by_name(
    alloc: Global,
    ids: &Ids,
    table: MemberTable,
    rows: &[u32],
) -> Result<List<usize>, AllocError>
    ensures { IfOk result (λ order. IsIndex (member_at ids.now table rows.now) (length rows.now) order) }
{
    let mut order = places_below(alloc, rows.len())?;
    order.sort_by(|a, b| compare_places(ids, table, rows, *a, *b))?;
    Ok(List::from_vec(order))
}

/// Whether two members that are neighbours in the order of names have one name, and so whether any two have.
fn has_tie(ids: &Ids, table: MemberTable, rows: &[u32], order: &[usize]) -> bool
    requires { IsIndex (member_at ids.now table rows.now) (length rows.now) order.now }
    ensures { IsTrue result ↔ Repeats (member_of ids.now table) rows.now }
{
    for at in 1..order.len() {
        if compare_places(ids, table, rows, order[at - 1], order[at]).is_eq() {
            return true;
        }
    }
    false
}

/// Whether two of these rows of a table give one name within their class.
pub(crate) fn has_repeats(
    alloc: Global,
    ids: &Ids,
    table: MemberTable,
    rows: &[u32],
) -> Result<bool, AllocError>
    ensures { IfOk result (λ repeats. IsTrue repeats ↔ Repeats (member_of ids.now table) rows.now) }
{
    let order = places_by_name(alloc, ids, table, rows)?;
    Ok(has_tie(ids, table, rows, order.as_slice()))
}
