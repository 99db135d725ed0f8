//! The first thing of each name, in the order of names.

ghost use Rattle.std.specs.Prelude.{Contains, IfOk};
ghost use Rattle.std.specs.Bool.{OnTrue, OnFalse};
ghost use Rattle.std.specs.Cmp.Lexicographic.{slice_cmp};
ghost use Rattle.std.specs.List.Sorted.{IsSortedByKey};
ghost use Rattle.std.specs.Ordering.{nat_cmp};
ghost use Rattle.cc_names.specs.InOrder.{AreInOrder, IsBehindLast};
ghost use Rattle.cc_meaning.specs.Order.{IsBefore};
ghost use Rattle.cc_members.specs.FirstInOrder.{AreFirst};

use cc_list::List;
use cc_names::{Naming, is_behind_last};
use std::alloc::{AllocError, Global};

/// Of things in the order of their names, the first of each name.
fn first_of_each<N: Naming>(
    alloc: Global,
    naming: &N,
    sorted: &[N::Item],
) -> Result<List<N::Item>, AllocError>
    requires { IsSortedByKey (N.name naming.now) (slice_cmp nat_cmp) sorted.now }
    ensures order { IfOk result (AreInOrder (N.name naming.now) sorted.now) }
    ensures first { IfOk result (AreFirst (N.name naming.now) sorted.now) }
{
    let mut kept = List::new(alloc);
    for item in sorted {
        if is_behind_last(naming, kept.as_slice(), *item) {
            kept.push(*item)?;
        }
    }
    Ok(kept)
}

/// Things in the order of their names, of each name the first one that is given.
pub fn first_in_order<N: Naming>(
    alloc: Global,
    naming: &N,
    items: List<N::Item>,
) -> Result<List<N::Item>, AllocError>
    ensures order { IfOk result (AreInOrder (N.name naming.now) items) }
    ensures first { IfOk result (AreFirst (N.name naming.now) items) }
{
    let mut items = items.into_vec();
    items.sort_by(|one, other| naming.compare(*one, *other))?;
    let kept = first_of_each(alloc, naming, items.as_slice())?;
    Ok(kept)
}
