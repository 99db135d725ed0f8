//! Things in the order of their names.

ghost use Rattle.std.specs.Prelude.{◌≡◌, ℕ, List, Contains, ◌<◌, ◌-◌, length, slice_index_or, IfOk};
ghost use Rattle.std.specs.Bool.{OnTrue, OnFalse};
ghost use Rattle.std.specs.List.Sorted.{IsSortedByKey};
ghost use Rattle.std.specs.Cmp.Lexicographic.{slice_cmp};
ghost use Rattle.std.specs.Ordering.{nat_cmp};
ghost use Rattle.cc_meaning.specs.Order.{IsBefore};
ghost use Rattle.cc_names.specs.InOrder.{AreInOrder, IsBehindLast};

use cc_list::List;
use std::alloc::{AllocError, Global};
use std::cmp::Ordering;

/// What gives things their names.
pub trait Naming {
    /// A thing that has a name.
    type Item: Copy;

    /// The name of a thing.
    ghost name: { Self → Self.Item → List ℕ };

    /// Compares the names of two things by their units.
    fn compare(&self, one: Self::Item, other: Self::Item) -> Ordering
        ensures { result ≡ slice_cmp nat_cmp (name self.now one) (name self.now other) };
}

/// Whether a thing's name comes behind that of the last of these, where there is one.
pub fn is_behind_last<N: Naming>(naming: &N, kept: &[N::Item], item: N::Item) -> bool
    ensures behind { OnTrue result (IsBehindLast (N.name naming.now) kept.now item) }
    ensures other { OnFalse result ((last : N.Item) × Contains kept.now last × (IsBefore (N.name naming.now last) (N.name naming.now item) → ⊥)) }
{
    match kept.last() {
        Some(last) => naming.compare(*last, item).is_lt(),
        None => true,
    }
}

/// Of things in the order of their names, one for each name.
fn distinct<N: Naming>(
    alloc: Global,
    naming: &N,
    sorted: &[N::Item],
) -> Result<List<N::Item>, AllocError>
    requires { IsSortedByKey (N.name naming.now) (slice_cmp nat_cmp) sorted.now }
    ensures { IfOk result (AreInOrder (N.name naming.now) sorted.now) }
{
    let mut kept = List::new(alloc);
    for item in sorted {
        if is_behind_last(naming, kept.as_slice(), *item) {
            kept.push(*item)?;
        }
    }
    Ok(kept)
}

/// Things in the order of their names, one for each name.
pub fn in_order<N: Naming>(
    alloc: Global,
    naming: &N,
    items: List<N::Item>,
) -> Result<List<N::Item>, AllocError>
    ensures { IfOk result (AreInOrder (N.name naming.now) items) }
{
    let mut items = items.into_vec();
    items.sort_by(|one, other| naming.compare(*one, *other))?;
    let kept = distinct(alloc, naming, items.as_slice())?;
    Ok(kept)
}
