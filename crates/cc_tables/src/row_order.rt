//! The order of rows, by the numbers that they name.

ghost use Rattle.std.specs.Prelude.{◌≡◌, ◌∷◌, []};
ghost use Rattle.std.specs.Cmp.Lexicographic.{slice_cmp};
ghost use Rattle.std.specs.Ordering.{nat_cmp};
ghost use Rattle.cc_meaning_builder.specs.Tables.{field_key, method_key};

use cc_meaning::file::{FieldRow, MethodRow};
use std::cmp::Ordering;

/// The order of two numbers.
pub fn compare_numbers(one: u32, other: u32) -> Ordering
    ensures { result ≡ slice_cmp nat_cmp (one ∷ []) (other ∷ []) }
{
    one.cmp(&other)
}

/// The order of three numbers and three others: the first that differ decide.
fn compare_keys(these: [u32; 3], those: [u32; 3]) -> Ordering
    ensures { result ≡ slice_cmp nat_cmp these those }
{
    these.as_slice().cmp(&those.as_slice())
}

/// The order of fields: by their classes, then their names, then their types.
pub fn compare_fields(one: FieldRow, other: FieldRow) -> Ordering
    ensures { result ≡ slice_cmp nat_cmp (field_key one) (field_key other) }
{
    compare_keys(
        [one.class, one.name, one.kind],
        [other.class, other.name, other.kind],
    )
}

/// The order of methods: by their classes, then their names, then their prototypes.
pub fn compare_methods(one: MethodRow, other: MethodRow) -> Ordering
    ensures { result ≡ slice_cmp nat_cmp (method_key one) (method_key other) }
{
    compare_keys(
        [one.class, one.name, one.proto],
        [other.class, other.name, other.proto],
    )
}
