//! The texts and descriptors of rows.

ghost use Rattle.std.specs.Prelude.{◌≡◌, ◌≤◌, ◌<◌, ◌↔◌, ℕ, Contains, length, IfOk};
ghost use Rattle.cc_meaning_dex.specs.Descriptors.{dims_of, names_class, names_reference};
ghost use Rattle.cc_meaning_program.specs.Named.{text_of, type_name};
ghost use Rattle.cc_meaning_program.specs.ClassNames.{base_name};

use cc_list::List;
use cc_meaning::file::Ids;
use cc_meaning::lists::Rows;
use std::alloc::{AllocError, Global};

/// `[`, which stands before the elements' type in an array's descriptor.
const ARRAY: u16 = 91;

/// `L`, which begins a class's descriptor.
const CLASS: u16 = 76;

/// Whether a descriptor is a class's.
pub fn names_class(name: &[u16]) -> bool
    ensures { result ≡ names_class name.now }
{
    matches!(name, [CLASS, ..])
}

/// Whether a descriptor is a class's or an array's.
pub fn names_reference(name: &[u16]) -> bool
    ensures { result ≡ names_reference name.now }
{
    matches!(name, [CLASS | ARRAY, ..])
}

/// The text of a row of texts, which is empty where there is no such row.
#[tactic(auto, unfolding(cc_meaning_program::specs::Named::text_of))]
pub fn text(ids: &Ids, row: u32) -> &[u16]
    ensures { result.now ≡ text_of ids.now row }
{
    match ids.texts.get(row as usize) {
        Some(text) => text.as_slice(),
        None => &[],
    }
}

/// The descriptor of a row of types, which is empty where there is no such row.
#[tactic(auto, unfolding(cc_meaning_program::specs::Named::type_name, cc_meaning_program::specs::Named::text_of))]
pub fn type_name(ids: &Ids, row: u32) -> &[u16]
    ensures { result.now ≡ type_name ids.now row }
{
    match ids.types.get(row as usize) {
        Some(described) => text(ids, *described),
        None => &[],
    }
}

/// How many `[` stand in front.
pub fn dims_of(name: &[u16]) -> usize
    ensures exact { result ≡ dims_of name.now }
    ensures within { result ≤ length name.now }
{
    for (place, unit) in name.iter().enumerate() {
        if *unit != ARRAY {
            return place;
        }
    }
    name.len()
}

/// What stands behind the `[` of a descriptor.
#[tactic(auto, unfolding(cc_meaning_program::specs::ClassNames::base_name))]
pub fn base_name(name: &[u16]) -> &[u16]
    ensures { result.now ≡ base_name name.now }
{
    let (_, base) = name.split_at(dims_of(name));
    base
}

/// The numbers of so many rows.
pub fn all_rows(alloc: Global, count: u32) -> Result<Rows, AllocError>
    ensures are { IfOk result (λ rows. (row : ℕ) → Contains rows row ↔ (row < count)) }
    ensures count { IfOk result (λ rows. length rows ≡ count) }
{
    let mut rows = List::new(alloc);
    for row in 0..count {
        rows.push(row)?;
    }
    Ok(rows)
}
