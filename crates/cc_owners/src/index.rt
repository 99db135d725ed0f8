//! The members that a file defines, in an order in which they are found by their class and their name.

ghost use Rattle.std.specs.Prelude.{◌≡◌, ◌⊎◌, ◌∷◌, ℕ, length, map, slice_get, Some, Contains, IfOk, OnOk};
ghost use Rattle.std.specs.Bool.{OnFalse};
ghost use Rattle.std.specs.Cmp.Lexicographic.{slice_cmp};
ghost use Rattle.std.specs.Ordering.{nat_cmp};
ghost use Rattle.cc_meaning.specs.declared.file.RawClass.{RawClass};
ghost use Rattle.cc_meaning.specs.declared.file.RawField.{RawField};
ghost use Rattle.cc_meaning.specs.declared.file.RawMethod.{RawMethod};
ghost use Rattle.cc_meaning.specs.Order.{IsRising};
ghost use Rattle.cc_meaning_program.specs.ClassFaults.{AreSound};
ghost use Rattle.cc_owners.specs.declared.index.Entry.{Entry};
ghost use Rattle.cc_owners.specs.Members.{member_of};
ghost use Rattle.cc_owners.specs.Places.{rows_of, place_among};
ghost use Rattle.cc_owners.specs.Index.{entry_at, entry_name, AreAdded, AreGathered, AreEntries, AreDefinedRows};

use crate::members::{MemberTable, compare_members};
use cc_list::List;
use cc_meaning::fault::Memory;
use cc_meaning::file::{Ids, RawClass, RawField, RawMethod};
use cc_meaning::lists::Rows;
use cc_names::{Naming, in_order};
use std::alloc::{AllocError, Global};
use std::cmp::Ordering;

/// A member that the file defines: the number of its class's definition, its place among the members there, and its row.
#[derive(Clone, Copy)]
pub(crate) struct Entry {
    definition: u32,
    place: u32,
    row: u32,
}

/// The rows of a class's fields.
fn field_rows(alloc: Global, fields: &[RawField]) -> Result<Vec<u32>, AllocError>
    ensures { IfOk result (λ rows. rows.items ≡ map (λ (field : RawField). field.row) fields.now) }
{
    fields.iter().map(|field| field.row).collect(alloc)
}

/// The rows of a class's methods.
fn method_rows(alloc: Global, methods: &[RawMethod]) -> Result<Vec<u32>, AllocError>
    ensures { IfOk result (λ rows. rows.items ≡ map (λ (method : RawMethod). method.row) methods.now) }
{
    methods.iter().map(|method| method.row).collect(alloc)
}

/// The rows of a class's members.
#[tactic(auto, unfolding(crate::specs::Places::rows_of))]
fn member_rows(alloc: Global, table: MemberTable, class: &RawClass) -> Result<Vec<u32>, AllocError>
    ensures { IfOk result (λ rows. rows.items ≡ rows_of table class.now) }
{
    match table {
        MemberTable::Fields => field_rows(alloc, class.fields.as_slice()),
        MemberTable::Methods => method_rows(alloc, class.methods.as_slice()),
    }
}

/// A count as a number of 32 bits. For so many things as don't have one there is no memory.
pub(crate) fn number(count: usize) -> Result<u32, Memory>
    ensures { IfOk result (λ number. number ≡ count) }
{
    u32::try_from(count).map_err(|_| Memory)
}

/// Adds the members of a definition.
fn add_rows(all: &mut List<Entry>, definition: u32, rows: &[u32]) -> Result<(), Memory>
    ensures { OnOk result (AreAdded definition (length rows.now) rows.now all.old all.new) }
{
    for (place, row) in rows.iter().enumerate() {
        all.push(Entry {
            definition,
            place: number(place)?,
            row: *row,
        })?;
    }
    Ok(())
}

/// All members of a table that the file's classes define.
fn all_entries(
    alloc: Global,
    classes: &[RawClass],
    table: MemberTable,
) -> Result<List<Entry>, Memory>
    ensures { IfOk result (AreGathered classes.now table (length classes.now)) }
{
    let mut all = List::new(alloc);
    for (definition, class) in classes.iter().enumerate() {
        let rows = member_rows(alloc, table, class)?;
        add_rows(&mut all, number(definition)?, rows.as_slice())?;
    }
    Ok(all)
}

/// What entries have their names from.
#[derive(Clone, Copy)]
struct EntryNames<'a> {
    ids: &'a Ids,
    table: MemberTable,
}

impl Naming for EntryNames<'_> {
    type Item = Entry;

    ghost name = { λ names entry. entry_name names.ids.now names.table entry };

    #[tactic(auto, unfolding(crate::specs::Index::entry_name))]
    fn compare(&self, one: Entry, other: Entry) -> Ordering {
        compare_entry(self.ids, self.table, one, other.definition, other.row)
    }
}

/// The order of an entry, by the number of its definition and its name, and the name of a row in the definition of this number.
#[tactic(auto, unfolding(crate::specs::Index::entry_name))]
fn compare_entry(ids: &Ids, table: MemberTable, entry: Entry, definition: u32, row: u32) -> Ordering
    ensures { result ≡ slice_cmp nat_cmp (entry_name ids.now table entry) (definition ∷ member_of ids.now table row) }
{
    let order = entry.definition.cmp(&definition);
    if order.is_eq() {
        compare_members(ids, table, entry.row, row)
    } else {
        order
    }
}

/// The members of a table that the file's classes define, in the order of the numbers of their definitions, and of their names.
pub(crate) fn entries(
    alloc: Global,
    ids: &Ids,
    classes: &[RawClass],
    table: MemberTable,
) -> Result<List<Entry>, Memory>
    ensures { IfOk result (AreEntries ids.now classes.now table) }
{
    let all = all_entries(alloc, classes, table)?;
    let sorted = in_order(alloc, &EntryNames { ids, table }, all)?;
    Ok(sorted)
}

/// The place, among the members of a definition, of the one that has the name of a row.
pub(crate) fn find(
    ids: &Ids,
    table: MemberTable,
    entries: &List<Entry>,
    definition: u32,
    row: u32,
) -> Option<u32>
    ensures { (classes : List RawClass) → AreSound ids.now classes → AreEntries ids.now classes table entries.now →
        result ≡ place_among ids.now table (member_of ids.now table row) (slice_get classes definition) }
{
    let entries = entries.as_slice();
    match entries.binary_search_by(|entry| compare_entry(ids, table, *entry, definition, row)) {
        Ok(at) => Some(entries[at].place),
        Err(_) => None,
    }
}

/// Rows of members, which have the members' names within their classes.
#[derive(Clone, Copy)]
struct MemberNames<'a> {
    ids: &'a Ids,
    table: MemberTable,
}

impl Naming for MemberNames<'_> {
    type Item = u32;

    ghost name = { λ names row. member_of names.ids.now names.table row };

    fn compare(&self, one: u32, other: u32) -> Ordering {
        compare_members(self.ids, self.table, one, other)
    }
}

/// The rows of these members.
fn entry_rows(alloc: Global, entries: &[Entry]) -> Result<Vec<u32>, AllocError>
    ensures { IfOk result (λ rows. rows.items ≡ map (λ (entry : Entry). entry.row) entries.now) }
{
    entries.iter().map(|entry| entry.row).collect(alloc)
}

/// Rows of the members of a table that the file's classes define, in the order of the members' names, one for each name.
pub(crate) fn defined_rows(
    alloc: Global,
    ids: &Ids,
    table: MemberTable,
    entries: &List<Entry>,
) -> Result<Rows, AllocError>
    ensures { IfOk result (λ rows. (classes : List RawClass) → AreEntries ids.now classes table entries.now → AreDefinedRows ids.now classes table rows) }
{
    let rows = entry_rows(alloc, entries.as_slice())?;
    let sorted = in_order(alloc, &MemberNames { ids, table }, List::from_vec(rows))?;
    Ok(sorted)
}

/// Whether a class of the file defines a member of a row's name.
pub(crate) fn is_defined(ids: &Ids, table: MemberTable, rows: &Rows, row: u32) -> bool
    requires { IsRising (map (member_of ids.now table) rows.now) }
    ensures { OnFalse result (Contains (map (member_of ids.now table) rows.now) (member_of ids.now table row) → ⊥) }
{
    match rows
        .as_slice()
        .binary_search_by(|other| compare_members(ids, table, *other, row))
    {
        Ok(_) => true,
        Err(_) => false,
    }
}
