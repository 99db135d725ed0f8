//! What rows of fields name after resolution.

ghost use Rattle.std.specs.Prelude.{◌≡◌, ◌<◌, ◌^◌, List, ℕ, length, slice_get, Some, IfOk, OnOk};
ghost use Rattle.cc_meaning.specs.declared.file.FieldRow.{FieldRow};
ghost use Rattle.cc_meaning_dex.specs.Descriptors.{names_reference};
ghost use Rattle.cc_meaning_program.specs.ClassFaults.{AreSound};
ghost use Rattle.cc_meaning_program.specs.ClassNames.{AreClassNames};
ghost use Rattle.cc_meaning_program.specs.Outlines.{AreOutlines};
ghost use Rattle.cc_meaning_program.specs.OwnerNumbers.{IsFieldOwner, AreFieldOwners};
ghost use Rattle.cc_meaning_program.specs.Rows.{IsTypeRow, FitTables, FitClasses};
ghost use Rattle.cc_owners.specs.declared.members.MemberTable.TheVariants as table;
ghost use Rattle.cc_owners.specs.Entered.{AreOlder, OnlyMarked};
ghost use Rattle.cc_owners.specs.Known.{IsKnown};

use crate::beyond::first_beyond;
use crate::climb::{ancestors, class_of};
use crate::field_chain::first_in_field_order;
use crate::index::{defined_rows, entries, number};
use crate::linked::Linked;
use crate::members::MemberTable;
use crate::search::{Marks, no_marks};
use cc_list::List;
use cc_meaning::fault::Memory;
use cc_meaning::file::{Ids, RawClasses};
use cc_meaning::lists::Texts;
use cc_meaning_program::{FieldOwner, FieldOwners, Outlines};
use std::alloc::{AllocError, Global};

/// What a row of fields names, which names a class by this row of types.
fn field_owner(
    alloc: Global,
    linked: &Linked<'_>,
    ty: u32,
    row: u32,
    marks: &mut Marks,
    search: usize,
) -> Result<FieldOwner, AllocError>
    requires known { IsKnown linked.now }
    requires few { length linked.now.names.now < 2 ^ 32 }
    requires table { linked.now.table ≡ table.Fields }
    requires ty { IsTypeRow names_reference linked.now.ids.now ty }
    requires wide { length marks.old ≡ length linked.now.names.now }
    requires older { AreOlder marks.old search }
    ensures wide { length marks.new ≡ length marks.old }
    ensures marked { OnOk result (OnlyMarked marks.old search marks.new) }
    ensures owner { IfOk result (λ owner. (stated : FieldRow) → slice_get linked.now.ids.now.fields row ≡ Some stated → stated.class ≡ ty →
        IsFieldOwner linked.now.ids.now linked.now.classes.now linked.now.names.now row owner) }
{
    let chain = ancestors(alloc, linked, class_of(linked, ty))?;
    let classes = chain.as_slice();
    if let Some(found) = first_in_field_order(alloc, linked, classes, row, marks, search)? {
        return Ok(FieldOwner::File {
            class: found.class,
            place: found.place,
        });
    }
    let place = first_beyond(linked, classes);
    Ok(FieldOwner::Beyond {
        class: classes[place],
    })
}

/// What a file's rows of fields name after resolution, row by row. The field of a row's name is looked for in the class that the row names, then in its
/// interfaces, each followed by those above it, and then in its superclass in the same way. Where the file defines none, it is one of the first class upward
/// that isn't of the file.
///
/// # Errors
///
/// `Memory`: there is no memory. There is none for members or rows that have no number of 32 bits.
///
/// Source: Dalvik Executable format, section field_id_item.
pub fn field_owners(
    alloc: Global,
    ids: &Ids,
    classes: &RawClasses,
    names: &Texts,
    outlines: &Outlines,
) -> Result<FieldOwners, Memory>
    requires tables { FitTables ids.now }
    requires classes { FitClasses ids.now classes.now }
    requires sound { AreSound ids.now classes.now }
    requires names { AreClassNames ids.now names.now }
    requires few { length names.now < 2 ^ 32 }
    requires outlines { AreOutlines ids.now names.now outlines.now }
    ensures { IfOk result (AreFieldOwners ids.now classes.now names.now) }
{
    let entries = entries(alloc, ids, classes.as_slice(), MemberTable::Fields)?;
    let defined = defined_rows(alloc, ids, MemberTable::Fields, &entries)?;
    let linked = Linked {
        ids,
        classes,
        names,
        outlines,
        table: MemberTable::Fields,
        entries: &entries,
        defined: &defined,
    };
    let mut marks = no_marks(alloc, names.len())?;
    let mut owners = List::new(alloc);
    for (row, field) in ids.fields.as_slice().iter().enumerate() {
        let owner = field_owner(
            alloc,
            &linked,
            field.class,
            number(row)?,
            &mut marks,
            row + 1,
        )?;
        owners.push(owner)?;
    }
    Ok(owners)
}
