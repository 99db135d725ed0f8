//! What rows of methods name after resolution.

ghost use Rattle.std.specs.Prelude.{◌≡◌, ◌<◌, ◌^◌, ◌+◌, ℕ, List, length, slice_get, Some, IfOk, OnOk};
ghost use Rattle.cc_meaning.specs.declared.file.MethodRow.{MethodRow};
ghost use Rattle.cc_meaning_dex.specs.Descriptors.{names_reference};
ghost use Rattle.cc_meaning_program.specs.ClassFaults.{AreSound};
ghost use Rattle.cc_meaning_program.specs.ClassNames.{AreClassNames};
ghost use Rattle.cc_meaning_program.specs.Named.{type_name};
ghost use Rattle.cc_meaning_program.specs.Outlines.{AreOutlines};
ghost use Rattle.cc_meaning_program.specs.OwnerNumbers.{IsMethodOwner, AreMethodOwners};
ghost use Rattle.cc_meaning_program.specs.Rows.{IsTypeRow, FitTables, FitClasses};
ghost use Rattle.cc_owners.specs.declared.members.MemberTable.TheVariants as table;
ghost use Rattle.cc_owners.specs.Entered.{AreOlder, OnlyMarked};
ghost use Rattle.cc_owners.specs.Known.{IsKnown};

use crate::beyond::beyond;
use crate::chain::first_in_method_order;
use crate::climb::{ancestors, class_of};
use crate::index::{defined_rows, entries, number};
use crate::linked::Linked;
use crate::members::{MemberTable, member_text};
use crate::search::{Marks, no_marks};
use cc_list::List;
use cc_meaning::fault::Memory;
use cc_meaning::file::{Ids, RawClasses};
use cc_meaning::lists::Texts;
use cc_meaning_program::{MethodOwner, MethodOwners, Outlines};
use std::alloc::{AllocError, Global};

/// What a row of methods names, which names a class by this row of types.
fn method_owner(
    alloc: Global,
    linked: &Linked<'_>,
    ty: u32,
    row: u32,
    marks: &mut Marks,
    search: usize,
) -> Result<MethodOwner, AllocError>
    requires known { IsKnown linked.now }
    requires few { length linked.now.names.now < 2 ^ 32 }
    requires table { linked.now.table ≡ table.Methods }
    requires ty { IsTypeRow names_reference linked.now.ids.now ty }
    requires wide { length marks.old ≡ length linked.now.names.now }
    requires older { AreOlder marks.old search }
    ensures wide { length marks.new ≡ length marks.old }
    ensures marked { OnOk result (OnlyMarked marks.old search marks.new) }
    ensures owner { IfOk result (λ owner. (stated : MethodRow) → slice_get linked.now.ids.now.methods row ≡ Some stated → stated.class ≡ ty →
        IsMethodOwner linked.now.ids.now linked.now.classes.now linked.now.names.now row owner) }
{
    let chain = ancestors(alloc, linked, class_of(linked, ty))?;
    let classes = chain.as_slice();
    if let Some(found) = first_in_method_order(alloc, linked, classes, row, marks, search)? {
        return Ok(MethodOwner::File {
            class: found.class,
            place: found.place,
        });
    }
    let member = member_text(alloc, linked.ids, linked.table, row)?;
    Ok(beyond(linked, classes, member.as_slice()))
}

/// What a file's rows of methods name after resolution, row by row. The method of a row's name is looked for in the class that the row names and in those
/// above it, and then in their interfaces, each followed by those above it. Where the file defines none, the first class upward that isn't of the file is
/// asked. If that is built in or an array, the method is the built-in one of the first class from there upward that lists it, but a constructor is only its
/// own. Otherwise it is one outside of that class.
///
/// # Errors
///
/// `Memory`: there is no memory. There is none for members or rows that have no number of 32 bits.
///
/// Source: Dalvik Executable format, section method_id_item.
pub fn method_owners(
    alloc: Global,
    ids: &Ids,
    classes: &RawClasses,
    names: &Texts,
    outlines: &Outlines,
) -> Result<MethodOwners, Memory>
    requires tables { FitTables ids.now }
    requires classes { FitClasses ids.now classes.now }
    requires sound { AreSound ids.now classes.now }
    requires names { AreClassNames ids.now names.now }
    requires few { length names.now < 2 ^ 32 }
    requires outlines { AreOutlines ids.now names.now outlines.now }
    ensures { IfOk result (AreMethodOwners ids.now classes.now names.now) }
{
    let entries = entries(alloc, ids, classes.as_slice(), MemberTable::Methods)?;
    let defined = defined_rows(alloc, ids, MemberTable::Methods, &entries)?;
    let linked = Linked {
        ids,
        classes,
        names,
        outlines,
        table: MemberTable::Methods,
        entries: &entries,
        defined: &defined,
    };
    let mut marks = no_marks(alloc, names.len())?;
    let mut owners = List::new(alloc);
    for (row, method) in ids.methods.as_slice().iter().enumerate() {
        let owner = method_owner(
            alloc,
            &linked,
            method.class,
            number(row)?,
            &mut marks,
            row + 1,
        )?;
        owners.push(owner)?;
    }
    Ok(owners)
}
