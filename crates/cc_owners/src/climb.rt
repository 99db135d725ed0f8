//! Superclasses.

ghost use Rattle.std.specs.Prelude.{◌≡◌, ◌<◌, ◌^◌, length, slice_get, Some, IfOk};
ghost use Rattle.cc_meaning_dex.specs.Descriptors.{names_reference};
ghost use Rattle.cc_meaning_program.specs.Named.{type_name};
ghost use Rattle.cc_meaning_program.specs.Rows.{IsTypeRow};
ghost use Rattle.cc_owners.specs.Known.{IsKnown, AreAncestors};

use crate::linked::Linked;
use cc_list::List;
use cc_meaning::lists::{ClassIx, ClassList};
use cc_names::{find, type_name};
use cc_program_laws::classes_have_ancestries;
use std::alloc::{AllocError, Global};

/// The number of the class or array that a row of types names.
pub(crate) fn class_of(linked: &Linked<'_>, ty: u32) -> ClassIx
    requires known { IsKnown linked.now }
    requires few { length linked.now.names.now < 2 ^ 32 }
    requires ty { IsTypeRow names_reference linked.now.ids.now ty }
    ensures { slice_get linked.now.names.now result ≡ Some (type_name linked.now.ids.now ty) }
{
    match find(linked.names, type_name(linked.ids, ty)) {
        Some(class) => class,
        None => unreachable!(),
    }
}

/// A class, its superclass, and so on up to `Object`.
pub(crate) fn ancestors(
    alloc: Global,
    linked: &Linked<'_>,
    class: ClassIx,
) -> Result<ClassList, AllocError>
    requires known { IsKnown linked.now }
    requires class { class < length linked.now.names.now }
    ensures { IfOk result (AreAncestors linked.now class) }
{
    classes_have_ancestries();
    let mut chain = List::new(alloc);
    let mut next = Some(class);
    while let Some(current) = next {
        chain.push(current)?;
        next = linked.outlines.at(current as usize).superclass;
    }
    Ok(chain)
}
