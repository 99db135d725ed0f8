//! The fields that classes declare themselves.

ghost use Rattle.std.specs.Prelude.{◌≡◌, ◌∷◌, [], ◌++◌, ◌<◌, ◌≤◌, ◌^◌, ℕ, List, length, slice_get, slice_set, replicate, Some, IfOk, OnOk};
ghost use Rattle.cc_program.specs.Layouts.{AreOwnFields};

use cc_list::List;
use cc_meaning::lists::{ClassIx, FieldIx, FieldList};
use cc_meaning::program::Field;
use std::alloc::{AllocError, Global};

/// So many empty lists.
fn no_fields(alloc: Global, count: usize) -> Result<List<FieldList>, AllocError>
    ensures { IfOk result (λ lists. lists ≡ replicate count []) }
{
    let mut lists = List::new(alloc);
    for _ in 0..count {
        lists.push(FieldList::new(alloc))?;
    }
    Ok(lists)
}

/// Adds a field to those of a class, where there is such a class.
fn add(own: &mut List<FieldList>, class: ClassIx, number: FieldIx) -> Result<(), AllocError>
    ensures added { OnOk result ((listed : List ℕ) → slice_get own.old class ≡ Some listed → own.new ≡ slice_set own.old class (listed ++ number ∷ [])) }
    ensures other { OnOk result (length own.old ≤ class → own.new ≡ own.old) }
{
    if let Some(listed) = own.get_mut(class as usize) {
        listed.push(number)?;
    }
    Ok(())
}

/// For each of so many classes its own fields, static ones or others, in number order.
pub(crate) fn own_fields(
    alloc: Global,
    count: usize,
    fields: &[Field],
    is_static: bool,
) -> Result<List<FieldList>, AllocError>
    requires { length fields.now < 2 ^ 32 }
    ensures { IfOk result (AreOwnFields is_static fields.now count) }
{
    let mut own = no_fields(alloc, count)?;
    for (number, field) in fields.iter().enumerate() {
        if field.is_static == is_static {
            add(&mut own, field.class, number as u32)?;
        }
    }
    Ok(own)
}
