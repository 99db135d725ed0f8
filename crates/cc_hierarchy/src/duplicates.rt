//! Definitions of a class or of a member that is defined already.

ghost use Rattle.std.specs.Prelude.{◌≡◌, ◌⊎◌, ◌<◌, ◌↔◌, ◌^◌, length, map, IsTrue, IfOk, MatchOption};
ghost use Rattle.cc_meaning.specs.declared.file.RawField.{RawField};
ghost use Rattle.cc_meaning.specs.declared.file.RawMethod.{RawMethod};
ghost use Rattle.cc_meaning_program.specs.Named.{field_member, method_member};
ghost use Rattle.cc_meaning_program.specs.ClassFaults.{IsDuplicate, NoneIs, Repeats};
ghost use Rattle.cc_hierarchy.specs.Indexes.{Indexes};
ghost use Rattle.cc_hierarchy.specs.Judging.{IsFirst, IsTakenName, RepeatsMember};

use crate::definitions::{Definitions, defined_name};
use crate::members::MemberTable;
use crate::repeats::has_repeats;
use cc_built_in::is_built_in;
use cc_meaning::file::{Ids, RawClass, RawField, RawMethod};
use std::alloc::{AllocError, Global};

/// Whether the class of a definition is built in or is defined before.
fn is_taken_name(ids: &Ids, definitions: &Definitions, number: u32) -> bool
    requires index { Indexes ids.now definitions.now }
    requires number { number < length ids.now.classes }
    ensures { IsTrue result ↔ IsTakenName ids.now number }
{
    let name = defined_name(ids, number);
    if is_built_in(name) {
        return true;
    }
    match definitions.find(ids, name) {
        Some(first) => first < number,
        None => false,
    }
}

fn field_rows(alloc: Global, fields: &[RawField]) -> Result<Vec<u32>, AllocError>
    ensures { IfOk result (λ rows. rows.items ≡ map (λ (field : RawField). field.row) fields.now) }
{
    fields.iter().map(|field| field.row).collect(alloc)
}

fn method_rows(alloc: Global, methods: &[RawMethod]) -> Result<Vec<u32>, AllocError>
    ensures { IfOk result (λ rows. rows.items ≡ map (λ (method : RawMethod). method.row) methods.now) }
{
    methods.iter().map(|method| method.row).collect(alloc)
}

/// Whether two fields of a class have one name.
fn repeats_field(alloc: Global, ids: &Ids, fields: &[RawField]) -> Result<bool, AllocError>
    ensures { IfOk result (λ repeats. IsTrue repeats ↔ Repeats (λ (field : RawField). field_member ids.now field.row) fields.now) }
{
    let rows = field_rows(alloc, fields)?;
    has_repeats(alloc, ids, MemberTable::Fields, rows.as_slice())
}

/// Whether two methods of a class have one name.
fn repeats_method(alloc: Global, ids: &Ids, methods: &[RawMethod]) -> Result<bool, AllocError>
    ensures { IfOk result (λ repeats. IsTrue repeats ↔ Repeats (λ (method : RawMethod). method_member ids.now method.row) methods.now) }
{
    let rows = method_rows(alloc, methods)?;
    has_repeats(alloc, ids, MemberTable::Methods, rows.as_slice())
}

/// Whether a member of a class is defined twice.
fn repeats_member(alloc: Global, ids: &Ids, class: &RawClass) -> Result<bool, AllocError>
    ensures { IfOk result (λ repeats. IsTrue repeats ↔ RepeatsMember ids.now class.now) }
{
    if repeats_field(alloc, ids, class.fields.as_slice())? {
        return Ok(true);
    }
    repeats_method(alloc, ids, class.methods.as_slice())
}

/// Whether a definition is of a class that is built in or defined before, or defines a member twice.
fn is_duplicate(
    alloc: Global,
    ids: &Ids,
    definitions: &Definitions,
    number: u32,
    class: &RawClass,
) -> Result<bool, AllocError>
    requires index { Indexes ids.now definitions.now }
    requires number { number < length ids.now.classes }
    ensures { IfOk result (λ duplicate. IsTrue duplicate ↔ (IsTakenName ids.now number ⊎ RepeatsMember ids.now class.now)) }
{
    if is_taken_name(ids, definitions, number) {
        return Ok(true);
    }
    repeats_member(alloc, ids, class)
}

/// The first definition that is of a class that is built in or defined before, or defines a member twice.
pub(crate) fn first_duplicate(
    alloc: Global,
    ids: &Ids,
    classes: &[RawClass],
    definitions: &Definitions,
) -> Result<Option<u32>, AllocError>
    requires index { Indexes ids.now definitions.now }
    requires few { length ids.now.classes < 2 ^ 32 }
    requires whole { length classes.now ≡ length ids.now.classes }
    ensures { IfOk result (λ found. MatchOption found (NoneIs (IsDuplicate ids.now classes.now)) (IsFirst (IsDuplicate ids.now classes.now))) }
{
    for (number, class) in classes.iter().enumerate() {
        if is_duplicate(alloc, ids, definitions, number as u32, class)? {
            return Ok(Some(number as u32));
        }
    }
    Ok(None)
}
