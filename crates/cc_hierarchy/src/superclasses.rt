//! Definitions that name no superclass, or one that can't be one.

ghost use Rattle.std.specs.Prelude.{◌≡◌, ◌<◌, ◌↔◌, ◌^◌, ◌==◌, length, slice_index, IsTrue, IfOk, MatchOption};
ghost use Rattle.cc_meaning.specs.BuiltIn.{string_name, string_builder_name};
ghost use Rattle.cc_meaning_program.specs.Definitions.{is_interface, IsInterface};
ghost use Rattle.cc_meaning_program.specs.ClassFaults.{HasNoSuperclass, IsClosed, LacksSuperclass, NoneIs};
ghost use Rattle.cc_hierarchy.specs.Indexes.{Indexes};
ghost use Rattle.cc_hierarchy.specs.Judging.{HasOneEach, IsFirst};

use crate::definitions::Definitions;
use crate::kinds::is_array;
use cc_built_in::spells;
use cc_meaning::file::{ClassRow, Ids};
use cc_names::type_name;

const INTERFACE: u32 = 0x200;

/// Whether a definition is of an interface. Source: Dalvik Executable format, section access_flags definitions.
#[tactic(auto, unfolding(cc_meaning_program::specs::Definitions::is_interface))]
fn is_interface(stated: &ClassRow) -> bool
    ensures { result ≡ is_interface stated.now }
{
    stated.flags & INTERFACE != 0
}

/// Whether an interface of the file has this name.
fn names_interface(ids: &Ids, definitions: &Definitions, name: &[u16]) -> bool
    requires index { Indexes ids.now definitions.now }
    requires distinct { HasOneEach ids.now }
    ensures { IsTrue result ↔ IsInterface ids.now name.now }
{
    let Some(number) = definitions.find(ids, name) else {
        return false;
    };
    match ids.classes.get(number as usize) {
        Some(stated) => is_interface(stated),
        None => false,
    }
}

fn is_string(name: &[u16]) -> bool
    ensures { IsTrue result ↔ (name.now ≡ string_name) }
{
    spells(name, b"Ljava/lang/String;")
}

fn is_string_builder(name: &[u16]) -> bool
    ensures { IsTrue result ↔ (name.now ≡ string_builder_name) }
{
    spells(name, b"Ljava/lang/StringBuilder;")
}

/// Whether the class of this name can't be a superclass.
fn is_closed(ids: &Ids, definitions: &Definitions, name: &[u16]) -> bool
    requires index { Indexes ids.now definitions.now }
    requires distinct { HasOneEach ids.now }
    ensures { IsTrue result ↔ IsClosed ids.now name.now }
{
    if is_array(name) {
        return true;
    }
    if is_string(name) {
        return true;
    }
    if is_string_builder(name) {
        return true;
    }
    names_interface(ids, definitions, name)
}

/// Whether a definition names no superclass, or one that can't be one.
fn lacks_superclass(ids: &Ids, definitions: &Definitions, stated: &ClassRow) -> bool
    requires index { Indexes ids.now definitions.now }
    requires distinct { HasOneEach ids.now }
    ensures { IsTrue result ↔ HasNoSuperclass ids.now stated.now.superclass }
{
    match stated.superclass {
        Some(ty) => is_closed(ids, definitions, type_name(ids, ty)),
        None => true,
    }
}

/// The first definition that names no superclass, or one that can't be one.
pub(crate) fn first_without_superclass(ids: &Ids, definitions: &Definitions) -> Option<u32>
    requires index { Indexes ids.now definitions.now }
    requires few { length ids.now.classes < 2 ^ 32 }
    requires distinct { HasOneEach ids.now }
    ensures { MatchOption result (NoneIs (LacksSuperclass ids.now)) (IsFirst (LacksSuperclass ids.now)) }
{
    for (number, stated) in ids.classes.as_slice().iter().enumerate() {
        if lacks_superclass(ids, definitions, stated) {
            return Some(number as u32);
        }
    }
    None
}
