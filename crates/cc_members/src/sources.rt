//! What the members of a program are made from.

ghost use Rattle.std.specs.Prelude.{◌≡◌, ◌^◌, ◌<◌, Some, length, slice_get, IfOk};
ghost use Rattle.cc_meaning.specs.Order.{IsRising};
ghost use Rattle.cc_meaning_program.specs.TypeNames.{IsTypeOf};
ghost use Rattle.cc_meaning.specs.declared.program.DexType.{DexType};
ghost use Rattle.cc_members.specs.Stated.{definition_at, members_at};
ghost use Rattle.std.specs.Option.{option_copied};

use cc_built_in::units_of;
use cc_list::List;
use cc_meaning::file::{Ids, RawClass, RawClasses};
use cc_meaning::lists::{ClassIx, Texts};
use cc_meaning::program::DexType;
use cc_meaning_program::{Links, Outlines};
use cc_names::type_of;
use std::alloc::{AllocError, Global};

/// What members are made from: a file's tables and classes, the names of the program's classes, what the file says of these, and what its rows link to.
#[derive(Clone, Copy)]
pub struct Sources<'a> {
    pub ids: &'a Ids,
    pub classes: &'a RawClasses,
    pub names: &'a Texts,
    pub outlines: &'a Outlines,
    pub links: &'a Links,
}

impl<'a> Sources<'a> {
    /// The number of the definition of the class of a number.
    pub fn definition(&self, owner: ClassIx) -> Option<u32>
        ensures { result ≡ definition_at self.now.outlines.now owner }
    {
        let outline = self.outlines.get(owner as usize)?;
        outline.definition
    }

    /// The members that the file defines in the class of a number.
    pub fn members(&self, owner: ClassIx) -> Option<&'a RawClass>
        ensures { option_copied result ≡ members_at self.now.classes.now self.now.outlines.now owner }
    {
        let definition = self.definition(owner)?;
        self.classes.get(definition as usize)
    }

    /// The type that spells a text in ASCII, where one does.
    pub fn spelled(&self, alloc: Global, text: &[u8]) -> Result<Option<DexType>, AllocError>
        requires few { length self.now.names.now < 2 ^ 32 }
        requires rise { IsRising self.now.names.now }
        ensures { IfOk result (IsTypeOf self.now.names.now text.now) }
    {
        let described = units_of(alloc, text)?;
        Ok(type_of(self.names, described.as_slice()))
    }
}

/// The type that a row of types links to.
pub fn linked_type(types: &List<Option<DexType>>, row: u32) -> DexType
    requires { (ty : DexType) × (slice_get types.now row ≡ Some (Some ty)) }
    ensures { slice_get types.now row ≡ Some (Some result) }
{
    match types.get(row as usize) {
        Some(Some(ty)) => *ty,
        _ => unreachable!(),
    }
}
