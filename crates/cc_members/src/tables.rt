//! What a file and the built-in classes say of a program's classes and their members.

ghost use Rattle.std.specs.Prelude.{◌≡◌, ◌<◌, ◌^◌, length, map, slice_get, IfOk};
ghost use Rattle.std.specs.Option.{option_copied};
ghost use Rattle.cc_built_in.specs.BuiltInMethods.{built_in_member};
ghost use Rattle.cc_meaning_program.specs.OwnMembers.{members_of, built_in_methods_of};
ghost use Rattle.cc_meaning_program.specs.Plans.{name_at};
ghost use Rattle.cc_members.specs.ListedNames.{listed_at};
ghost use Rattle.cc_members.specs.Candidates.{AreTables};

use crate::named::Names;
use cc_meaning::file::{RawClass, RawClasses};
use cc_meaning::lists::ClassIx;
use cc_meaning_program::Outlines;
use std::alloc::AllocError;

/// Where classes have their names, what the file defines in them, and their outlines.
#[derive(Clone, Copy)]
pub struct Tables<'a> {
    pub names: Names<'a>,
    pub classes: &'a RawClasses,
    pub outlines: &'a Outlines,
}

impl Tables<'_> {
    /// What the file defines in the class of a number.
    pub fn members(&self, number: ClassIx) -> Option<&RawClass>
        requires tables { AreTables self.now }
        requires there { number < length self.now.names.classes.now }
        ensures { option_copied result ≡ members_of self.now.names.ids.now self.now.classes.now (name_at self.now.names.classes.now number) }
    {
        let outline = self.outlines.get(number as usize)?;
        match outline.definition {
            Some(definition) => self.classes.get(definition as usize),
            None => None,
        }
    }

    /// Where the members stand that the class of a number lists itself.
    pub fn table(&self, number: ClassIx) -> Option<u32>
        requires tables { AreTables self.now }
        requires there { number < length self.now.names.classes.now }
        ensures { listed_at self.now.names.listings.now.members result ≡ map built_in_member (built_in_methods_of self.now.names.ids.now (name_at self.now.names.classes.now number)) }
    {
        let outline = self.outlines.get(number as usize)?;
        self.names
            .listings
            .table_of(outline.kind, self.names.class(number))
    }
}

/// A count in 32 bits. There is no memory for more.
pub fn count_of(count: usize) -> Result<u32, AllocError>
    ensures same { IfOk result (λ same. same ≡ count) }
    ensures few { IfOk result (λ same. same < 2 ^ 32) }
{
    match u32::try_from(count) {
        Ok(count) => Ok(count),
        Err(_) => Err(AllocError),
    }
}
