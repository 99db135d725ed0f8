//! What outlines are made from.

ghost use Rattle.std.specs.Prelude.{◌≡◌, ◌^◌, ◌<◌, ℕ, List, Some, None, length, slice_get, unwrap_or, IfOk};
ghost use Rattle.std.specs.Option.{option_copied};
ghost use Rattle.cc_meaning_dex.specs.Descriptors.{names_reference};
ghost use Rattle.cc_meaning_program.specs.ClassNames.{AreClassNames};
ghost use Rattle.cc_meaning_program.specs.Named.{type_name};
ghost use Rattle.cc_meaning_program.specs.Ancestry.{definition_of};
ghost use Rattle.cc_meaning_program.specs.Outlines.{definition_number};
ghost use Rattle.cc_meaning_program.specs.Rows.{IsTypeRow};
ghost use Rattle.cc_hierarchy.specs.Numbers.{AreRoots, AreReady};

use crate::Definitions;
use crate::numbers::number_of;
use cc_meaning::file::{ClassRow, Ids};
use cc_meaning::lists::{ClassIx, Texts};
use std::alloc::{AllocError, Global};

/// `Object`, which stands above arrays and all other classes.
const OBJECT: &[u8] = b"Ljava/lang/Object;";

/// `Exception`, which stands above outside classes whose names end so.
const EXCEPTION: &[u8] = b"Ljava/lang/Exception;";

/// `Error`, which stands above outside classes whose names end so.
const ERROR: &[u8] = b"Ljava/lang/Error;";

/// The numbers of the classes that stand above arrays and outside classes.
#[derive(Clone, Copy)]
pub(crate) struct Roots {
    pub(crate) object: ClassIx,
    pub(crate) exception: ClassIx,
    pub(crate) error: ClassIx,
}

/// A file's tables and class names, its definitions by name, the numbers of the classes that its texts name, and those of the roots.
#[derive(Clone, Copy)]
pub(crate) struct Sources<'a> {
    pub(crate) ids: &'a Ids,
    pub(crate) names: &'a Texts,
    pub(crate) definitions: &'a Definitions,
    pub(crate) by_text: &'a [Option<ClassIx>],
    pub(crate) roots: Roots,
}

/// The numbers of the roots among a program's class names.
pub(crate) fn roots_of(alloc: Global, ids: &Ids, names: &Texts) -> Result<Roots, AllocError>
    requires few { length names.now < 2 ^ 32 }
    requires names { AreClassNames ids.now names.now }
    ensures { IfOk result (AreRoots names.now) }
{
    let object = number_of(alloc, names, OBJECT)?;
    let exception = number_of(alloc, names, EXCEPTION)?;
    let error = number_of(alloc, names, ERROR)?;
    Ok(Roots {
        object,
        exception,
        error,
    })
}

/// The number that was found for a row of texts, and `None` where there is no such row.
fn number_at(by_text: &[Option<ClassIx>], text: u32) -> Option<ClassIx>
    ensures { result ≡ unwrap_or (slice_get by_text.now text) None }
{
    match by_text.get(text as usize) {
        Some(found) => *found,
        None => None,
    }
}

impl Sources<'_> {
    /// The number of the first definition of a class, where the file defines it.
    pub(crate) fn definition(&self, name: &[u16]) -> Option<u32>
        requires { AreReady self.now }
        ensures { result ≡ definition_number self.now.ids.now name.now }
    {
        self.definitions.find(self.ids, name)
    }

    /// The first definition of a class, by its number.
    pub(crate) fn stated(&self, definition: Option<u32>) -> Option<&ClassRow>
        ensures { (name : List ℕ) → definition ≡ definition_number self.now.ids.now name → option_copied result ≡ definition_of self.now.ids.now name }
    {
        let number = definition?;
        self.ids.classes.get(number as usize)
    }

    /// The number of the class or array that a row of types names.
    pub(crate) fn number_of_type(&self, row: u32) -> ClassIx
        requires ready { AreReady self.now }
        requires row { IsTypeRow names_reference self.now.ids.now row }
        ensures { slice_get self.now.names.now result ≡ Some (type_name self.now.ids.now row) }
    {
        let Some(text) = self.ids.types.get(row as usize) else {
            unreachable!();
        };
        match number_at(self.by_text, *text) {
            Some(number) => number,
            None => unreachable!(),
        }
    }
}
