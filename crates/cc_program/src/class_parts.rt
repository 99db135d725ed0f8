//! The classes of a program.

ghost use Rattle.std.specs.Prelude.{◌≡◌, ◌<◌, ◌^◌, ℕ, List, Some, length, map, slice_get, IfOk};
ghost use Rattle.cc_meaning.specs.declared.program.Class.{Class};
ghost use Rattle.cc_meaning.specs.declared.program.Program.{Program};
ghost use Rattle.cc_meaning_program.specs.ClassFaults.{AreSound};
ghost use Rattle.cc_meaning_program.specs.ClassNames.{AreClassNames};
ghost use Rattle.cc_meaning_program.specs.Programs.{IsClass};
ghost use Rattle.cc_meaning_program.specs.Outlines.{AreOutlines};
ghost use Rattle.cc_meaning_program.specs.Plans.{AreFieldPlans};
ghost use Rattle.cc_meaning_program.specs.Rows.{FitTables, FitClasses};
ghost use Rattle.cc_program.specs.Parts.{HasParts};

use crate::making::{Parts, made};
use cc_meaning::fault::Memory;
use cc_meaning::program::Classes;
use cc_meaning_program::Outlines;
use cc_program_laws::classes_have_ancestries;
use std::alloc::Global;

/// The most members that numbers of 32 bits count.
const MOST: usize = u32::MAX as usize;

/// The classes of a program, in the order of their names, by their outlines.
///
/// # Errors
///
/// `Memory`: there is no memory. There is none either for more fields or methods than numbers of 32 bits count.
///
/// Source: Dalvik Executable format, sections class_def_item and encoded_array_item.
pub fn classes(alloc: Global, parts: &Parts<'_>, outlines: Outlines) -> Result<Classes, Memory>
    requires few { length parts.now.names.now < 2 ^ 32 }
    requires tables { FitTables parts.now.ids.now }
    requires members { FitClasses parts.now.ids.now parts.now.raw.now }
    requires sound { AreSound parts.now.ids.now parts.now.raw.now }
    requires named { AreClassNames parts.now.ids.now parts.now.names.now }
    requires outlined { AreOutlines parts.now.ids.now parts.now.names.now outlines }
    requires planned { (uses : List ℕ) × AreFieldPlans parts.now.ids.now parts.now.raw.now parts.now.names.now uses parts.now.plans.now }
    requires texts { length parts.now.texts.now ≡ length parts.now.ids.now.texts }
    ensures names { IfOk result (λ classes. map (λ (class : Class). class.name) classes ≡ parts.now.names.now) }
    ensures each { IfOk result (λ classes. (program : Program) → program.classes ≡ classes →
        HasParts parts.now.ids.now parts.now.raw.now parts.now.names.now parts.now.plans.now parts.now.fields.now parts.now.methods.now parts.now.texts.now program →
        (number : ℕ) (class : Class) → slice_get classes number ≡ Some class → IsClass parts.now.ids.now parts.now.raw.now program number class) }
{
    classes_have_ancestries();
    if parts.fields.len() > MOST || parts.methods.len() > MOST {
        return Err(Memory);
    }
    let classes = made(alloc, parts, outlines)?;
    Ok(classes)
}
