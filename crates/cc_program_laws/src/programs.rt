//! Laws of the programs that files give.

ghost use Rattle.cc_program_laws.specs.Laws.{ProgramsAreComplete, ProgramsAreHierarchies, ProgramsAreWellFormed, SpelledPartsAreBounded};

use cc_meaning_dex::well_formed_files;
use cc_meaning_program::{instructions_laid_out, one_field_owner, one_method_owner};

/// A program of sound classes is well formed: its classes lead to Object, and its names and addresses are in order.
pub fn programs_are_well_formed()
    ensures { ProgramsAreWellFormed }
{
    instructions_laid_out();
}

/// The classes of a program of sound classes lead to Object.
pub fn programs_are_hierarchies()
    ensures { ProgramsAreHierarchies }
{}

/// What a file spells is bounded by the file's length.
pub fn spelled_parts_are_bounded()
    ensures { SpelledPartsAreBounded }
{
    well_formed_files();
}

/// A program of sound classes whose parts are bounded is complete: it has the built-in classes, all that it names is there, its built-in methods are
/// rows of the table, and it begins with a static method that has code.
pub fn programs_are_complete()
    ensures { ProgramsAreComplete }
{
    instructions_laid_out();
    one_method_owner();
    one_field_owner();
}
