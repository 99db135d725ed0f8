//! Laws of what is read of a file: it has one first fault at most, and none where it spells a program.

ghost use Rattle.cc_program_laws.specs.ReadingLaws.{OneReadFault, SpelledProgramsHaveNoFault, SpelledProgramsAreHierarchies};

use crate::{programs_are_hierarchies, spelled_tables_fit};
use cc_meaning_dex::{members_agree, one_classes, one_ids};
use cc_meaning_program::{
    one_body_fault, one_class_fault, sound_bodies_have_none, sound_classes_have_no_fault,
};

/// A file has one first fault at most, for each main class that may be asked for.
pub fn one_read_fault()
    ensures { OneReadFault }
{
    one_ids();
    one_classes();
    members_agree();
    one_class_fault();
    one_body_fault();
    sound_classes_have_no_fault();
    sound_bodies_have_none();
}

/// A file that spells a program has no fault.
pub fn spelled_programs_have_no_fault()
    ensures { SpelledProgramsHaveNoFault }
{
    one_ids();
    one_classes();
    sound_classes_have_no_fault();
    sound_bodies_have_none();
}

/// The classes of a program that a file spells lead to Object.
pub fn spelled_programs_are_hierarchies()
    ensures { SpelledProgramsAreHierarchies }
{
    spelled_tables_fit();
    programs_are_hierarchies();
}
