//! Laws of what is known of a file's classes and members on the way to its program.

ghost use Rattle.cc_meaning_program.specs.SoundClimbing.{ClassesHaveAncestries, InterfacesHaveLists};
ghost use Rattle.cc_meaning_program.specs.Rows.{SpelledTablesFit, SpelledClassesFit};

use cc_meaning_dex::{one_text, types_listed, well_formed_files};

/// The rows of the tables that a file spells name rows that are there, of their sort.
pub fn spelled_tables_fit()
    ensures { SpelledTablesFit }
{
    one_text();
    well_formed_files();
    types_listed();
}

/// There are members for each definition of the classes that a file spells, and what they name is there.
pub fn spelled_classes_fit()
    ensures { SpelledClassesFit }
{}

/// In sound classes each class has the list of the classes above it.
pub fn classes_have_ancestries()
    ensures { ClassesHaveAncestries }
{}

/// In sound classes any interfaces have the list of themselves and those above them.
pub fn interfaces_have_lists()
    ensures { InterfacesHaveLists }
{}
