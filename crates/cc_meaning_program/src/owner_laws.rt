//! Which class a member belongs to that an instruction names, and what program a file's tables and classes give: definitions and laws.

ghost use Rattle.cc_meaning_program.specs.Laws.{OneMethodOwner, OneFieldOwner, OneProgram, FilesHaveDescriptors, OneProgramOfFile};

use crate::{one_class_names, one_reading, one_texts, spelled_once};
use cc_meaning_dex::{one_classes, one_ids, one_text, well_formed_files};

/// A method that an instruction names belongs to one class at most.
#[tactic(auto, using(crate::proofs::Once::one_method_owner))]
pub fn one_method_owner()
    ensures { OneMethodOwner }
{}

/// A field that an instruction names belongs to one class at most.
#[tactic(auto, using(crate::proofs::Once::one_field_owner))]
pub fn one_field_owner()
    ensures { OneFieldOwner }
{}

/// A file's tables and classes give one program at most, for each main class that may be asked for.
pub fn one_program()
    ensures { OneProgram }
{
    one_class_names();
    one_texts();
    spelled_once();
    one_reading();
}

/// The types of a file that spells its tables have descriptors.
pub fn files_have_descriptors()
    ensures { FilesHaveDescriptors }
{
    one_text();
    well_formed_files();
}

/// A file gives one program at most, for each main class that may be asked for.
pub fn one_program_of_file()
    ensures { OneProgramOfFile }
{
    one_ids();
    one_classes();
    files_have_descriptors();
    one_program();
}
