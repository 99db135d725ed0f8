//! Laws of what a Run of a plain file comes to.

ghost use Rattle.cc_meaning_clone.specs.Functions.{RunnableIs, FormIs, AnsweredIs, RunsHaveParts, BacksAreShort};
ghost use Rattle.cc_meaning_clone.specs.Worked.{EntryIsSpelled, EndIsSpelled};
ghost use Rattle.cc_meaning_plain.specs.declared.plain.Plain.{Plain};

use cc_meaning_plain::{law_function_runs, law_numbers_methods, law_only_file_has_code};

/// The methods that a Run may be of are the functions of the file.
pub fn runnable_is()
    ensures { RunnableIs }
{
    law_numbers_methods();
    law_only_file_has_code();
}

/// What the images of a plain file go by: one class, no statics, and of a function one argument.
#[tactic(auto, using(crate::proofs::Answers::form_is))]
pub fn form_is()
    ensures { (plain : Plain) → FormIs plain }
{}

/// A Run of a function is answered with the end that its instructions come to.
pub fn answered_is()
    ensures { AnsweredIs }
{
    runnable_is();
    law_function_runs::<()>();
}

/// A Run of a plain file is one of a function, with a number and the status of the one class.
pub fn runs_have_parts()
    ensures { RunsHaveParts }
{
    runnable_is();
}

/// The Back of a function is short.
#[tactic(auto, using(crate::proofs::Answers::backs_are_short))]
pub fn backs_are_short()
    ensures { BacksAreShort }
{}

/// The image of an entry and of its end, at a worked example: a function adds 1 to 5.
#[tactic(auto, using(crate::proofs::Worked::entry_is_spelled, crate::proofs::Worked::end_is_spelled))]
pub fn worked_images()
    ensures entry { EntryIsSpelled }
    ensures end { EndIsSpelled }
{}
