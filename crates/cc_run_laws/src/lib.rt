//! That what soundness takes of a program and a script follows from the bytes of a file and from what is read of a script.
#![tactic(auto)]

ghost use Rattle.cc_run_laws.specs.Laws.{SaidScriptsFit, SpelledMainFits, SpelledOutFits, SpelledProgramsAreLinked, SpelledProgramsHaveReports};

use cc_program_laws::{
    programs_are_complete, spelled_classes_fit, spelled_parts_are_bounded, spelled_tables_fit,
};
use cc_sound_laws::law_local;

/// The program that a file spells is linked: what its classes, fields and methods name is what the meaning of a run takes it for.
pub fn law_linked()
    ensures { SpelledProgramsAreLinked }
{
    spelled_tables_fit();
    spelled_classes_fit();
    spelled_parts_are_bounded();
    programs_are_complete();
}

/// The field of the standard output, in the program that a file spells, has the type of the stream.
pub fn law_out()
    ensures { SpelledOutFits }
{
    spelled_tables_fit();
    spelled_classes_fit();
    spelled_parts_are_bounded();
    programs_are_complete();
}

/// The main method of the program that a file spells takes an array of texts.
pub fn law_main()
    ensures { SpelledMainFits }
{
    spelled_tables_fit();
    spelled_classes_fit();
    spelled_parts_are_bounded();
    programs_are_complete();
}

/// What a script's text says of a complete program fits the program: each answer fits the result of its method.
#[tactic(auto, using(crate::proofs::Laws::said_scripts_fit))]
pub fn law_script()
    ensures { SaidScriptsFit }
{}

/// The run of a well typed program that a file spells, with a script that a text says of it, has a report.
pub fn law_report()
    ensures { SpelledProgramsHaveReports }
{
    spelled_tables_fit();
    spelled_classes_fit();
    spelled_parts_are_bounded();
    programs_are_complete();
    law_local();
}
