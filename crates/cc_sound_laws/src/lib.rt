//! Soundness: a run of a well typed program never meets an operand of the wrong kind, an unset register or an address outside.
#![tactic(auto)]

ghost use Rattle.cc_meaning.specs.declared.program.Program.{Program};
ghost use Rattle.cc_meaning.specs.declared.script.Script.{Script};
ghost use Rattle.cc_meaning_exec.specs.Eval.{Hook};
ghost use Rattle.cc_meaning_fits.specs.Soundness.{EntryStands, EvalIsSound, LocalHasReport, OpeningFits, RunHasReport, StepIsSound};

/// An instruction of a well typed program is never stuck in a frame and a heap that fit, and leads to what fits.
#[tactic(auto, using(crate::proofs::Steps::step_is_sound))]
pub fn law_step()
    ensures { StepIsSound }
{}

/// A run of a well typed program from a frame that fits, in a world that fits, under a script and a hook whose answers fit, ends in a world that fits and is never jammed.
pub fn law_sound<T>()
    ensures { (hook : Hook T) (script : Script) (p : Program) → EvalIsSound hook script p }
{}

/// A new world fits.
#[tactic(auto, using(crate::proofs::Opening::opening_world_fits))]
pub fn law_opening()
    ensures { OpeningFits }
{}

/// A method that is entered with arguments that fit stands at its first address.
#[tactic(auto, using(crate::proofs::Opening::entry_stands))]
pub fn law_entry()
    ensures { EntryStands }
{}

/// A well typed program is never stuck: its run on one heap, under a hook whose answers fit, has a report.
pub fn law_report<T>()
    ensures { (hook : Hook T) (script : Script) (p : Program) → RunHasReport hook script p }
{}

/// The run of a well typed program that no hook answers for has a report.
#[tactic(auto, using(crate::proofs::Laws::local_has_report))]
pub fn law_local()
    ensures { LocalHasReport }
{}
