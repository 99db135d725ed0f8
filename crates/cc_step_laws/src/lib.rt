//! The laws of a run in small steps: a bound on its turns doesn't matter, a step leaves what is left to do as it was, and comes nearer the end.
#![tactic(auto)]

ghost use Rattle.cc_meaning.specs.declared.program.Program.{Program};
ghost use Rattle.cc_meaning.specs.declared.script.Script.{Script};
ghost use Rattle.cc_meaning_exec.specs.Eval.{Hook};
ghost use Rattle.cc_meaning_exec.specs.Laws.{HookSpends, BoundFree};

/// Any bound that is large enough gives the same.
#[tactic(auto, using(crate::proofs::Bounds::bound_free))]
pub fn law_bound<T>()
    ensures { (hook : Hook T) (script : Script) (p : Program) → HookSpends hook → BoundFree hook script p }
{}

ghost use Rattle.cc_meaning_exec.specs.Laws.{StepKeeps, RunKeeps, OpeningIsMain};

/// What is left to do of a state is kept by a step, and by many, with what the hook is told on the way; and a run's opening state has all of it left to do.
pub fn law_rest<T>()
    ensures step { (hook : Hook T) (script : Script) (p : Program) → HookSpends hook → StepKeeps hook script p }
    ensures run { (hook : Hook T) (script : Script) (p : Program) → HookSpends hook → RunKeeps hook script p }
    ensures opening { (hook : Hook T) (script : Script) (p : Program) → OpeningIsMain hook script p }
{}

ghost use Rattle.cc_meaning_exec.specs.Laws.{StepFalls};

/// Each step brings a run nearer its end.
#[tactic(auto, using(crate::proofs::Weights::step_falls))]
pub fn law_ends()
    ensures { (script : Script) (p : Program) → StepFalls script p }
{}

ghost use Rattle.cc_meaning_exec.specs.Laws.{StepTells, LeadsFall, LeadsSpend};

/// What a step tells: it begins, attempts recorded calls and prints, and may end a method.
#[tactic(auto, using(crate::proofs::Traces::marks_are))]
pub fn law_marks()
    ensures { (script : Script) (p : Program) → StepTells script p }
{}

/// Whichever way a run is cut, it comes nearer its end by what it spends and enters.
#[tactic(auto, using(crate::proofs::Traces::leads_fall))]
pub fn law_progress()
    ensures { (script : Script) (p : Program) → LeadsFall script p }
{}

/// What a run spends is what is no longer left.
#[tactic(auto, using(crate::proofs::Conserves::leads_spend))]
pub fn law_spends()
    ensures { (script : Script) (p : Program) → LeadsSpend script p }
{}

ghost use Rattle.cc_meaning_exec.specs.Laws.{ActConserves, HookConserves, Conserves};

/// What a world has left of words, and what its objects and events take, have one sum throughout.
pub fn law_conserves<T>()
    ensures acts { (script : Script) (p : Program) → ActConserves script p }
    ensures methods { (hook : Hook T) (script : Script) (p : Program) → HookConserves hook → Conserves hook script p }
{}

ghost use Rattle.cc_meaning_exec.specs.Laws.{HookFollows, CursorsFollow};

/// The cursors of a run advance by its recorded calls alone.
pub fn law_cursors<T>()
    ensures { (hook : Hook T) (script : Script) (p : Program) → HookFollows hook p → CursorsFollow hook script p }
{}
