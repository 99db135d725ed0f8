//! The laws of renaming and locality: what a run does depends on no object's number, and on no object that it doesn't reach.
#![tactic(auto)]

ghost use Rattle.std.specs.Prelude.{ℕ, Bool, List};
ghost use Rattle.cc_meaning.specs.declared.program.Program.{Program};
ghost use Rattle.cc_meaning.specs.declared.script.Script.{Script};
ghost use Rattle.cc_meaning_exec.specs.Eval.{Hook};
ghost use Rattle.cc_meaning_alike.specs.Ends.{Keeps, LooksOn, HookFits};
ghost use Rattle.cc_meaning_alike.specs.Laws.{RunsAreAlike, InstructionsAreAlike, BuiltInCallsAreAlike, OpeningIsAlike, held, everything, HookIsFaithful, CallIsFaithful, MainIsFaithful, ReportIsLocal, RenamingAndLocality, WholeRenaming};
ghost use Rattle.cc_meaning_alike.specs.Migration.{HookMigrates};

/// Alike acts, done in worlds that are alike, lead to alike outcomes in worlds that are alike.
pub fn acts_keep_worlds_alike()
    ensures { RunsAreAlike }
{}

/// At each address of each method, alike registers give alike acts.
pub fn instructions_are_alike()
    ensures { InstructionsAreAlike }
{}

/// Alike arguments of each built-in method give alike acts.
pub fn built_in_calls_are_alike()
    ensures { BuiltInCallsAreAlike }
{}

/// The opening world is alike itself.
pub fn opening_worlds_are_alike()
    ensures { OpeningIsAlike }
{}

/// Evaluating from worlds that are alike, with answers of classes whose cursors agree, gives alike ends in worlds that are alike.
pub fn renaming_and_locality()
    ensures { (K : ℕ → Bool) (script : Script) (p : Program) → RenamingAndLocality K script p }
{}

/// Where all cursors agree, evaluating from worlds that are alike gives alike ends.
pub fn whole_renaming()
    ensures { (script : Script) (p : Program) → WholeRenaming script p }
{}

/// A hook whose answers are right changes nothing.
#[tactic(auto, using(crate::proofs::Evals::faithful))]
pub fn right_answers_change_nothing<T, U>()
    ensures { (ok : T → Bool) (fine : U → Bool) (holds : T → U → List ℕ → Bool) (K : ℕ → Bool) (hook : Hook T) (look : Hook U) (script : Script) (p : Program) → Keeps ok fine (held holds) K hook look script p → LooksOn fine look → HookFits ok fine (held holds) K hook look script p → HookIsFaithful ok fine (held holds) K hook look script p }
{}

/// The same from the call of a method on.
#[tactic(auto, using(crate::proofs::Evals::call_faithful))]
pub fn right_answers_change_no_call<T, U>()
    ensures { (ok : T → Bool) (fine : U → Bool) (holds : T → U → List ℕ → Bool) (K : ℕ → Bool) (hook : Hook T) (look : Hook U) (script : Script) (p : Program) → Keeps ok fine (held holds) K hook look script p → LooksOn fine look → HookFits ok fine (held holds) K hook look script p → CallIsFaithful ok fine (held holds) K hook look script p }
{}

/// The same from the start of the class of `main` on.
#[tactic(auto, using(crate::proofs::Evals::main_faithful))]
pub fn right_answers_change_no_main<T, U>()
    ensures { (ok : T → Bool) (fine : U → Bool) (holds : T → U → List ℕ → Bool) (K : ℕ → Bool) (hook : Hook T) (look : Hook U) (script : Script) (p : Program) → Keeps ok fine (held holds) K hook look script p → LooksOn fine look → HookFits ok fine (held holds) K hook look script p → MainIsFaithful ok fine (held holds) K hook look script p }
{}

/// The report of a whole run with such a hook is that of the run on one heap.
pub fn right_answers_change_no_report<T, U>()
    ensures { (ok : T → Bool) (fine : U → Bool) (holds : T → U → List ℕ → Bool) (K : ℕ → Bool) (hook : Hook T) (look : Hook U) (script : Script) (p : Program) → Keeps ok fine (held holds) K hook look script p → LooksOn fine look → HookFits ok fine (held holds) K hook look script p → ReportIsLocal ok fine (held holds) hook look script p }
{}

/// A hook that captures a call, has it evaluated in another world with answers of classes in `K` alone, whose cursors agree, and merges the outcome, changes nothing.
pub fn migrated_calls_change_nothing<T, U>()
    ensures { (ok : T → Bool) (fine : U → Bool) (holds : T → U → List ℕ → Bool) (K : ℕ → Bool) (hook : Hook T) (look : Hook U) (script : Script) (p : Program) → Keeps ok fine (held holds) everything hook look script p → LooksOn fine look → HookMigrates ok fine (held holds) K hook look script p → HookIsFaithful ok fine (held holds) everything hook look script p }
{}

/// And it changes no report of a whole run.
pub fn migrated_calls_change_no_report<T, U>()
    ensures { (ok : T → Bool) (fine : U → Bool) (holds : T → U → List ℕ → Bool) (K : ℕ → Bool) (hook : Hook T) (look : Hook U) (script : Script) (p : Program) → Keeps ok fine (held holds) everything hook look script p → LooksOn fine look → HookMigrates ok fine (held holds) K hook look script p → ReportIsLocal ok fine (held holds) hook look script p }
{}
