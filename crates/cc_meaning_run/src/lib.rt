//! What a program does: the world of a run, the instructions, the evaluator, the report, and their laws.
#![tactic(auto)]

ghost use Rattle.std.specs.Prelude.{◌≡◌};
ghost use Rattle.cc_meaning_run.specs.World.{Setting};
ghost use Rattle.cc_meaning_run.specs.Eval.{Hook};
ghost use Rattle.cc_meaning_run.specs.Laws.{HookSpends, BoundFree};

/// Any bound of the evaluator that is large enough gives the same end, world and record.
#[tactic(auto, using(crate::proofs::Bounds::bound_free))]
pub fn law_bound<T>()
    ensures { (hook : Hook T) (s : Setting) → HookSpends hook → BoundFree hook s }
{}
