//! What a program does: its instructions, its calls, its exceptions, the starts of its classes, the whole run with its report, and a run that is paused.
#![tactic(auto)]

ghost use Rattle.cc_meaning_exec.specs.WorkedNumbers.{NumbersHold, MovesHold, BranchesHold};

/// The definitions at worked examples: arithmetic, moves and constants, branches and switches.
#[tactic(auto, using(crate::proofs::WorkedNumbers::numbers_hold, crate::proofs::WorkedNumbers::moves_hold, crate::proofs::WorkedNumbers::branches_hold))]
pub fn worked_numbers()
    ensures numbers { NumbersHold }
    ensures moves { MovesHold }
    ensures branches { BranchesHold }
{}

ghost use Rattle.cc_meaning_exec.specs.WorkedObjects.{ArraysHold, FieldsHold, CastsHold, LiteralsHold};

/// The same of arrays, fields and statics, casts, literals and class constants, with the exceptions that they throw.
#[tactic(auto, using(crate::proofs::WorkedObjects::arrays_hold, crate::proofs::WorkedObjects::fields_hold, crate::proofs::WorkedObjects::casts_hold, crate::proofs::WorkedObjects::literals_hold))]
pub fn worked_objects()
    ensures arrays { ArraysHold }
    ensures fields { FieldsHold }
    ensures casts { CastsHold }
    ensures literals { LiteralsHold }
{}

ghost use Rattle.cc_meaning_exec.specs.WorkedCalls.{CallsHold, HandlersHold, BuiltInsHold};

/// The same of calls with their dispatch, of handlers, and of built-in methods.
#[tactic(auto, using(crate::proofs::WorkedCalls::calls_hold, crate::proofs::WorkedCalls::handlers_hold, crate::proofs::WorkedCalls::built_ins_hold))]
pub fn worked_calls()
    ensures calls { CallsHold }
    ensures handlers { HandlersHold }
    ensures built_ins { BuiltInsHold }
{}

ghost use Rattle.cc_meaning_exec.specs.WorkedRuns.{StartsHold, ScriptsHold};

/// The same of starts of classes, and of scripted calls with each kind of answer.
#[tactic(auto, using(crate::proofs::WorkedRuns::starts_hold, crate::proofs::WorkedRuns::scripts_hold))]
pub fn worked_runs()
    ensures starts { StartsHold }
    ensures scripts { ScriptsHold }
{}

ghost use Rattle.cc_meaning_exec.specs.WorkedSteps.{StepsHold};

/// The same of an initialiser before `main`, and of that run in steps.
#[tactic(auto, using(crate::proofs::WorkedSteps::steps_hold))]
pub fn worked_steps()
    ensures { StepsHold }
{}

ghost use Rattle.cc_meaning_exec.specs.WorkedCorners.{ArrayCastsHold, OtherCallsHold, OtherStartsHold, HeldCallsHold};

/// The same of corners: casts of arrays, calls that name interfaces or abstract methods, starts that fail, and which calls are held.
#[tactic(auto, using(crate::proofs::WorkedCorners::array_casts_hold, crate::proofs::WorkedCorners::other_calls_hold, crate::proofs::WorkedCorners::other_starts_hold, crate::proofs::WorkedCorners::held_calls_hold))]
pub fn worked_corners()
    ensures array_casts { ArrayCastsHold }
    ensures other_calls { OtherCallsHold }
    ensures other_starts { OtherStartsHold }
    ensures held_calls { HeldCallsHold }
{}
