//! Which methods call which, which partitions are legal, what they cost, and what no legal one costs less than: definitions.
#![tactic(auto)]

ghost use Rattle.cc_meaning_calls.specs.WorkedCalls.{ShapesHold, OverridingHolds};
ghost use Rattle.cc_meaning_calls.specs.WorkedPlaces.{DiamondHolds, RulesHold};
ghost use Rattle.cc_meaning_calls.specs.WorkedCosts.{CostsHold, BoundsAre, ShapesAreProved};
ghost use Rattle.cc_meaning_calls.specs.WorkedTexts.{TextsHold};

/// The definitions of calls at worked examples: interfaces, overriding, the starts of classes, free and pinned methods, code that isn't reached.
#[tactic(auto, using(crate::proofs::WorkedCalls::shapes_hold, crate::proofs::WorkedCalls::overriding_holds))]
pub fn worked_calls()
    ensures shapes { ShapesHold }
    ensures overriding { OverridingHolds }
{}

/// The rules at worked examples: a helper on both nodes, which is legal, and each rule broken, with its least pair.
#[tactic(auto, using(crate::proofs::WorkedPlaces::diamond_holds, crate::proofs::WorkedPlaces::rules_hold))]
pub fn worked_places()
    ensures diamond { DiamondHolds }
    ensures rules { RulesHold }
{}

/// Costs and bounds of small runs, and a tree that proves a least cost.
#[tactic(auto, using(crate::proofs::WorkedCosts::costs_hold, crate::proofs::WorkedCosts::bounds_are, crate::proofs::WorkedCosts::shapes_are_proved))]
pub fn worked_costs()
    ensures costs { CostsHold }
    ensures bounds { BoundsAre }
    ensures least { ShapesAreProved }
{}

/// Texts of partitions, and what is wrong with others.
#[tactic(auto, using(crate::proofs::WorkedTexts::texts_hold))]
pub fn worked_texts()
    ensures { TextsHold }
{}
