//! Register types, the typing rules, what it is for a program to be well typed, how a typing is found and which fault is first: definitions and laws.
#![tactic(auto)]

ghost use Rattle.cc_meaning_typing.specs.Laws.{ClassTests, TypeTrees, TypesAreOrdered, LeastTypes, RegistersAreOrdered, Joins, StatesAreOrdered, StateJoins, MonotoneRules, BoundedGrowth, TypedReaches};
ghost use Rattle.cc_meaning_typing.specs.Worked.{TypesHold, JoinsHold, MovesHold, ResultsHold, ReturnsHold, ConstantsHold, ObjectsHold, ArraysHold, FieldsHold, CallsHold, OperationsHold, BranchesHold, StatesHold};
ghost use Rattle.cc_meaning_typing.specs.WorkedErrors.{ErrorTypesHold, ErrorsHold};
ghost use Rattle.cc_meaning_typing.specs.WorkedTyping.{TypingsHold};

mod state;
mod verify_laws;

pub use state::{Pending, State};
pub use verify_laws::{
    law_cover_tries, law_find_typings, law_laid_out, law_leads_spread, law_one_fault,
    law_one_first_fault, law_shrink_tries,
};

/// In a hierarchy, the types are a tree with Object at its root.
pub fn law_tree()
    ensures { TypeTrees }
{}

/// In a hierarchy, the tests of classes decide what a class inherits from, and what an object of a class fits.
#[tactic(auto, using(crate::proofs::ClassTests::class_tests))]
pub fn law_class_tests()
    ensures { ClassTests }
{}

/// In a hierarchy, being below is a partial order on types.
#[tactic(auto, using(crate::proofs::Lattice::types_are_ordered))]
pub fn law_types()
    ensures { TypesAreOrdered }
{}

/// In a hierarchy, any two types have a least one that both are below.
#[tactic(auto, using(crate::proofs::Lattice::least_types))]
pub fn law_least_type()
    ensures { LeastTypes }
{}

/// In a hierarchy, covering is a partial order on register types.
#[tactic(auto, using(crate::proofs::Lattice::registers_are_ordered))]
pub fn law_covering()
    ensures { RegistersAreOrdered }
{}

/// In a hierarchy, the join is the least register type that covers both, commutative and idempotent; one covers another exactly where their join is it.
#[tactic(auto, using(crate::proofs::Lattice::joins))]
pub fn law_join()
    ensures { Joins }
{}

/// In a hierarchy, covering is a partial order on states.
#[tactic(auto, using(crate::proofs::Registers::states_are_ordered))]
pub fn law_states()
    ensures { StatesAreOrdered }
{}

/// In a hierarchy, two states with as many registers have a least one that covers both.
#[tactic(auto, using(crate::proofs::StateJoin::state_joins))]
pub fn law_state_join()
    ensures { StateJoins }
{}

/// In a hierarchy, what a rule accepts it accepts of each state that this one covers, and what it gives then covers likewise.
#[tactic(auto, using(crate::proofs::Monotone::monotone_rules))]
pub fn law_rules()
    ensures { MonotoneRules }
{}

/// In a hierarchy, a state that covers another is that one or has less room to grow, so that states that grow come to an end.
#[tactic(auto, using(crate::proofs::Growth::bounded_growth))]
pub fn law_growth()
    ensures { BoundedGrowth }
{}

/// A method with a typing falls neither off its end nor into a payload.
#[tactic(auto, using(crate::proofs::Typed::typed_reaches))]
pub fn law_typing()
    ensures { TypedReaches }
{}

/// The definitions of typings at worked examples: a loop with a handler has a typing, a return of a register that holds nothing has none.
#[tactic(auto, using(crate::proofs::WorkedTyping::typings_hold))]
pub fn worked_typings()
    ensures { TypingsHold }
{}

/// The definitions at the worked example of outside exceptions: each is held as itself, stands below its superclass, and is thrown and caught.
#[tactic(auto, using(crate::proofs::WorkedErrors::error_types_hold, crate::proofs::WorkedErrors::errors_hold))]
pub fn worked_errors()
    ensures types { ErrorTypesHold }
    ensures errors { ErrorsHold }
{}

/// The definitions at worked examples: one for each row of the table of rules, and what each row refuses.
#[tactic(auto, using(crate::proofs::Worked::types_hold, crate::proofs::Worked::joins_hold, crate::proofs::Worked::moves_hold, crate::proofs::Worked::results_hold, crate::proofs::Worked::returns_hold, crate::proofs::Worked::constants_hold, crate::proofs::Worked::objects_hold, crate::proofs::Worked::arrays_hold, crate::proofs::Worked::fields_hold, crate::proofs::Worked::calls_hold, crate::proofs::Worked::operations_hold, crate::proofs::Worked::branches_hold, crate::proofs::Worked::states_hold))]
pub fn worked_rules()
    ensures types { TypesHold }
    ensures joins { JoinsHold }
    ensures moves { MovesHold }
    ensures results { ResultsHold }
    ensures returns { ReturnsHold }
    ensures constants { ConstantsHold }
    ensures objects { ObjectsHold }
    ensures arrays { ArraysHold }
    ensures fields { FieldsHold }
    ensures calls { CallsHold }
    ensures operations { OperationsHold }
    ensures branches { BranchesHold }
    ensures states { StatesHold }
{}
