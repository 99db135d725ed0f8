//! How a verifier finds the least typing of a method, and which fault is a program's first: definitions and laws.

ghost use Rattle.cc_meaning_typing.specs.VerifyLaws.{LaidOutStands, LeadsSpread, FindTypings, CoverTries, ShrinkTries, OneFault, SoundHasNoFault, OneFirstFault, WellTypedHasNoFault};

use crate::{law_growth, law_rules, law_state_join, law_states};

/// Instructions that are laid out stand behind the units of those before them, and all before the end.
pub fn law_laid_out()
    ensures { LaidOutStands }
{}

/// Where control comes to an address states grow, and so they do over several addresses.
#[tactic(auto, using(crate::proofs::Spreading::leads_spread))]
pub fn law_leads_spread()
    ensures { LeadsSpread }
{
    law_states();
    law_state_join();
}

/// Where no rule is broken the states in the end are a typing, in a method that control doesn't leave.
#[tactic(auto, using(crate::proofs::Typings::find_typings))]
pub fn law_find_typings()
    ensures { FindTypings }
{
    law_states();
    law_state_join();
}

/// A typing covers the states on the way, so that a broken rule shows that there is none.
#[tactic(auto, using(crate::proofs::Covered::cover_tries))]
pub fn law_cover_tries()
    ensures { CoverTries }
{
    law_states();
    law_state_join();
    law_rules();
}

/// Tries come to an end: each leaves less room for further ones.
#[tactic(auto, using(crate::proofs::Room::shrink_tries))]
pub fn law_shrink_tries()
    ensures { ShrinkTries }
{
    law_states();
    law_state_join();
    law_growth();
}

/// A method has at most one fault, and none if it is well typed and not too wide.
#[tactic(auto, using(crate::proofs::FaultLaws::one_fault, crate::proofs::FaultLaws::sound_has_no_fault))]
pub fn law_one_fault()
    ensures one { OneFault }
    ensures sound { SoundHasNoFault }
{
    law_cover_tries();
}

/// A program has at most one first fault, and none if it is well typed and no method is too wide.
#[tactic(auto, using(crate::proofs::FaultLaws::one_first_fault, crate::proofs::FaultLaws::well_typed_has_no_fault))]
pub fn law_one_first_fault()
    ensures one { OneFirstFault }
    ensures well_typed { WellTypedHasNoFault }
{
    law_cover_tries();
}
