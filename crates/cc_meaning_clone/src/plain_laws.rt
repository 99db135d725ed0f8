//! Laws of what a clone of plain files says to a stream, and of the verdict by which it goes.

ghost use Rattle.std.specs.Prelude.{Result, ℕ};
ghost use Rattle.cc_meaning_nodes.specs.Talk.{SaidGoesOn, StandingGoesOn, SaidIsFront};
ghost use Rattle.cc_meaning_nodes.specs.Talk.{NothingIsSaid, FirstIsAnswered, WaitsForRest, FaultCloses, ClosedIsSilent};
ghost use Rattle.cc_meaning_plain.specs.declared.plain.Plain.{Plain as PlainFile};
ghost use Rattle.cc_meaning_clone.specs.Plain.{plain_clone, VerdictGoesOn, VerdictOnFirst, VerdictWaits};

use cc_meaning::travel::CloneEnd;
use cc_meaning_nodes::{frame_laws, talk_laws};
use cc_meaning_plain::Plain;
use std::marker::Model;

// It only names a type at which the laws of talks hold.
struct Place {
    job: Option<Plain>,
}

impl Model for Place {
    ghost use Rattle.cc_meaning_nodes.specs.Clone.{ClonePlace};
    ghost use Rattle.cc_meaning_plain.specs.declared.plain.Plain.{Plain};
    ghost use Rattle.cc_meaning_clone.specs.Plain.{place_in};

    ghost Value = { ClonePlace Plain };

    ghost view = { λ a. place_in a.job };
}

/// What a clone says to a stream that goes on.
pub fn talk_goes_on()
    ensures said { (verdict : Result PlainFile ℕ) → SaidGoesOn (plain_clone verdict) }
    ensures standing { (verdict : Result PlainFile ℕ) → StandingGoesOn (plain_clone verdict) }
    ensures front { (verdict : Result PlainFile ℕ) → SaidIsFront (plain_clone verdict) }
{
    talk_laws::goes_on::<Place, CloneEnd>();
}

/// What each step of a clone comes to.
pub fn talk_steps()
    ensures nothing { (verdict : Result PlainFile ℕ) → NothingIsSaid (plain_clone verdict) }
    ensures first { (verdict : Result PlainFile ℕ) → FirstIsAnswered (plain_clone verdict) }
    ensures rest { (verdict : Result PlainFile ℕ) → WaitsForRest (plain_clone verdict) }
    ensures fault { (verdict : Result PlainFile ℕ) → FaultCloses (plain_clone verdict) }
    ensures closed { (verdict : Result PlainFile ℕ) → ClosedIsSilent (plain_clone verdict) }
{
    talk_laws::steps::<Place, CloneEnd>();
}

/// A verdict that is right for a stream is right for its beginning, and for what goes on from there.
pub fn verdict_goes_on()
    ensures { VerdictGoesOn }
{
    frame_laws::goes_on();
}

/// What each step of a clone does to it.
pub fn verdict_steps()
    ensures first { VerdictOnFirst }
    ensures rest { VerdictWaits }
{}
