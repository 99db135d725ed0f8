//! The two nodes over every program: what a clone answers to a stream, the run of a device over the frames that it got, and the statements of the laws about them.
#![tactic(auto)]

ghost use Rattle.cc_meaning_offload.specs.Worked.{RunsHold, HeldCallsHold};
ghost use Rattle.cc_meaning_offload.specs.Laws.{OffloadIsLocal};
ghost use Rattle.cc_meaning_offload.specs.Places.{CallsAreDirect, PlacesAreKept};
ghost use Rattle.cc_meaning_offload.specs.Clones.{HasVerdict};

/// The definitions at worked examples: a method that a clone runs, by images of each version; runs that fall back; a Run that makes a held call.
#[tactic(auto, using(crate::proofs::Worked::runs_hold, crate::proofs::Worked::held_calls_hold))]
pub fn worked_offloads()
    ensures runs { RunsHold }
    ensures held { HeldCallsHold }
{}
