//! The law of bounds: what no legal partition costs less than.
#![tactic(auto)]

ghost use Rattle.std.specs.Prelude.{ℕ, List};
ghost use Rattle.cc_meaning.specs.declared.profile.Profiles.{Profiles};
ghost use Rattle.cc_meaning.specs.declared.program.Program.{Program};
ghost use Rattle.cc_meaning.specs.declared.script.Script.{Script};
ghost use Rattle.cc_meaning_calls.specs.Certificates.{BoundsHold};

/// No legal completion of what is chosen costs less than its bound, and there is none where it breaks a rule.
pub fn law_bounds()
    ensures { (p : Program) (script : Script) (candidates : List ℕ) (profiles : Profiles) → BoundsHold p script candidates profiles }
{}

ghost use Rattle.cc_meaning_calls.specs.Certificates.{ProofsHold};

/// What a tree of choices proves is so: no legal partition costs less than what is claimed.
pub fn law_proofs()
    ensures { ProofsHold }
{}
