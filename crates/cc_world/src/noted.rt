//! The lists of what was made for literals and class constants.

ghost use Rattle.std.specs.Prelude.{◌≡◌, ℕ, ◌==◌, cond, List, Some, None};
ghost use Rattle.cc_meaning.specs.declared.value.Made.{Made};
ghost use Rattle.cc_meaning_world.specs.Changes.{number_for, noted_made};
ghost use Rattle.cc_world.specs.Noted.{noted, Rises};

/// What is noted is found, all else is as before, and the list still rises. Where nothing was noted before, this is what a run does.
#[tactic(auto, using(crate::proofs::Noting::found, crate::proofs::Noting::order, crate::proofs::Noting::first))]
pub fn law_noted()
    ensures found { (what number asked : ℕ) (made : List Made) →
        number_for asked (noted what number made) ≡ cond (what == asked) (Some number) (number_for asked made) }
    ensures order { (what number : ℕ) (made : List Made) → Rises made → Rises (noted what number made) }
    ensures first { (what number : ℕ) (made : List Made) → number_for what made ≡ None →
        noted what number made ≡ noted_made (record { what = what; number = number }) made }
{}
