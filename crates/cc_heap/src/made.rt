//! The lists of what was made for literals and class constants.

ghost use Rattle.std.specs.Prelude.{◌≡◌, ℕ, ◌==◌, cond, List, Some};
ghost use Rattle.cc_meaning.specs.declared.value.Made.{Made};
ghost use Rattle.cc_heap.specs.Made.{number_for, noted, Rises};

/// What is noted is found, all else is as before, and the list still rises.
#[tactic(auto, using(crate::proofs::Noting::found, crate::proofs::Noting::order))]
pub fn law_noted()
    ensures found { (what number asked : ℕ) (made : List Made) →
        number_for asked (noted what number made) ≡ cond (what == asked) (Some number) (number_for asked made) }
    ensures order { (what number : ℕ) (made : List Made) → Rises made → Rises (noted what number made) }
{}
