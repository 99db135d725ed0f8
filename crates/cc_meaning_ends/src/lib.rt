//! How a plain file's run over received frames ends: a definition and a law.
#![tactic(auto)]

ghost use Rattle.cc_meaning_ends.specs.Ends.{PlainEnds};

use cc_meaning_device::law_plain_offloads;

/// A plain file's run over received frames makes no scripted call, and returns, or stops for want of instructions or words.
pub fn law_plain_ends()
    ensures { PlainEnds }
{
    law_plain_offloads();
}
