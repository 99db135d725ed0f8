//! Images of a thread's state: the order of its objects, what an image holds, its bytes, and the laws of reading them.
#![tactic(auto)]

ghost use Rattle.cc_meaning_images.specs.Order.{OutIsAlone};
ghost use Rattle.cc_meaning_images.specs.Forms.{RunIsSpelled, RunIsRead, BackIsSpelled, BackIsRead};

/// A state that mentions no object has `System.out` as its only one.
pub fn law_out_is_alone()
    ensures { OutIsAlone }
{}

/// The image of an entry that is read of bytes is the one that they spell.
pub fn law_run_is_spelled()
    ensures { RunIsSpelled }
{}

/// The image of an entry is read of the bytes that spell it.
#[tactic(auto, using(crate::proofs::Runs::run_is_read))]
pub fn law_run_is_read()
    ensures { RunIsRead }
{}

/// The image of an end that is read of bytes is the one that they spell.
pub fn law_back_is_spelled()
    ensures { BackIsSpelled }
{}

/// The image of an end is read of the bytes that spell it.
#[tactic(auto, using(crate::proofs::Backs::back_is_read))]
pub fn law_back_is_read()
    ensures { BackIsRead }
{}
