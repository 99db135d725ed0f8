//! Images of a thread's state over graphs of objects: their order, what they hold, their bytes, their faults, and how they are put into a world.
#![tactic(auto)]

ghost use Rattle.cc_meaning_migration.specs.WorkedEntries.{EntriesHold, EntriesAreRead, EntriesAreRefused};
ghost use Rattle.cc_meaning_migration.specs.WorkedEnds.{EndsHold, EndsAreRefused};

mod image;

pub use image::{BackImage, Change, Changes, Version};

/// The definitions at worked examples: images of entries with a cycle, arrays of arrays, a text, a builder, a literal and a class constant, and their faults.
#[tactic(auto, using(crate::proofs::WorkedEntries::entries_hold, crate::proofs::WorkedEntries::entries_are_read, crate::proofs::WorkedEntries::entries_are_refused))]
pub fn worked_entries()
    ensures images { EntriesHold }
    ensures read { EntriesAreRead }
    ensures refused { EntriesAreRefused }
{}

/// The same of images of ends in both versions, of what they make of a world, and of their faults.
#[tactic(auto, using(crate::proofs::WorkedEnds::ends_hold, crate::proofs::WorkedEnds::ends_are_refused))]
pub fn worked_ends()
    ensures images { EndsHold }
    ensures refused { EndsAreRefused }
{}
