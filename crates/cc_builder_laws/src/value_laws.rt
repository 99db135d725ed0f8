//! The law of static values that a builder writes: what is written is what is read.

ghost use Rattle.cc_meaning_builder.specs.Laws.{WrittenValues};

use crate::{stands_apart, stands_within, uleb_length, written_uleb};

/// Static values that suit their fields are spelled where they are written.
pub fn written_values()
    ensures { WrittenValues }
{
    stands_apart();
    stands_within();
    uleb_length();
    written_uleb();
}
