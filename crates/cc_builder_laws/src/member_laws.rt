//! What is written is what is read, for class data and code items.

ghost use Rattle.cc_meaning_builder.specs.Laws.{WrittenCode, WrittenMembers, WrittenTries};
ghost use Rattle.cc_builder_laws.specs.Lower.{Lower};

use crate::{
    stands_apart, stands_within, uleb_length, units_length, written_sleb, written_u16, written_u32,
    written_uleb,
};

/// The members of a class are spelled where its class data is written, by their rows, flags and places of code.
pub fn written_members()
    ensures { WrittenMembers }
{
    lower();
}

/// A method has sound code where it is written with code that suits its flags, or with none that it is to have.
pub fn written_code()
    ensures { WrittenCode }
{
    lower();
}

/// A method is spelled with its units, tries and handlers where it is written, if its tries lie in its code.
pub fn written_tries()
    ensures { WrittenTries }
{
    lower();
}

/// The laws of numbers and of parts that the others stand on.
fn lower()
    ensures { Lower }
{
    stands_apart();
    stands_within();
    written_u16();
    written_u32();
    written_uleb();
    written_sleb();
    uleb_length();
    units_length();
}
