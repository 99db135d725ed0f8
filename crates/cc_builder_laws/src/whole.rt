//! The law of a file that is built: what is written for classes that were added is read again.

ghost use Rattle.cc_meaning_builder.specs.Laws.{WrittenIsReadAgain};

use crate::{written_code, written_members, written_tables, written_tries, written_values};
use cc_meaning_dex::members_agree;

/// What is written for classes that were added, within the bounds of the format, is read again: its header and tables have no fault, its classes none but
/// where they were added with it, and where they suit they are what the file spells.
pub fn written_is_read_again()
    ensures { WrittenIsReadAgain }
{
    members_agree();
    written_tables();
    written_members();
    written_code();
    written_tries();
    written_values();
}
