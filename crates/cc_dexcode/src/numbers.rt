//! Numbers in LEB128 at a place of a file.

ghost use Rattle.cc_meaning_dex.specs.Sequences.{number_at, signed_at};
ghost use Rattle.cc_dexcode.specs.Finding.{Finds};

use crate::flaw::Flaw;
use cc_text::{sleb, uleb};

/// The number in ULEB128 at `at`, and the place after it.
pub fn number(file: &[u8], at: usize) -> Result<(u32, usize), Flaw>
    ensures { Finds (number_at file.now at) result }
{
    match uleb(file, at) {
        Ok(read) => Ok(read),
        Err(_) => Err(Flaw::Malformed),
    }
}

/// The signed number in SLEB128 at `at`, and the place after it.
pub fn signed_number(file: &[u8], at: usize) -> Result<(i32, usize), Flaw>
    ensures { Finds (signed_at file.now at) result }
{
    match sleb(file, at) {
        Ok(read) => Ok(read),
        Err(_) => Err(Flaw::Malformed),
    }
}
