//! Numbers of a fixed width in a file.

ghost use Rattle.std.specs.Prelude.{◌≡◌};
ghost use Rattle.cc_meaning_dex.specs.Numbers.{Within, u16_at, u32_at};

use byteorder::{ByteOrder, LittleEndian};

/// The number of 16 bits at `at`, lowest byte first. Takes no memory.
#[tactic(auto, unfolding(cc_meaning_dex::specs::Numbers::u16_at))]
pub fn u16_at(file: &[u8], at: usize) -> u16
    requires { Within file.now at 2 }
    ensures { result ≡ u16_at file.now at }
{
    LittleEndian::read_u16(&file[at..])
}

/// The number of 32 bits at `at`, lowest byte first. Takes no memory.
#[tactic(auto, unfolding(cc_meaning_dex::specs::Numbers::u16_at, cc_meaning_dex::specs::Numbers::u32_at))]
pub fn u32_at(file: &[u8], at: usize) -> u32
    requires { Within file.now at 4 }
    ensures { result ≡ u32_at file.now at }
{
    LittleEndian::read_u32(&file[at..])
}
