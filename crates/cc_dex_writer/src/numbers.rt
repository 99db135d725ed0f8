//! Numbers of a fixed width, lowest byte first.

ghost use Rattle.std.specs.Prelude.{◌≡◌, ◌++◌, ◌<◌, ◌^◌, ℕ, slice_index, OnOk};
ghost use Rattle.std.specs.List.{flat_map};
ghost use Rattle.cc_meaning_builder.specs.Forms.{u16_form, u32_form};

use cc_items::{put_u16, put_u32};
use cc_meaning::fault::Memory;
use cc_meaning::lists::Bytes;

/// A count or an offset as a number of 32 bits. Files of more than 2 ^ 32 bytes are outside of the format, and their numbers are cut off at the highest.
pub fn number(n: usize) -> u32
    ensures { n < 2 ^ 32 → result ≡ n }
{
    u32::try_from(n).unwrap_or(u32::MAX)
}

/// Puts the low 16 bits of a number.
pub fn put_low(out: &mut Bytes, n: u32) -> Result<(), Memory>
    ensures { OnOk result (out.new ≡ out.old ++ u16_form n) }
{
    put_u16(out, (n % 65_536) as u16)?;
    Ok(())
}

/// Puts numbers of 32 bits, one behind the other.
pub fn put_numbers(out: &mut Bytes, numbers: &[u32]) -> Result<(), Memory>
    ensures added { OnOk result (out.new ≡ out.old ++ flat_map u32_form numbers.now) }
    ensures wide { (place : ℕ) → slice_index numbers.now place < 2 ^ 32 }
{
    for n in numbers {
        put_u32(out, *n)?;
    }
    Ok(())
}
