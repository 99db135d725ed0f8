//! Numbers.

ghost use Rattle.std.specs.Prelude.{◌≡◌, ◌≤◌, ◌++◌, ◌-◌, if◌then◌else◌, nat_le, nat_lt, IfOk, OnOk};
ghost use Rattle.std.specs.List.{flat_map};
ghost use Rattle.cc_meaning_builder.specs.Forms.{u16_form, u32_form, uleb_form, sleb_form};

use arrayvec::ArrayVec;
use cc_meaning::fault::Memory;
use cc_meaning::lists::Bytes;

/// A number in LEB128, which takes one to five bytes.
pub(crate) type Leb = ArrayVec<u8, 5>;

/// How many groups a number in LEB128 has at most in front of its last one.
const GROUPS_BEFORE: usize = 4;

/// Puts a number of 16 bits behind the bytes that are there, the lowest byte first.
///
/// # Errors
///
/// `Memory`: there is no memory.
#[tactic(auto, unfolding(cc_meaning_builder::specs::Forms::little_form))]
pub fn put_u16(out: &mut Bytes, n: u16) -> Result<(), Memory>
    ensures { OnOk result (out.new ≡ out.old ++ u16_form n) }
{
    out.extend_from_slice(&n.to_le_bytes())?;
    Ok(())
}

/// Puts a number of 32 bits behind the bytes that are there, the lowest byte first.
///
/// # Errors
///
/// `Memory`: there is no memory.
#[tactic(auto, unfolding(cc_meaning_builder::specs::Forms::little_form))]
pub fn put_u32(out: &mut Bytes, n: u32) -> Result<(), Memory>
    ensures { OnOk result (out.new ≡ out.old ++ u32_form n) }
{
    out.extend_from_slice(&n.to_le_bytes())?;
    Ok(())
}

/// A number in ULEB128, in as few bytes as there need be.
/// Source: Dalvik Executable format, section LEB128.
pub(crate) fn uleb(n: u32) -> Leb
    ensures { result.items ≡ uleb_form n }
{
    let mut bytes = Leb::new();
    let mut rest = n;
    while rest >= 128 {
        bytes.push(128 + (rest % 128) as u8);
        rest /= 128;
    }
    bytes.push(rest as u8);
    bytes
}

/// Puts a number in ULEB128 behind the bytes that are there, in as few bytes as there need be.
/// Source: Dalvik Executable format, section LEB128.
///
/// # Errors
///
/// `Memory`: there is no memory.
pub fn put_uleb(out: &mut Bytes, n: u32) -> Result<(), Memory>
    ensures { OnOk result (out.new ≡ out.old ++ uleb_form n) }
{
    out.extend_from_slice(&uleb(n))?;
    Ok(())
}

/// A count in 32 bits. More than they hold is as much as no memory.
pub(crate) fn short(count: usize) -> Result<u32, Memory>
    ensures { IfOk result (λ short. short ≡ count) }
{
    u32::try_from(count).map_err(|_| Memory)
}

/// Puts a count in ULEB128 behind the bytes that are there.
pub(crate) fn put_count(out: &mut Bytes, count: usize) -> Result<(), Memory>
    ensures { OnOk result (out.new ≡ out.old ++ uleb_form count) }
{
    put_uleb(out, short(count)?)
}

/// Puts a count in 32 bits behind the bytes that are there.
pub(crate) fn put_long_count(out: &mut Bytes, count: usize) -> Result<(), Memory>
    ensures { OnOk result (out.new ≡ out.old ++ u32_form count) }
{
    put_u32(out, short(count)?)
}

/// Puts the low 16 bits of a number behind the bytes that are there.
pub(crate) fn put_low(out: &mut Bytes, n: usize) -> Result<(), Memory>
    ensures { OnOk result (out.new ≡ out.old ++ u16_form n) }
{
    put_u16(out, (n % 65536) as u16)
}

/// A number in SLEB128, by its size and whether it is negative, in as few bytes as there need be.
///
/// The number is taken modulo 2 ^ 35. What its groups so far leave of it is modulo `bound`, so the last 64 numbers below that stand for -64 to -1.
/// Source: Dalvik Executable format, section LEB128.
pub(crate) fn sleb(negative: bool, size: u32) -> Leb
    ensures { result.items ≡ sleb_form negative size }
{
    let mut bound = 1_u64 << 35;
    let mut rest = u64::from(size);
    if negative {
        rest = bound - rest;
    }
    let mut bytes = Leb::new();
    for _ in 0..GROUPS_BEFORE {
        if is_last(negative, rest, bound) {
            bytes.push((rest % 128) as u8);
            return bytes;
        }
        bytes.push(128 + (rest % 128) as u8);
        rest /= 128;
        bound /= 128;
    }
    bytes.push((rest % 128) as u8);
    bytes
}

/// Whether one group holds what is left of a number in SLEB128, where `bound` is one more than the largest that may be left.
fn is_last(negative: bool, rest: u64, bound: u64) -> bool
    requires { 64 ≤ bound }
    ensures { result ≡ (if negative then nat_le (bound - 64) rest else nat_lt rest 64) }
{
    if negative {
        bound - 64 <= rest
    } else {
        rest < 64
    }
}

/// Puts numbers of 16 bits behind the bytes that are there.
pub(crate) fn put_units(out: &mut Bytes, units: &[u16]) -> Result<(), Memory>
    ensures { OnOk result (out.new ≡ out.old ++ flat_map u16_form units.now) }
{
    for unit in units {
        put_u16(out, *unit)?;
    }
    Ok(())
}
