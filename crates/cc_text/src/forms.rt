//! The forms of units in MUTF-8.

ghost use Rattle.std.specs.Prelude.{◌≡◌, ◌≤◌, ◌<◌};
ghost use Rattle.cc_meaning_dex.specs.Mutf8.{front_of, front_of_two, front_of_three, goes_on, begins_three};

use cc_meaning::fault::TextFault;

/// What stands in front of these bytes, which begin at `at`: none for the zero byte, or a unit and how many bytes its form takes.
pub fn front(at: usize, bytes: &[u8]) -> Result<Option<(u16, usize)>, TextFault>
    ensures { result ≡ front_of at bytes.now }
{
    if bytes.is_empty() {
        return Err(TextFault::CutOff);
    }
    let first = bytes[0];
    if first == 0 {
        Ok(None)
    } else if first < 128 {
        Ok(Some((u16::from(first), 1)))
    } else if first < 192 || first >= 240 {
        Err(TextFault::BadForm { at })
    } else if first < 224 {
        front_of_two(at, first, &bytes[1..])
    } else {
        front_of_three(at, first, &bytes[1..])
    }
}

/// Whether a byte isn't the first of its form.
fn goes_on(byte: u8) -> bool
    ensures { result ≡ goes_on byte }
{
    byte >= 128 && byte < 192
}

/// What stands in front, by the first byte of a form of two and what follows it.
fn front_of_two(at: usize, first: u8, bytes: &[u8]) -> Result<Option<(u16, usize)>, TextFault>
    requires low { 192 ≤ first }
    requires high { first < 224 }
    ensures { result ≡ front_of_two at first bytes.now }
{
    if bytes.is_empty() {
        return Err(if first == 193 {
            TextFault::BadForm { at }
        } else {
            TextFault::CutOff
        });
    }
    let second = bytes[0];
    if !goes_on(second) {
        return Err(TextFault::BadForm { at });
    }
    let unit = u16::from(first - 192) * 64 + u16::from(second - 128);
    if unit == 0 || unit >= 128 {
        Ok(Some((unit, 2)))
    } else {
        Err(TextFault::BadForm { at })
    }
}

/// Whether the first two bytes of a form of three spell the upper bits of a unit that has such a form.
fn begins_three(first: u8, second: u8) -> bool
    requires low { 224 ≤ first }
    requires high { first < 240 }
    ensures { result ≡ begins_three first second }
{
    goes_on(second) && u16::from(first - 224) * 64 + u16::from(second - 128) >= 32
}

/// What stands in front, by the first byte of a form of three and what follows it.
fn front_of_three(at: usize, first: u8, bytes: &[u8]) -> Result<Option<(u16, usize)>, TextFault>
    requires low { 224 ≤ first }
    requires high { first < 240 }
    ensures { result ≡ front_of_three at first bytes.now }
{
    if bytes.is_empty() {
        return Err(TextFault::CutOff);
    }
    let second = bytes[0];
    if !begins_three(first, second) {
        return Err(TextFault::BadForm { at });
    }
    if bytes.len() == 1 {
        return Err(TextFault::CutOff);
    }
    let third = bytes[1];
    if !goes_on(third) {
        return Err(TextFault::BadForm { at });
    }
    let unit = u16::from(first - 224) * 4096
        + u16::from(second - 128) * 64
        + u16::from(third - 128);
    Ok(Some((unit, 3)))
}
