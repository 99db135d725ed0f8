//! The name of a class in UTF-8, without a copy.

ghost use Rattle.std.specs.Prelude.{◌≡◌, ◌↔◌, ◌<◌, ◌≤◌, ◌++◌, ℕ, List, length, drop, encode_utf8, IsTrue, MatchOption};
ghost use Rattle.cc_meaning_run.specs.Local.{utf8_of};

/// The first character, with a question mark for half a pair of units, and how many units it has.
fn first_char(units: &[u16]) -> (char, usize)
    requires { 0 < length units.now }
    ensures low { 0 < result.1 }
    ensures high { result.1 ≤ length units.now }
    ensures first { utf8_of units.now ≡ encode_utf8 result.0 ++ utf8_of (drop result.1 units.now) }
{
    let high = units[0] as u32;
    if high < 0xD800 || 0xE000 <= high {
        return (char::from_u32(high).unwrap_or('?'), 1);
    }
    if 0xDC00 <= high || units.len() < 2 {
        return ('?', 1);
    }
    let low = units[1] as u32;
    if low < 0xDC00 || 0xE000 <= low {
        return ('?', 1);
    }
    let code = 0x1_0000 + (high - 0xD800) * 0x400 + (low - 0xDC00);
    (char::from_u32(code).unwrap_or('?'), 2)
}

/// What is left of a text behind a character, where it begins with that.
fn after_char(text: &[u8], c: char) -> Option<&[u8]>
    ensures { MatchOption result ((rest : List ℕ) → text.now ≡ encode_utf8 c ++ rest → ⊥) (λ rest. text.now ≡ encode_utf8 c ++ rest.now) }
{
    let mut room = [0u8; 4];
    text.strip_prefix(c.encode_utf8(&mut room).as_bytes())
}

/// Whether a text is the UTF-8 of these units.
pub(crate) fn is_named(text: &[u8], units: &[u16]) -> bool
    ensures { IsTrue result ↔ (text.now ≡ utf8_of units.now) }
{
    let mut left = text;
    let mut rest = units;
    while !rest.is_empty() {
        let (c, count) = first_char(rest);
        match after_char(left, c) {
            Some(after) => left = after,
            None => return false,
        }
        rest = rest.split_at(count).1;
    }
    left.is_empty()
}
