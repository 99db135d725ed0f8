//! The name of a function, as a text and in units of UTF-16.

ghost use Rattle.std.specs.Prelude.{◌≡◌, ◌++◌, ℕ, List, IfOk, OnOk, IsTrue, ◌↔◌, MatchOption, All, codes, slice_get};
ghost use Rattle.std.specs.Str.{IsUtf8};
ghost use Rattle.std.specs.Char.Escape.{encode_utf16};
ghost use Rattle.cc_meaning_plain.specs.declared.plain.PlainFunction.{PlainFunction};
ghost use Rattle.cc_partition.specs.Partition.{units_of, IsUnescaped};

use cc_meaning_plain::PlainFunctions;
use std::alloc::{AllocError, Global};

/// Between the class of a method and its name.
const ARROW: &[u16] = &[45, 62];

/// Whether each byte stands in a quoted text as it is.
fn is_unescaped(bytes: &[u8]) -> bool
    ensures { IsTrue result ↔ All IsUnescaped bytes.now }
{
    bytes.iter().all(|b| 32 <= *b && *b != b'"' && *b != b'\\')
}

/// The text of bytes that can stand between quotation marks as they are.
pub(crate) fn text_of(bytes: &[u8]) -> Option<&str>
    ensures { MatchOption result (IsUtf8 bytes.now → All IsUnescaped bytes.now → ⊥) (λ text. (text.now ≡ bytes.now) × IsUtf8 bytes.now × All IsUnescaped bytes.now) }
{
    if !is_unescaped(bytes) {
        return None;
    }
    str::from_utf8(bytes).ok()
}

/// Adds a character, as its one or two units of UTF-16.
fn push_char(units: &mut Vec<u16>, c: char) -> Result<(), AllocError>
    ensures { OnOk result (units.new.items ≡ units.old.items ++ encode_utf16 c) }
{
    let code = c as u32;
    if code < 0x1_0000 {
        units.push(code as u16)?;
        return Ok(());
    }
    let rest = code - 0x1_0000;
    units.extend_from_slice(&[
        (0xD800 + rest / 0x400) as u16,
        (0xDC00 + rest % 0x400) as u16,
    ])
}

/// The units of UTF-16 of a text.
pub(crate) fn units_of(alloc: Global, text: &str) -> Result<Vec<u16>, AllocError>
    ensures { IfOk result (λ units. units.items ≡ units_of text.now) }
{
    let mut units = Vec::new(alloc);
    for c in text.chars() {
        push_char(&mut units, c)?;
    }
    Ok(units)
}

/// What is behind a class and an arrow.
pub(crate) fn behind_class<'a>(units: &'a [u16], class: &[u16]) -> Option<&'a [u16]>
    ensures { MatchOption result ((name : List ℕ) → units.now ≡ class.now ++ (codes "->" ++ name) → ⊥) (λ name. units.now ≡ class.now ++ (codes "->" ++ name.now)) }
{
    match units.strip_prefix(class) {
        Some(rest) => rest.strip_prefix(ARROW),
        None => None,
    }
}

/// The place of the first function of a name.
pub(crate) fn place_of(functions: &PlainFunctions, name: &[u16]) -> Option<usize>
    ensures { MatchOption result ((i : ℕ) (function : PlainFunction) → slice_get functions.now i ≡ Some function → function.name ≡ name.now → ⊥)
        (λ i. (function : PlainFunction) × (slice_get functions.now i ≡ Some function) × (function.name ≡ name.now)) }
{
    for (i, function) in functions.as_slice().iter().enumerate() {
        if function.name.as_slice() == name {
            return Some(i);
        }
    }
    None
}
