//! Words with fields behind them.

ghost use Rattle.std.specs.Prelude.{◌≡◌, IfOk, OnOk};
ghost use Rattle.cc_output.specs.Faults.{with_number, with_name, with_place, with_text};

use crate::{put_text, put_units};
use std::alloc::{AllocError, Global};

/// Adds a blank and a number in decimal.
fn put_number(alloc: Global, line: &mut Vec<u8>, number: u32) -> Result<(), AllocError>
    ensures { OnOk result (line.new.items ≡ with_number line.old.items number) }
{
    line.push(b' ')?;
    let digits = number.to_string(alloc)?;
    line.extend_from_slice(digits.as_bytes())
}

/// Adds a blank and a name.
fn put_name(line: &mut Vec<u8>, name: &[u16]) -> Result<(), AllocError>
    ensures { OnOk result (line.new.items ≡ with_name line.old.items name.now) }
{
    line.push(b' ')?;
    put_units(line, name)
}

/// Words and a number.
pub(crate) fn with_number(alloc: Global, words: &[u8], number: u32) -> Result<Vec<u8>, AllocError>
    ensures { IfOk result (λ line. line.items ≡ with_number words.now number) }
{
    let mut line = Vec::from_slice(alloc, words)?;
    put_number(alloc, &mut line, number)?;
    Ok(line)
}

/// Words and two numbers.
pub(crate) fn with_numbers(
    alloc: Global,
    words: &[u8],
    first: u32,
    second: u32,
) -> Result<Vec<u8>, AllocError>
    ensures { IfOk result (λ line. line.items ≡ with_number (with_number words.now first) second) }
{
    let mut line = with_number(alloc, words, first)?;
    put_number(alloc, &mut line, second)?;
    Ok(line)
}

/// Words and a name.
pub(crate) fn with_name(alloc: Global, words: &[u8], name: &[u16]) -> Result<Vec<u8>, AllocError>
    ensures { IfOk result (λ line. line.items ≡ with_name words.now name.now) }
{
    let mut line = Vec::from_slice(alloc, words)?;
    put_name(&mut line, name)?;
    Ok(line)
}

/// Words, the name of a method, and an address in it in units.
pub(crate) fn with_place(
    alloc: Global,
    words: &[u8],
    method: &[u16],
    pc: u32,
) -> Result<Vec<u8>, AllocError>
    ensures { IfOk result (λ line. line.items ≡ with_place words.now method.now pc) }
{
    let mut line = with_name(alloc, words, method)?;
    put_number(alloc, &mut line, pc)?;
    Ok(line)
}

/// Words and the name in a text.
pub(crate) fn with_text(alloc: Global, words: &[u8], text: &str) -> Result<Vec<u8>, AllocError>
    ensures { IfOk result (λ line. line.items ≡ with_text words.now text.now) }
{
    let mut line = Vec::from_slice(alloc, words)?;
    line.push(b' ')?;
    put_text(&mut line, text)?;
    Ok(line)
}
