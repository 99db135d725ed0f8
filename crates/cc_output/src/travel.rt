//! How a device fared with its clone, in words.

ghost use Rattle.std.specs.Prelude.{◌≡◌, ◌++◌, OnOk};
ghost use Rattle.std.specs.Fmt.{decimal};
ghost use Rattle.cc_output.specs.Travel.{frame_code, image_code, end_words, fallback_words, travel_line};

use cc_meaning::fault::{FrameFault, ImageFault};
use cc_meaning::travel::{LinkEnd, Travel};
use std::alloc::{AllocError, Global};

/// The code of bytes that are no frame.
fn frame_code(fault: FrameFault) -> &'static [u8]
    ensures { result.now ≡ frame_code fault }
{
    match fault {
        FrameFault::BadKind => b"F1",
        FrameFault::TooLong => b"F2",
        FrameFault::BadDigest { .. } => b"F3",
        FrameFault::Memory => b"",
    }
}

/// The code of bytes that are no image.
fn image_code(fault: ImageFault) -> &'static [u8]
    ensures { result.now ≡ image_code fault }
{
    match fault {
        ImageFault::CutOff => b"W1",
        ImageFault::Trailing => b"W2",
        ImageFault::BadKind { .. } => b"W3",
        ImageFault::BadRef { .. } => b"W4",
        ImageFault::Unfit { .. } => b"W5",
        ImageFault::BadCounter => b"W6",
        ImageFault::Unanswered { .. } => b"W7",
        ImageFault::Memory => b"",
    }
}

/// Adds a word, a blank before it among them, and a code.
fn put_code(line: &mut Vec<u8>, word: &[u8], code: &[u8]) -> Result<(), AllocError>
    ensures { OnOk result (line.new.items ≡ line.old.items ++ (word.now ++ code.now)) }
{
    line.extend_from_slice(word)?;
    line.extend_from_slice(code)
}

/// Adds a word and a number in decimal.
fn put_number(alloc: Global, line: &mut Vec<u8>, word: &[u8], number: u64) -> Result<(), AllocError>
    ensures { OnOk result (line.new.items ≡ line.old.items ++ (word.now ++ decimal number)) }
{
    let digits = number.to_string(alloc)?;
    put_code(line, word, digits.as_bytes())
}

/// Adds why no more methods migrated.
fn put_end(alloc: Global, line: &mut Vec<u8>, end: LinkEnd) -> Result<(), AllocError>
    ensures { OnOk result (line.new.items ≡ line.old.items ++ end_words end) }
{
    match end {
        LinkEnd::DialFailed => line.extend_from_slice(b"dial"),
        LinkEnd::Failed => line.extend_from_slice(b"failed"),
        LinkEnd::Ended => line.extend_from_slice(b"ended"),
        LinkEnd::Waited(calls) => put_number(alloc, line, b"waited ", u64::from(calls)),
        LinkEnd::BadFrame(fault) => put_code(line, b"frame ", frame_code(fault)),
        LinkEnd::Unexpected(kind) => put_number(alloc, line, b"unexpected ", u64::from(kind)),
        LinkEnd::Unfit(fault) => put_code(line, b"unfit ", image_code(fault)),
        LinkEnd::Refused(status) => put_number(alloc, line, b"refused ", u64::from(status)),
    }
}

/// The same, or that nothing kept them from migrating.
fn put_fallback(
    alloc: Global,
    line: &mut Vec<u8>,
    fallback: Option<LinkEnd>,
) -> Result<(), AllocError>
    ensures { OnOk result (line.new.items ≡ line.old.items ++ fallback_words fallback) }
{
    match fallback {
        Some(end) => put_end(alloc, line, end),
        None => line.extend_from_slice(b"none"),
    }
}

/// Adds the line that says how many methods migrated and why no more did: `link migrated N, fallback WORD`.
pub fn put_travel_line(alloc: Global, text: &mut Vec<u8>, travel: Travel) -> Result<(), AllocError>
    ensures { OnOk result (text.new.items ≡ text.old.items ++ travel_line travel) }
{
    put_number(alloc, text, b"link migrated ", travel.migrations)?;
    text.extend_from_slice(b", fallback ")?;
    put_fallback(alloc, text, travel.fallback)?;
    text.push(b'\n')?;
    Ok(())
}
