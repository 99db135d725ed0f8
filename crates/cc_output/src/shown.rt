//! Names as they are shown in a line.

ghost use Rattle.std.specs.Prelude.{◌≡◌, ◌++◌, ◌<◌, OnOk, false};
ghost use Rattle.std.specs.Fmt.{digit_glyph};
ghost use Rattle.cc_output.specs.Shown.{shown_unit, shown_units, shown_text};
ghost use Rattle.std.specs.Char.Escape.{encode_utf16};

use std::alloc::AllocError;

/// A hexadecimal digit, in lower case.
fn hex_digit(digit: u16) -> u8
    requires { digit < 16 }
    ensures { result ≡ digit_glyph false digit }
{
    if digit < 10 {
        48 + digit as u8
    } else {
        87 + digit as u8
    }
}

/// Adds a unit of UTF-16: as it is where it is printable and no blank, else by its digits.
fn put_unit(line: &mut Vec<u8>, unit: u16) -> Result<(), AllocError>
    ensures { OnOk result (line.new.items ≡ line.old.items ++ shown_unit unit) }
{
    if (33..=126).contains(&unit) {
        line.push(unit as u8)?;
        return Ok(());
    }
    line.extend_from_slice(&[
        b'\\',
        b'u',
        hex_digit(unit / 4096),
        hex_digit(unit / 256 % 16),
        hex_digit(unit / 16 % 16),
        hex_digit(unit % 16),
    ])
}

/// Adds a name, unit by unit of UTF-16.
pub fn put_units(line: &mut Vec<u8>, units: &[u16]) -> Result<(), AllocError>
    ensures { OnOk result (line.new.items ≡ line.old.items ++ shown_units units.now) }
{
    for &unit in units {
        put_unit(line, unit)?;
    }
    Ok(())
}

/// Adds a character, as its one or two units of UTF-16.
fn put_char(line: &mut Vec<u8>, c: char) -> Result<(), AllocError>
    ensures { OnOk result (line.new.items ≡ line.old.items ++ shown_units (encode_utf16 c)) }
{
    let code = c as u32;
    if code < 0x1_0000 {
        return put_unit(line, code as u16);
    }
    let rest = code - 0x1_0000;
    put_unit(line, (0xD800 + rest / 0x400) as u16)?;
    put_unit(line, (0xDC00 + rest % 0x400) as u16)
}

/// Adds the name in a text, unit by unit of UTF-16.
pub fn put_text(line: &mut Vec<u8>, text: &str) -> Result<(), AllocError>
    ensures { OnOk result (line.new.items ≡ line.old.items ++ shown_text text.now) }
{
    for c in text.chars() {
        put_char(line, c)?;
    }
    Ok(())
}
