//! The main class that is asked for.

ghost use Rattle.std.specs.Prelude.{◌≡◌, ◌++◌, IfOk, OnOk};
ghost use Rattle.std.specs.Char.Escape.{encode_utf16};
ghost use Rattle.cc_meaning_program.specs.Asked.{units_of, asked_class};

use cc_list::List;
use cc_meaning::lists::Units;
use std::alloc::{AllocError, Global};

/// Adds a character's units of UTF-16.
fn add_char(units: &mut Units, c: char) -> Result<(), AllocError>
    ensures { OnOk result (units.new ≡ units.old ++ encode_utf16 c) }
{
    let mut room = [0; 2];
    let more = c.encode_utf16(&mut room);
    units.extend_from_slice(more)
}

/// A text's units of UTF-16.
pub fn units_of(alloc: Global, text: &str) -> Result<Units, AllocError>
    ensures { IfOk result (λ units. units ≡ units_of text.now) }
{
    let mut units = List::new(alloc);
    for c in text.chars() {
        add_char(&mut units, c)?;
    }
    Ok(units)
}
