//! A text as units of UTF-16.

ghost use Rattle.std.specs.Prelude.{◌≡◌, ◌++◌, IfOk, OnOk};
ghost use Rattle.cc_units.specs.Units.{units_of};

use cc_list::List;
use cc_meaning::lists::Units;
use std::alloc::{AllocError, Global};

/// Adds a text, as its units of UTF-16.
pub fn add_text(units: &mut Units, text: &str) -> Result<(), AllocError>
    ensures { OnOk result (units.new ≡ units.old ++ units_of text.now) }
{
    for c in text.chars() {
        let mut room = [0u16; 2];
        let more = c.encode_utf16(&mut room);
        units.extend_from_slice(more)?;
    }
    Ok(())
}

/// A text's units of UTF-16.
pub fn units_of(alloc: Global, text: &str) -> Result<Units, AllocError>
    ensures { IfOk result (λ units. units ≡ units_of text.now) }
{
    let mut units = List::new(alloc);
    add_text(&mut units, text)?;
    Ok(units)
}
