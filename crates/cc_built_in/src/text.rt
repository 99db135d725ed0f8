//! Texts of ASCII and names as units.

ghost use Rattle.std.specs.Prelude.{◌≡◌, IfOk};
ghost use Rattle.std.specs.Str.{bytes_eq};

use cc_list::List;
use cc_meaning::lists::Units;
use std::alloc::{AllocError, Global};

/// Whether a name is this text of ASCII.
pub fn spells(name: &[u16], text: &[u8]) -> bool
    ensures { result ≡ bytes_eq text.now name.now }
{
    text.iter()
        .map(|byte| u16::from(*byte))
        .cmp(name.iter().copied())
        .is_eq()
}

/// A text of ASCII as units.
pub fn units_of(alloc: Global, text: &[u8]) -> Result<Units, AllocError>
    ensures { IfOk result (λ units. units ≡ text.now) }
{
    let mut units = List::new(alloc);
    for byte in text {
        units.push(u16::from(*byte))?;
    }
    Ok(units)
}
