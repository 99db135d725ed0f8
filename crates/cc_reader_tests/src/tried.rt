//! Code with tries.

use crate::draft::Draft;
use cc_list::List;
use cc_meaning::fault::Memory;
use cc_meaning::file::{RawCatch, RawCode, RawTry};
use std::alloc::Global;

/// A try as a code item states it (Dalvik Executable format, section try_item format): where it starts and how many it covers, in units, and how many bytes
/// its handler lies behind the start of the handler list.
#[derive(Clone, Copy)]
pub struct StatedTry {
    pub start: u32,
    pub count: u16,
    pub handler: u16,
}

/// Code of no registers but those of its arguments, with a try of the first unit for each of these handlers.
pub fn tried(
    alloc: Global,
    ins: u16,
    units: &[u16],
    handlers: &[&[RawCatch]],
) -> Result<RawCode, Memory> {
    let mut tries = List::new(alloc);
    for catches in handlers {
        tries.push(RawTry {
            start: 0,
            end: 1,
            catches: List::from_slice(alloc, catches)?,
        })?;
    }
    Ok(RawCode {
        registers: 0,
        ins,
        units: List::from_slice(alloc, units)?,
        tries,
    })
}

/// Where the tries stand in a code item at this offset: behind 16 bytes and the units, whose count is made even.
pub fn tries_at(at: u32, code: &RawCode) -> usize {
    let units = code.units.len();
    let even = units.saturating_add(units % 2);
    (at as usize)
        .saturating_add(16)
        .saturating_add(even.saturating_mul(2))
}

/// Writes a try over that at an offset.
fn set_try(draft: &mut Draft, at: usize, stated: StatedTry) {
    draft.set_number(at, stated.start);
    draft.set(at.saturating_add(4), &stated.count.to_le_bytes());
    draft.set(at.saturating_add(6), &stated.handler.to_le_bytes());
}

/// Puts a code item, with these in place of its first tries, and answers where it stands.
pub fn put_tried(draft: &mut Draft, code: &RawCode, tries: &[StatedTry]) -> Result<u32, Memory> {
    let at = draft.put_code(code)?;
    let first = tries_at(at, code);
    for (place, stated) in tries.iter().enumerate() {
        set_try(
            draft,
            first.saturating_add(place.saturating_mul(8)),
            *stated,
        );
    }
    Ok(at)
}
