//! The place of a name among names that rise.

ghost use Rattle.std.specs.Prelude.{◌≡◌, ◌^◌, ◌<◌, Some, slice_get, length, Contains, MatchOption};
ghost use Rattle.cc_meaning.specs.Order.{IsRising};

use cc_meaning::lists::Texts;

/// The number of a name among names that rise, counted from 0, or `None` where it isn't among them.
pub fn find(names: &Texts, name: &[u16]) -> Option<u32>
    requires few { length names.now < 2 ^ 32 }
    requires rise { IsRising names.now }
    ensures { MatchOption result
        (Contains names.now name.now → ⊥)
        (λ number. slice_get names.now number ≡ Some name.now) }
{
    match names
        .as_slice()
        .binary_search_by(|other| other.as_slice().cmp(&name))
    {
        Ok(place) => Some(place as u32),
        Err(_) => None,
    }
}
