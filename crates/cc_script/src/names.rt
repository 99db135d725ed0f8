//! Names among a program's.

ghost use Rattle.std.specs.Prelude.{◌≡◌};
ghost use Rattle.cc_meaning.specs.Order.{IsRising};
ghost use Rattle.cc_script.specs.Named.{name_place};

use cc_meaning::lists::Units;

/// The place of a name among names that rise.
pub(crate) fn name_place(names: &[Units], name: &[u16]) -> Option<usize>
    requires { IsRising names.now }
    ensures { result ≡ name_place names.now name.now }
{
    match names.binary_search_by(|other| other.as_slice().cmp(&name)) {
        Ok(at) => Some(at),
        Err(_) => None,
    }
}
