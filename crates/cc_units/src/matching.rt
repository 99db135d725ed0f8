//! What is left of a text behind units with which it begins, without a copy.

ghost use Rattle.std.specs.Prelude.{◌≡◌};
ghost use Rattle.std.specs.Option.{option_copied};
ghost use Rattle.cc_units.specs.Matching.{without};

/// What is left of a text behind units, where it begins with them.
#[tactic(auto, using(crate::proofs::Matches::nothing_left), unfolding(crate::specs::Matching::without))]
pub fn behind<'a>(text: &'a [u8], units: &[u16]) -> Option<&'a [u8]>
    ensures { option_copied result ≡ without text.now units.now }
{
    let mut rest = text;
    for unit in units {
        match rest.split_first() {
            Some((first, more)) => {
                if u16::from(*first) != *unit {
                    return None;
                }
                rest = more;
            }
            None => return None,
        }
    }
    Some(rest)
}
