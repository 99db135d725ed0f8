//! Built-in methods by their names within their classes.

ghost use Rattle.std.specs.Prelude.{◌≡◌, ◌≤◌, position, length};
ghost use Rattle.std.specs.Str.{bytes_eq};
ghost use Rattle.cc_built_in.specs.Listed.{members_listed};
ghost use Rattle.cc_meaning_program.specs.OwnMembers.{is_constructor};

use cc_built_in::spells;
use cc_built_in::table::ListedMethod;

/// The place of the method of this name among these, which are no more than a class has.
pub(crate) fn place_among(methods: &[ListedMethod], name: &[u16]) -> Option<u32>
    requires { length methods.now ≤ 11 }
    ensures { result ≡ position (λ member. bytes_eq member name.now) (members_listed methods.now) }
{
    for (place, listed) in methods.iter().enumerate() {
        if spells(name, listed.member) {
            return Some(place as u32);
        }
    }
    None
}

/// Whether the name of a method within its class is that of a constructor.
#[tactic(auto, unfolding(cc_meaning_program::specs::OwnMembers::is_constructor))]
pub(crate) fn is_constructor(name: &[u16]) -> bool
    ensures { result ≡ is_constructor name.now }
{
    let (front, _) = name.split_at(name.len().min(7));
    spells(front, b"<init>(")
}
