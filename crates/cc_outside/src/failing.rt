//! Calls of which some fail.

ghost use Rattle.std.specs.Prelude.{◌≡◌};
ghost use Rattle.cc_outside.specs.Failing.{one_more, is_listed};

use cc_meaning::lists::CallList;

/// Counts a call, and says whether it is one of those that fail, which are listed by their numbers from 0.
pub fn next_fails(fails: &CallList, calls: &mut u64) -> bool
    ensures fails { result ≡ is_listed fails.now calls.old }
    ensures counted { calls.new ≡ one_more calls.old }
{
    let call = *calls;
    *calls = call.saturating_add(1);
    fails.as_slice().contains(&call)
}
