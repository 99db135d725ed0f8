//! What comparisons, operations and conversions need.

ghost use Rattle.std.specs.Prelude.{◌≡◌, ◌↔◌, ℕ, IsTrue};
ghost use Rattle.cc_meaning_typing.specs.Rules.{Compares, ComparesZero, Converts, HoldsCount};
ghost use Rattle.cc_transfer.specs.Bodies.{body_of};

use crate::body::MethodBody;
use crate::registers::{holds_int, holds_pair, holds_reference, writes_one, writes_pair};
use cc_meaning::instruction::{Conversion, IntOp, Test};
use cc_meaning_typing::State;

/// Whether two registers hold two ints, or for a test for equality two references.
pub(crate) fn compares(
    body: &MethodBody<'_>,
    state: &State,
    test: Test,
    left: u16,
    right: u16,
) -> bool
    ensures { IsTrue result ↔ Compares body.now.program.now state.now test left right }
{
    let are_ints = holds_int(body, state, left) && holds_int(body, state, right);
    match test {
        Test::Eq | Test::Ne => {
            are_ints || (holds_reference(body, state, left) && holds_reference(body, state, right))
        }
        _ => are_ints,
    }
}

/// Whether a register holds an int, or for a test for equality a reference.
pub(crate) fn compares_zero(body: &MethodBody<'_>, state: &State, test: Test, value: u16) -> bool
    ensures { IsTrue result ↔ ComparesZero body.now.program.now state.now test value }
{
    let is_int = holds_int(body, state, value);
    match test {
        Test::Eq | Test::Ne => is_int || holds_reference(body, state, value),
        _ => is_int,
    }
}

/// Whether a register holds the right operand of an operation on longs: for a shift an int, else a pair.
pub(crate) fn holds_count(body: &MethodBody<'_>, state: &State, op: IntOp, right: u16) -> bool
    ensures { IsTrue result ↔ HoldsCount body.now.program.now state.now op right }
{
    match op {
        IntOp::Shl | IntOp::Shr | IntOp::Ushr => holds_int(body, state, right),
        _ => holds_pair(body, state, right),
    }
}

pub(crate) fn converts(
    body: &MethodBody<'_>,
    state: &State,
    op: Conversion,
    to: u16,
    from: u16,
) -> bool
    ensures { IsTrue result ↔ Converts (body_of body.now) state.now op to from }
{
    match op {
        Conversion::IntToLong => writes_pair(body, to) && holds_int(body, state, from),
        Conversion::LongToInt => writes_one(body, to) && holds_pair(body, state, from),
        _ => writes_one(body, to) && holds_int(body, state, from),
    }
}
