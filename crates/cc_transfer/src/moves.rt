//! What moves, results, exceptions and returns need.

ghost use Rattle.std.specs.Prelude.{◌≡◌, ◌↔◌, ℕ, IsTrue};
ghost use Rattle.cc_meaning.specs.declared.instruction.Insn.TheVariants as insn;
ghost use Rattle.cc_meaning_typing.specs.Rules.{Accepts};
ghost use Rattle.cc_transfer.specs.Bodies.{body_of};

use crate::body::MethodBody;
use crate::registers::{
    form_of, holds_declared, holds_fresh, holds_int, holds_pair, holds_reference, kind_of,
    same_kind, writes_kind, writes_one, writes_pair,
};
use cc_meaning::instruction::Kind;
use cc_meaning_typing::{Pending, State};

pub(crate) fn accepts_move(
    body: &MethodBody<'_>,
    state: &State,
    kind: Kind,
    to: u16,
    from: u16,
) -> bool
    ensures { (at : ℕ) → (IsTrue result ↔ Accepts (body_of body.now) at state.now (insn.Move kind to from)) }
{
    match kind {
        Kind::Plain => writes_one(body, to) && holds_int(body, state, from),
        Kind::Wide => writes_pair(body, to) && holds_pair(body, state, from),
        Kind::Object => {
            writes_one(body, to) && (holds_reference(body, state, from) || holds_fresh(state, from))
        }
        _ => false,
    }
}

pub(crate) fn accepts_move_result(body: &MethodBody<'_>, state: &State, kind: Kind, to: u16) -> bool
    ensures { (at : ℕ) → (IsTrue result ↔ Accepts (body_of body.now) at state.now (insn.MoveResult kind to)) }
{
    match state.pending {
        Pending::Result(ty) => {
            writes_kind(body, to, kind) && same_kind(form_of(kind_of(ty)), kind)
        }
        _ => false,
    }
}

pub(crate) fn accepts_move_exception(body: &MethodBody<'_>, state: &State, to: u16) -> bool
    ensures { (at : ℕ) → (IsTrue result ↔ Accepts (body_of body.now) at state.now (insn.MoveException to)) }
{
    match state.pending {
        Pending::Exception(_) => writes_one(body, to),
        _ => false,
    }
}

pub(crate) fn accepts_return(body: &MethodBody<'_>, state: &State, kind: Kind, from: u16) -> bool
    ensures { (at : ℕ) → (IsTrue result ↔ Accepts (body_of body.now) at state.now (insn.Return kind from)) }
{
    match body.method.result {
        Some(ty) => same_kind(form_of(kind_of(ty)), kind) && holds_declared(body, state, from, ty),
        None => false,
    }
}
