//! The rule of each instruction: what it needs of the state before it.

ghost use Rattle.std.specs.Prelude.{◌≡◌, ◌↔◌, ℕ, IsTrue};
ghost use Rattle.cc_meaning.specs.declared.instruction.Insn.TheVariants as variant;
ghost use Rattle.cc_meaning_typing.specs.Rules.{Accepts};
ghost use Rattle.cc_transfer.specs.Bodies.{body_of};

use crate::addresses::insn_from;
use crate::arithmetic::{compares, compares_zero, converts, holds_count};
use crate::arrays::{accepts_array_get, accepts_array_put, fills_new, holds_array, holds_numbers};
use crate::body::MethodBody;
use crate::members::{
    accepts_field_get, accepts_field_put, accepts_static_get, accepts_static_put, calls,
};
use crate::moves::{accepts_move, accepts_move_exception, accepts_move_result, accepts_return};
use crate::registers::{holds, holds_int, holds_pair, holds_reference, writes_one, writes_pair};
use crate::types::{class_type, names_array, names_reference};
use cc_meaning::instruction::Insn;
use cc_meaning::program::RegType;
use cc_meaning_typing::State;

/// Whether a register holds null, or an array of numbers as wide as those of the payload so many units away.
fn accepts_fill(body: &MethodBody<'_>, at: u32, state: &State, array: u16, target: i32) -> bool
    ensures { IsTrue result ↔ Accepts (body_of body.now) at state.now (variant.FillArray array target) }
{
    match insn_from(body.code, at, target) {
        Some(Insn::ArrayPayload { width, .. }) => holds_numbers(state, array, *width),
        _ => false,
    }
}

/// Whether a register holds null, or an exception or error.
fn accepts_throw(body: &MethodBody<'_>, state: &State, object: u16) -> bool
    ensures { (at : ℕ) → (IsTrue result ↔ Accepts (body_of body.now) at state.now (variant.Throw object)) }
{
    let throwable = class_type(body.landmarks.throwable);
    holds(body.program, state, object, RegType::Reference(throwable))
}

/// Whether an instruction's rule accepts the state before it. Takes no memory.
/// Source: Dalvik bytecode, section Summary of bytecode set.
pub fn accepts(body: &MethodBody<'_>, at: u32, state: &State, insn: &Insn) -> bool
    ensures { IsTrue result ↔ Accepts (body_of body.now) at state.now insn.now }
{
    match insn {
        Insn::Nop | Insn::Goto { .. } => true,
        Insn::Move { kind, to, from } => accepts_move(body, state, *kind, *to, *from),
        Insn::MoveResult { kind, to } => accepts_move_result(body, state, *kind, *to),
        Insn::MoveException { to } => accepts_move_exception(body, state, *to),
        Insn::ReturnVoid => body.method.result.is_none(),
        Insn::Return { kind, from } => accepts_return(body, state, *kind, *from),
        Insn::ConstInt { to, .. } | Insn::ConstText { to, .. } => writes_one(body, *to),
        Insn::ConstLong { to, .. } => writes_pair(body, *to),
        Insn::ConstClass { to, named } | Insn::NewInstance { to, named } => {
            writes_one(body, *to) && names_reference(*named)
        }
        Insn::Monitor { object, .. } => holds_reference(body, state, *object),
        Insn::CheckCast { object, named } => {
            names_reference(*named) && holds_reference(body, state, *object)
        }
        Insn::InstanceOf { to, object, named } => {
            writes_one(body, *to)
                && names_reference(*named)
                && holds_reference(body, state, *object)
        }
        Insn::ArrayLength { to, array } => writes_one(body, *to) && holds_array(state, *array),
        Insn::NewArray { to, length, named } => {
            writes_one(body, *to) && names_array(*named) && holds_int(body, state, *length)
        }
        Insn::FilledNewArray { named, args } => {
            fills_new(body.program, state, *named, args.as_slice())
        }
        Insn::FillArray { array, target } => accepts_fill(body, at, state, *array, *target),
        Insn::Throw { object } => accepts_throw(body, state, *object),
        Insn::Switch { value, .. } => holds_int(body, state, *value),
        Insn::CompareLong { to, left, right } => {
            writes_one(body, *to)
                && holds_pair(body, state, *left)
                && holds_pair(body, state, *right)
        }
        Insn::If {
            test,
            left,
            right,
            ..
        } => compares(body, state, *test, *left, *right),
        Insn::IfZero { test, value, .. } => compares_zero(body, state, *test, *value),
        Insn::ArrayGet {
            kind,
            to,
            array,
            index,
        } => accepts_array_get(body, state, *kind, *to, *array, *index),
        Insn::ArrayPut {
            kind,
            from,
            array,
            index,
        } => accepts_array_put(body, state, *kind, *from, *array, *index),
        Insn::FieldGet {
            kind,
            to,
            object,
            field,
        } => accepts_field_get(body, state, *kind, *to, *object, *field),
        Insn::FieldPut {
            kind,
            from,
            object,
            field,
        } => accepts_field_put(body, state, *kind, *from, *object, *field),
        Insn::StaticGet { kind, to, field } => accepts_static_get(body, *kind, *to, *field),
        Insn::StaticPut { kind, from, field } => {
            accepts_static_put(body, state, *kind, *from, *field)
        }
        Insn::Invoke { how, named, args } => { calls(body, state, *how, *named, args.as_slice()) }
        Insn::IntUnary { to, from, .. } => {
            writes_one(body, *to) && holds_int(body, state, *from)
        }
        Insn::LongUnary { to, from, .. } => {
            writes_pair(body, *to) && holds_pair(body, state, *from)
        }
        Insn::Convert { op, to, from } => converts(body, state, *op, *to, *from),
        Insn::IntOp {
            to,
            left,
            right,
            ..
        } => {
            writes_one(body, *to) && holds_int(body, state, *left) && holds_int(body, state, *right)
        }
        Insn::LongOp {
            op,
            to,
            left,
            right,
        } => {
            writes_pair(body, *to)
                && holds_pair(body, state, *left)
                && holds_count(body, state, *op, *right)
        }
        Insn::IntLit { to, left, .. } => writes_one(body, *to) && holds_int(body, state, *left),
        Insn::PackedPayload { .. } | Insn::SparsePayload { .. } | Insn::ArrayPayload { .. } =>
            false,
    }
}
