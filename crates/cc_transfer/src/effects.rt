//! What instructions make of the registers.

ghost use Rattle.std.specs.Prelude.{◌≡◌, length, slice_get};
ghost use Rattle.cc_meaning_typing.specs.Hierarchy.{IsHierarchy};
ghost use Rattle.cc_meaning_typing.specs.States.{construct, constructed, forget_fresh, without_fresh};
ghost use Rattle.cc_meaning_typing.specs.Rules.{after, construct_known, element_for, int_constant, pending_after, pending_array, pending_call, registers_after, registers_called, registers_converted, write_declared, write_field, write_kind, write_named, write_pending};

use crate::body::MethodBody;
use crate::registers::kind_of;
use crate::types::{class_type, element_of};
use cc_list::List;
use cc_meaning::instruction::{Conversion, How, Insn, Kind, MethodRef, TypeRef};
use cc_meaning::lists::ClassIx;
use cc_meaning::program::{DexType, Field, Program, RegType};
use cc_meaning_typing::{Pending, State};
use cc_types::{held, register, register_of, write, write_long};

/// Writes what is known of a value of a kind, of a long both halves.
#[tactic(auto, unfolding(cc_meaning_typing::specs::Rules::write_kind))]
fn write_kind(registers: &mut List<RegType>, to: u16, known: RegType, kind: Kind)
    ensures { registers.new ≡ write_kind registers.old to known kind }
{
    match kind {
        Kind::Wide => write_long(registers, to),
        _ => write(registers, to, known),
    }
}

/// Writes a value of a declared type.
#[tactic(auto, unfolding(cc_meaning_typing::specs::Rules::write_declared))]
fn write_declared(registers: &mut List<RegType>, program: &Program, to: u16, ty: DexType)
    requires { IsHierarchy program.now }
    ensures { registers.new ≡ write_declared program.now registers.old to ty }
{
    write_kind(registers, to, register_of(ty, program), kind_of(ty));
}

/// Writes what was pending.
#[tactic(auto, unfolding(cc_meaning_typing::specs::Rules::write_pending))]
fn write_pending(registers: &mut List<RegType>, program: &Program, to: u16, pending: Pending)
    requires { IsHierarchy program.now }
    ensures { registers.new ≡ write_pending program.now registers.old to pending }
{
    match pending {
        Pending::Nothing => {}
        Pending::Result(ty) => write_declared(registers, program, to, ty),
        Pending::Exception(ty) => write(registers, to, RegType::Reference(ty)),
    }
}

/// What is known of a literal: 0 is an int and null.
#[tactic(auto, unfolding(cc_meaning_typing::specs::Rules::int_constant))]
fn int_constant(value: i32) -> RegType
    ensures { result ≡ int_constant value }
{
    if value == 0 {
        RegType::Zero
    } else {
        RegType::Int
    }
}

/// Writes a reference of the type that is named, as it is held.
#[tactic(auto, unfolding(cc_meaning_typing::specs::Rules::write_named))]
fn write_named(registers: &mut List<RegType>, program: &Program, to: u16, named: TypeRef)
    requires { IsHierarchy program.now }
    ensures { registers.new ≡ write_named program.now registers.old to named }
{
    match named {
        TypeRef::Row(_) => {}
        TypeRef::Known(ty) => write(registers, to, RegType::Reference(held(ty, program))),
    }
}

/// What is known of an element that is read of an array, by the form that reads it.
#[tactic(auto, unfolding(cc_meaning_typing::specs::Rules::element_for, cc_meaning_typing::specs::Rules::element_known))]
fn element_for(kind: Kind, array: RegType) -> RegType
    ensures { result ≡ element_for kind array }
{
    match (kind, array) {
        (Kind::Object, RegType::Reference(ty)) => RegType::Reference(element_of(ty)),
        (Kind::Object, _) => array,
        _ => RegType::Int,
    }
}

/// Writes the value of a field.
#[tactic(auto, unfolding(cc_meaning_typing::specs::Rules::write_field))]
fn write_field(registers: &mut List<RegType>, program: &Program, to: u16, field: u32)
    requires { IsHierarchy program.now }
    ensures { registers.new ≡ write_field program.now registers.old to (slice_get program.now.fields field) }
{
    match program.fields.get(field as usize) {
        None => {}
        Some(field) => write_declared(registers, program, to, field.ty),
    }
}

/// What stays known of a register where the objects that were made at an address before are lost.
#[tactic(auto, unfolding(cc_meaning_typing::specs::States::without_fresh))]
fn without_fresh(made: u32, known: RegType) -> RegType
    ensures { result ≡ without_fresh made known }
{
    match known {
        RegType::Fresh(at) if at == made => RegType::Unset,
        _ => known,
    }
}

/// Forgets the objects that were made at an address before.
#[tactic(auto, unfolding(cc_meaning_typing::specs::States::forget_fresh))]
fn forget_fresh(registers: &mut List<RegType>, made: u32)
    ensures { registers.new ≡ forget_fresh registers.old made }
{
    for at in 0..registers.len() {
        let known = *registers.at(at);
        registers.set(at, without_fresh(made, known));
    }
}

/// What is known of a register once the object that was made at an address is constructed.
#[tactic(auto, unfolding(cc_meaning_typing::specs::States::constructed))]
fn constructed(made: u32, ty: DexType, known: RegType) -> RegType
    ensures { result ≡ constructed made ty known }
{
    match known {
        RegType::Fresh(at) if at == made => RegType::Reference(ty),
        _ => known,
    }
}

/// Constructs the object that was made at an address, in all registers.
#[tactic(auto, unfolding(cc_meaning_typing::specs::States::construct))]
fn construct(registers: &mut List<RegType>, made: u32, ty: DexType)
    ensures { registers.new ≡ construct registers.old made ty }
{
    for at in 0..registers.len() {
        let known = *registers.at(at);
        registers.set(at, constructed(made, ty, known));
    }
}

/// Constructs the object that a register knows, if its constructor was still to be called.
#[tactic(auto, unfolding(cc_meaning_typing::specs::Rules::construct_known))]
fn construct_known(registers: &mut List<RegType>, program: &Program, class: ClassIx, known: RegType)
    requires { IsHierarchy program.now }
    ensures { registers.new ≡ construct_known program.now registers.old class known }
{
    match known {
        RegType::Fresh(made) => construct(registers, made, held(class_type(class), program)),
        _ => {}
    }
}

/// What a call makes of the registers.
#[tactic(auto, unfolding(cc_meaning_typing::specs::Rules::registers_called))]
fn call(registers: &mut List<RegType>, program: &Program, how: How, named: MethodRef, args: &[u16])
    requires { IsHierarchy program.now }
    ensures { registers.new ≡ registers_called program.now registers.old how named args.now }
{
    match (how, named, args) {
        (How::Direct, MethodRef::Known { class, .. }, [receiver, ..]) => {
            let known = register(registers, *receiver as usize);
            construct_known(registers, program, class, known);
        }
        _ => {}
    }
}

/// What a conversion makes of the registers.
#[tactic(auto, unfolding(cc_meaning_typing::specs::Rules::registers_converted))]
fn convert(registers: &mut List<RegType>, op: Conversion, to: u16)
    ensures { registers.new ≡ registers_converted registers.old op to }
{
    match op {
        Conversion::IntToLong => write_long(registers, to),
        _ => write(registers, to, RegType::Int),
    }
}

/// Makes of an instruction's registers what it gives.
#[tactic(auto, unfolding(cc_meaning_typing::specs::Rules::registers_after, cc_meaning_typing::specs::Code::string_type))]
fn change(
    registers: &mut List<RegType>,
    body: &MethodBody<'_>,
    made: u32,
    pending: Pending,
    insn: &Insn,
)
    ensures { registers.new ≡ registers_after body.now.program.now made registers.old pending insn.now }
{
    let program = body.program;
    match insn {
        Insn::Move { kind, to, from } => {
            let known = register(registers, *from as usize);
            write_kind(registers, *to, known, *kind);
        }
        Insn::MoveResult { to, .. } | Insn::MoveException { to } => {
            write_pending(registers, program, *to, pending);
        }
        Insn::ConstInt { to, value } => write(registers, *to, int_constant(*value)),
        Insn::ConstText { to, .. } => {
            let string = class_type(body.landmarks.string);
            write(registers, *to, RegType::Reference(string));
        }
        Insn::ConstClass { to, .. } => {
            let object = class_type(body.landmarks.object);
            write(registers, *to, RegType::Reference(object));
        }
        Insn::CheckCast { object: to, named } | Insn::NewArray { to, named, .. } => {
            write_named(registers, program, *to, *named);
        }
        Insn::NewInstance { to, .. } => {
            forget_fresh(registers, made);
            write(registers, *to, RegType::Fresh(made));
        }
        Insn::ArrayGet {
            kind,
            to,
            array,
            ..
        } => {
            let known = element_for(*kind, register(registers, *array as usize));
            write_kind(registers, *to, known, *kind);
        }
        Insn::FieldGet { to, field, .. } | Insn::StaticGet { to, field, .. } => {
            write_field(registers, program, *to, *field);
        }
        Insn::Invoke { how, named, args } => {
            call(registers, program, *how, *named, args.as_slice());
        }
        Insn::Convert { op, to, .. } => convert(registers, *op, *to),
        Insn::InstanceOf { to, .. }
        | Insn::ArrayLength { to, .. }
        | Insn::CompareLong { to, .. }
        | Insn::IntUnary { to, .. }
        | Insn::IntOp { to, .. }
        | Insn::IntLit { to, .. } => write(registers, *to, RegType::Int),
        Insn::ConstLong { to, .. } | Insn::LongUnary { to, .. } | Insn::LongOp { to, .. } => {
            write_long(registers, *to);
        }
        _ => {}
    }
}

/// The result that a call leaves pending.
#[tactic(auto, unfolding(cc_meaning_typing::specs::Rules::pending_call, cc_meaning_typing::specs::Rules::result_of, cc_meaning_typing::specs::Rules::pending_result))]
fn pending_call(program: &Program, named: MethodRef) -> Pending
    ensures { result ≡ pending_call program.now named }
{
    let MethodRef::Known { method, .. } = named else {
        return Pending::Nothing;
    };
    match program.methods.get(method as usize) {
        Some(callee) => match callee.result {
            Some(ty) => Pending::Result(ty),
            None => Pending::Nothing,
        },
        None => Pending::Nothing,
    }
}

/// What an instruction leaves pending.
#[tactic(auto, unfolding(cc_meaning_typing::specs::Rules::pending_after, cc_meaning_typing::specs::Rules::pending_array))]
fn pending_after(program: &Program, insn: &Insn) -> Pending
    ensures { result ≡ pending_after program.now insn.now }
{
    match insn {
        Insn::Invoke { named, .. } => pending_call(program, *named),
        Insn::FilledNewArray {
            named: TypeRef::Known(ty),
            ..
        } => Pending::Result(*ty),
        _ => Pending::Nothing,
    }
}

/// Makes of the state before an instruction at an address, in place, the state behind it. Takes no memory.
/// Source: Dalvik bytecode, section Summary of bytecode set.
#[tactic(auto, using(crate::proofs::Lengths::after_keeps_length), unfolding(cc_meaning_typing::specs::Rules::after))]
pub fn apply(body: &MethodBody<'_>, at: u32, state: &mut State, insn: &Insn)
    ensures after { state.new ≡ after body.now.program.now at state.old insn.now }
    ensures as_many { length state.new.registers ≡ length state.old.registers }
{
    change(&mut state.registers, body, at, state.pending, insn);
    state.pending = pending_after(body.program, insn);
}
