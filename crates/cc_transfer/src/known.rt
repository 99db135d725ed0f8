//! Whether the member that an instruction names is known, and is one that it is for.

ghost use Rattle.std.specs.Prelude.{◌≡◌, ◌↔◌, Some, IsTrue, slice_get};
ghost use Rattle.cc_meaning.specs.Lookup.{system_out};
ghost use Rattle.cc_meaning_typing.specs.WellTyped.{KnowsInstance, KnowsMember, KnowsMethod, KnowsStatic, IsInvokedBy, IsMade, can_be_made, is_abstract_in_file, is_file_class, is_file_interface, is_never_made, is_of_file};
ghost use Rattle.cc_transfer.specs.Bodies.{body_of};

use crate::body::MethodBody;
use cc_meaning::instruction::{How, Insn, MethodRef, TypeRef};
use cc_meaning::lists::ClassIx;
use cc_meaning::program::{Base, Class, ClassKind, Method, Program};
use cc_program_names::is_ascii;

#[tactic(auto, unfolding(cc_meaning_typing::specs::WellTyped::is_of_file))]
fn is_of_file(class: &Class) -> bool
    ensures { result ≡ is_of_file class.now.kind }
{
    matches!(class.kind, ClassKind::File)
}

/// Whether the class of a number is one of the file, and no interface.
#[tactic(auto, unfolding(cc_meaning_typing::specs::WellTyped::is_file_class))]
fn is_file_class(program: &Program, class: ClassIx) -> bool
    ensures { result ≡ is_file_class (slice_get program.now.classes class) }
{
    match program.classes.get(class as usize) {
        Some(class) => is_of_file(class) && !class.is_interface,
        None => false,
    }
}

/// Whether the class of a number is an interface of the file.
#[tactic(auto, unfolding(cc_meaning_typing::specs::WellTyped::is_file_interface))]
fn is_file_interface(program: &Program, class: ClassIx) -> bool
    ensures { result ≡ is_file_interface (slice_get program.now.classes class) }
{
    match program.classes.get(class as usize) {
        Some(class) => is_of_file(class) && class.is_interface,
        None => false,
    }
}

/// Whether a field is one of instances of a class of the file.
fn knows_instance(program: &Program, field: u32) -> bool
    ensures { IsTrue result ↔ KnowsInstance program.now field }
{
    match program.fields.get(field as usize) {
        Some(found) => !found.is_static && is_file_class(program, found.class),
        None => false,
    }
}

/// Whether a field is static.
fn knows_static(program: &Program, field: u32) -> bool
    ensures { IsTrue result ↔ KnowsStatic program.now field }
{
    match program.fields.get(field as usize) {
        Some(found) => found.is_static,
        None => false,
    }
}

/// Whether a field can be written by a static form: it is static, and not the one of the standard output.
fn knows_written(body: &MethodBody<'_>, field: u32) -> bool
    ensures { IsTrue result ↔ (KnowsStatic body.now.program.now field × (system_out body.now.program.now ≡ Some field → ⊥)) }
{
    match body.landmarks.system_out {
        Some(out) => out != field as usize && knows_static(body.program, field),
        None => knows_static(body.program, field),
    }
}

fn is_invoked_by(body: &MethodBody<'_>, how: How, callee: &Method) -> bool
    ensures { IsTrue result ↔ IsInvokedBy (body_of body.now) how callee.now }
{
    match how {
        How::Static => callee.is_static,
        How::Direct => !callee.is_static && !callee.is_virtual,
        How::Super => !callee.is_static && !is_file_interface(body.program, body.method.class),
        _ => !callee.is_static,
    }
}

fn knows_method(body: &MethodBody<'_>, how: How, named: MethodRef) -> bool
    ensures { IsTrue result ↔ KnowsMethod (body_of body.now) how named }
{
    match named {
        MethodRef::Row(_) => false,
        MethodRef::Known { method, .. } => match body.program.methods.get(method as usize) {
            Some(callee) => is_invoked_by(body, how, callee),
            None => false,
        },
    }
}

/// Whether a class is String, System or PrintStream, of which no instruction makes objects.
#[tactic(auto, unfolding(cc_meaning_typing::specs::WellTyped::is_never_made, cc_meaning::specs::BuiltIn::string_name, cc_meaning::specs::BuiltIn::system_name, cc_meaning::specs::BuiltIn::print_stream_name))]
fn is_never_made(class: &Class) -> bool
    ensures { result ≡ is_never_made class.now }
{
    let name = class.name.as_slice();
    is_ascii(name, b"Ljava/lang/String;")
        || is_ascii(name, b"Ljava/lang/System;")
        || is_ascii(name, b"Ljava/io/PrintStream;")
}

/// Whether objects can be made of the class of a number.
#[tactic(auto, unfolding(cc_meaning_typing::specs::WellTyped::can_be_made, cc_meaning_typing::specs::WellTyped::is_abstract_in_file))]
fn can_be_made(program: &Program, class: ClassIx) -> bool
    ensures { result ≡ can_be_made (slice_get program.now.classes class) }
{
    match program.classes.get(class as usize) {
        Some(class) => {
            let is_abstract = is_of_file(class) && (class.is_interface || class.is_abstract);
            !is_abstract && !is_never_made(class)
        }
        None => false,
    }
}

fn is_made(program: &Program, named: TypeRef) -> bool
    ensures { IsTrue result ↔ IsMade program.now named }
{
    match named {
        TypeRef::Row(_) => false,
        TypeRef::Known(ty) if ty.dims > 0 => false,
        TypeRef::Known(ty) => match ty.base {
            Base::Class(class) => can_be_made(program, class),
            _ => true,
        },
    }
}

/// Whether the member that an instruction names is known, and is one of those that the instruction is for. Takes no memory.
/// Source: Dalvik bytecode, instructions iget, sget, sput, invoke-kind and new-instance.
pub fn knows_member(body: &MethodBody<'_>, insn: &Insn) -> bool
    ensures { IsTrue result ↔ KnowsMember (body_of body.now) insn.now }
{
    match insn {
        Insn::FieldGet { field, .. } | Insn::FieldPut { field, .. } => {
            knows_instance(body.program, *field)
        }
        Insn::StaticGet { field, .. } => knows_static(body.program, *field),
        Insn::StaticPut { field, .. } => knows_written(body, *field),
        Insn::Invoke { how, named, .. } => knows_method(body, *how, *named),
        Insn::NewInstance { named, .. } => is_made(body.program, *named),
        _ => true,
    }
}
