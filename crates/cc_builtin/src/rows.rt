//! Which built-in method a method is.

ghost use Rattle.std.specs.Prelude.{◌≡◌};
ghost use Rattle.cc_meaning.specs.Names.{member_name};
ghost use Rattle.cc_meaning_builtin.specs.Rows.{object_rows, throwable_rows, message_rows, string_rows, string_builder_rows, print_stream_rows, array_rows, named_rows, rows_of, found_row, built_in, built_in_numbered};

use crate::matching::is_member;
use cc_built_in::is_built_in_throwable;
use cc_meaning::lists::MethodIx;
use cc_meaning::program::{Class, ClassKind, Method, Program};
use cc_meaning_builtin::builtin::{BuiltIn, Printed};
use cc_program_names::is_ascii;

#[tactic(auto, unfolding(cc_meaning_builtin::specs::Rows::found_row, cc_meaning_builtin::specs::Rows::object_rows))]
fn of_object(program: &Program, method: &Method) -> Option<BuiltIn>
    ensures { result ≡ found_row (member_name program.now method.now) object_rows }
{
    if is_member(program, method, b"<init>()V") {
        return Some(BuiltIn::Construct);
    }
    if is_member(program, method, b"equals(Ljava/lang/Object;)Z") {
        return Some(BuiltIn::IsSameObject);
    }
    None
}

#[tactic(auto, unfolding(cc_meaning_builtin::specs::Rows::found_row, cc_meaning_builtin::specs::Rows::print_stream_rows))]
fn of_print_stream(program: &Program, method: &Method) -> Option<BuiltIn>
    ensures { result ≡ found_row (member_name program.now method.now) print_stream_rows }
{
    if is_member(program, method, b"print(C)V") {
        return Some(BuiltIn::Print(Printed::Char));
    }
    if is_member(program, method, b"print(I)V") {
        return Some(BuiltIn::Print(Printed::Int));
    }
    if is_member(program, method, b"print(J)V") {
        return Some(BuiltIn::Print(Printed::Long));
    }
    if is_member(program, method, b"print(Z)V") {
        return Some(BuiltIn::Print(Printed::Boolean));
    }
    if is_member(program, method, b"print(Ljava/lang/String;)V") {
        return Some(BuiltIn::Print(Printed::Text));
    }
    if is_member(program, method, b"println(C)V") {
        return Some(BuiltIn::PrintLine(Printed::Char));
    }
    if is_member(program, method, b"println(I)V") {
        return Some(BuiltIn::PrintLine(Printed::Int));
    }
    if is_member(program, method, b"println(J)V") {
        return Some(BuiltIn::PrintLine(Printed::Long));
    }
    if is_member(program, method, b"println(Z)V") {
        return Some(BuiltIn::PrintLine(Printed::Boolean));
    }
    if is_member(program, method, b"println(Ljava/lang/String;)V") {
        return Some(BuiltIn::PrintLine(Printed::Text));
    }
    if is_member(program, method, b"println()V") {
        return Some(BuiltIn::EndLine);
    }
    None
}

#[tactic(auto, unfolding(cc_meaning_builtin::specs::Rows::found_row, cc_meaning_builtin::specs::Rows::string_rows))]
fn of_string(program: &Program, method: &Method) -> Option<BuiltIn>
    ensures { result ≡ found_row (member_name program.now method.now) string_rows }
{
    if is_member(program, method, b"length()I") {
        return Some(BuiltIn::TextLength);
    }
    if is_member(program, method, b"charAt(I)C") {
        return Some(BuiltIn::CharAt);
    }
    if is_member(program, method, b"equals(Ljava/lang/Object;)Z") {
        return Some(BuiltIn::IsEqualText);
    }
    None
}

#[tactic(auto, unfolding(cc_meaning_builtin::specs::Rows::found_row, cc_meaning_builtin::specs::Rows::string_builder_rows))]
fn of_string_builder(program: &Program, method: &Method) -> Option<BuiltIn>
    ensures { result ≡ found_row (member_name program.now method.now) string_builder_rows }
{
    if is_member(program, method, b"append(C)Ljava/lang/StringBuilder;") {
        return Some(BuiltIn::Append(Printed::Char));
    }
    if is_member(program, method, b"append(I)Ljava/lang/StringBuilder;") {
        return Some(BuiltIn::Append(Printed::Int));
    }
    if is_member(program, method, b"append(J)Ljava/lang/StringBuilder;") {
        return Some(BuiltIn::Append(Printed::Long));
    }
    if is_member(program, method, b"append(Z)Ljava/lang/StringBuilder;") {
        return Some(BuiltIn::Append(Printed::Boolean));
    }
    if is_member(
        program,
        method,
        b"append(Ljava/lang/String;)Ljava/lang/StringBuilder;",
    ) {
        return Some(BuiltIn::Append(Printed::Text));
    }
    if is_member(program, method, b"toString()Ljava/lang/String;") {
        return Some(BuiltIn::BuiltText);
    }
    if is_member(program, method, b"<init>()V") {
        return Some(BuiltIn::Construct);
    }
    if is_member(program, method, b"<init>(Ljava/lang/String;)V") {
        return Some(BuiltIn::ConstructBuilder);
    }
    None
}

#[tactic(auto, unfolding(cc_meaning_builtin::specs::Rows::found_row, cc_meaning_builtin::specs::Rows::throwable_rows))]
fn of_throwable(program: &Program, method: &Method) -> Option<BuiltIn>
    ensures { result ≡ found_row (member_name program.now method.now) throwable_rows }
{
    if is_member(program, method, b"<init>()V") {
        return Some(BuiltIn::ConstructThrowable);
    }
    if is_member(program, method, b"<init>(Ljava/lang/String;)V") {
        return Some(BuiltIn::ConstructThrowableWith);
    }
    None
}

#[tactic(auto, unfolding(cc_meaning_builtin::specs::Rows::found_row, cc_meaning_builtin::specs::Rows::message_rows))]
fn of_message(program: &Program, method: &Method) -> Option<BuiltIn>
    ensures { result ≡ found_row (member_name program.now method.now) message_rows }
{
    if is_member(program, method, b"getMessage()Ljava/lang/String;") {
        return Some(BuiltIn::Message);
    }
    of_throwable(program, method)
}

#[tactic(auto, unfolding(cc_meaning_builtin::specs::Rows::found_row, cc_meaning_builtin::specs::Rows::array_rows))]
fn of_array(program: &Program, method: &Method) -> Option<BuiltIn>
    ensures { result ≡ found_row (member_name program.now method.now) array_rows }
{
    if is_member(program, method, b"clone()Ljava/lang/Object;") {
        return Some(BuiltIn::CloneArray);
    }
    None
}

/// The built-in method that a method of a built-in class is.
#[tactic(auto, unfolding(cc_meaning_builtin::specs::Rows::found_row, cc_meaning_builtin::specs::Rows::named_rows, cc_meaning::specs::BuiltIn::object_name, cc_meaning::specs::BuiltIn::string_name, cc_meaning::specs::BuiltIn::string_builder_name, cc_meaning::specs::BuiltIn::print_stream_name, cc_meaning::specs::BuiltIn::throwable_name))]
fn of_class_named(name: &[u16], program: &Program, method: &Method) -> Option<BuiltIn>
    ensures { result ≡ found_row (member_name program.now method.now) (named_rows name.now) }
{
    if is_ascii(name, b"Ljava/lang/StringBuilder;") {
        return of_string_builder(program, method);
    }
    if is_ascii(name, b"Ljava/io/PrintStream;") {
        return of_print_stream(program, method);
    }
    if is_ascii(name, b"Ljava/lang/String;") {
        return of_string(program, method);
    }
    if is_ascii(name, b"Ljava/lang/Object;") {
        return of_object(program, method);
    }
    if is_ascii(name, b"Ljava/lang/Throwable;") {
        return of_message(program, method);
    }
    if is_built_in_throwable(name) {
        return of_throwable(program, method);
    }
    None
}

#[tactic(auto, unfolding(cc_meaning_builtin::specs::Rows::found_row, cc_meaning_builtin::specs::Rows::rows_of))]
fn of_class(class: &Class, program: &Program, method: &Method) -> Option<BuiltIn>
    ensures { result ≡ found_row (member_name program.now method.now) (rows_of class.now.kind class.now.name) }
{
    match class.kind {
        ClassKind::BuiltIn => of_class_named(class.name.as_slice(), program, method),
        ClassKind::Array => of_array(program, method),
        _ => None,
    }
}

/// The built-in method that a method of the program is.
#[tactic(auto, unfolding(cc_meaning_builtin::specs::Rows::built_in, cc_meaning_builtin::specs::Rows::built_in_of))]
fn built_in(program: &Program, method: &Method) -> Option<BuiltIn>
    ensures { result ≡ built_in program.now method.now }
{
    match program.classes.get(method.class as usize) {
        Some(class) => of_class(class, program, method),
        None => None,
    }
}

/// The built-in method of a number.
#[tactic(auto, unfolding(cc_meaning_builtin::specs::Rows::built_in_numbered))]
pub(crate) fn built_in_numbered(program: &Program, method: MethodIx) -> Option<BuiltIn>
    ensures { result ≡ built_in_numbered program.now method }
{
    match program.methods.get(method as usize) {
        Some(method) => built_in(program, method),
        None => None,
    }
}
