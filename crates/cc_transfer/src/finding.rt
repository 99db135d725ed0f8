//! The classes and the field that rules name are found.

ghost use Rattle.std.specs.Prelude.{◌≡◌, IfOk, unwrap_or};
ghost use Rattle.cc_meaning.specs.Lookup.{class_named};
ghost use Rattle.cc_meaning_typing.specs.WellFormed.{IsWellFormed};
ghost use Rattle.cc_transfer.specs.Landmarks.{AreLandmarks};

use crate::landmarks::Landmarks;
use cc_list::List;
use cc_meaning::lists::ClassIx;
use cc_meaning::program::Program;
use cc_program_names::{add_ascii, class_named, field_named};
use cc_types::object_class;
use std::alloc::{AllocError, Global};

/// The number of the class of a name of ASCII, 0 where there is none.
fn class_or_first(alloc: Global, program: &Program, name: &[u8]) -> Result<ClassIx, AllocError>
    requires { IsWellFormed program.now }
    ensures { IfOk result (λ class. class ≡ unwrap_or (class_named name.now program.now) 0) }
{
    let mut units = List::new(alloc);
    add_ascii(&mut units, name)?;
    Ok(class_named(program, units.as_slice()).unwrap_or(0))
}

/// Finds the classes and the field that the rules name in a program.
#[tactic(auto, unfolding(cc_meaning_typing::specs::Code::string_type, cc_meaning_typing::specs::Code::throwable_type, cc_meaning::specs::BuiltIn::string_name, cc_meaning::specs::BuiltIn::throwable_name, cc_meaning::specs::BuiltIn::system_out_name))]
pub fn find_landmarks(alloc: Global, program: &Program) -> Result<Landmarks, AllocError>
    requires { IsWellFormed program.now }
    ensures { IfOk result (λ found. AreLandmarks program.now found) }
{
    let string = class_or_first(alloc, program, b"Ljava/lang/String;")?;
    let throwable = class_or_first(alloc, program, b"Ljava/lang/Throwable;")?;
    let system_out = field_named(
        alloc,
        program,
        b"Ljava/lang/System;->out:Ljava/io/PrintStream;",
    )?;
    Ok(Landmarks {
        object: object_class(program),
        string,
        throwable,
        system_out,
    })
}
