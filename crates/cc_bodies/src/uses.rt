//! Where instructions name members.

ghost use Rattle.std.specs.Prelude.{◌≡◌, ◌++◌, List, IfOk, OnOk};
ghost use Rattle.cc_meaning.specs.declared.file.RawClass.{RawClass};
ghost use Rattle.cc_bodies.specs.Bodies.{AreBodies};
ghost use Rattle.cc_meaning_program.specs.Uses.{AreUses, method_use_of, field_use_of};
ghost use Rattle.cc_bodies.specs.Gathering.{AddsUses, insns_of_methods, insns_of_classes};

use crate::{Bodies, ClassBodies};
use cc_list::List;
use cc_meaning::fault::Memory;
use cc_meaning::instruction::{Insn, MethodRef};
use cc_meaning::lists::Rows;
use cc_meaning::program::{Insns, Placed};
use cc_meaning_program::{MethodUse, MethodUses};
use std::alloc::{AllocError, Global};

/// The members that a file's instructions name, in the file's order: methods, each with how it is called, and fields.
#[derive(Drop)]
pub struct MemberUses {
    pub methods: MethodUses,
    pub fields: Rows,
}

#[tactic(auto, unfolding(cc_meaning_program::specs::Uses::method_use_of))]
fn add_method(methods: &mut MethodUses, insn: &Insn) -> Result<(), AllocError>
    ensures { OnOk result (methods.new ≡ methods.old ++ method_use_of insn.now) }
{
    match insn {
        Insn::Invoke {
            how,
            named: MethodRef::Row(row),
            ..
        } => methods.push(MethodUse {
            row: *row,
            how: *how,
        }),
        _ => Ok(()),
    }
}

#[tactic(auto, unfolding(cc_meaning_program::specs::Uses::field_use_of))]
fn add_field(fields: &mut Rows, insn: &Insn) -> Result<(), AllocError>
    ensures { OnOk result (fields.new ≡ fields.old ++ field_use_of insn.now) }
{
    match insn {
        Insn::FieldGet { field, .. } => fields.push(*field),
        Insn::FieldPut { field, .. } => fields.push(*field),
        Insn::StaticGet { field, .. } => fields.push(*field),
        Insn::StaticPut { field, .. } => fields.push(*field),
        _ => Ok(()),
    }
}

fn add_insns(uses: &mut MemberUses, insns: &[Placed]) -> Result<(), AllocError>
    ensures { OnOk result (AddsUses insns.now uses.old uses.new) }
{
    for placed in insns {
        add_method(&mut uses.methods, &placed.insn)?;
        add_field(&mut uses.fields, &placed.insn)?;
    }
    Ok(())
}

fn add_bodies(uses: &mut MemberUses, bodies: &[Option<Insns>]) -> Result<(), AllocError>
    ensures { OnOk result (AddsUses (insns_of_methods bodies.now) uses.old uses.new) }
{
    for body in bodies {
        if let Some(insns) = body {
            add_insns(uses, insns.as_slice())?;
        }
    }
    Ok(())
}

fn add_classes(uses: &mut MemberUses, bodies: &[ClassBodies]) -> Result<(), AllocError>
    ensures { OnOk result (AddsUses (insns_of_classes bodies.now) uses.old uses.new) }
{
    for of_class in bodies {
        add_bodies(uses, of_class.as_slice())?;
    }
    Ok(())
}

/// The members that the instructions of a file's methods name.
///
/// # Errors
///
/// `Memory`: there is no memory.
///
/// Source: Dalvik bytecode, instructions iget, iput, sget, sput and invoke.
pub fn member_uses(alloc: Global, bodies: &Bodies) -> Result<MemberUses, Memory>
    ensures { IfOk result (λ uses. (classes : List RawClass) → AreBodies classes bodies.now → AreUses classes uses.methods uses.fields) }
{
    let mut uses = MemberUses {
        methods: List::new(alloc),
        fields: List::new(alloc),
    };
    add_classes(&mut uses, bodies.as_slice())?;
    Ok(uses)
}
