//! The names of a program's methods, as they are printed.

ghost use Rattle.std.specs.Prelude.{◌≡◌, ◌++◌, map, IfOk, OnOk};
ghost use Rattle.std.specs.List.{flat_map};
ghost use Rattle.cc_meaning.specs.Names.{descriptor, result_descriptor, member_name, method_name};

use crate::names::{add_ascii, add_class_name, add_descriptor};
use cc_list::List;
use cc_meaning::lists::Units;
use cc_meaning::program::{DexType, Method, Program};
use std::alloc::{AllocError, Global};

fn add_types(name: &mut Units, program: &Program, types: &[DexType]) -> Result<(), AllocError>
    ensures { OnOk result (name.new ≡ name.old ++ flat_map (descriptor program.now) types.now) }
{
    for ty in types {
        add_descriptor(name, program, *ty)?;
    }
    Ok(())
}

fn add_result(
    name: &mut Units,
    program: &Program,
    answer: Option<DexType>,
) -> Result<(), AllocError>
    ensures { OnOk result (name.new ≡ name.old ++ result_descriptor program.now answer) }
{
    match answer {
        Some(ty) => add_descriptor(name, program, ty),
        None => add_ascii(name, b"V"),
    }
}

fn add_member(name: &mut Units, program: &Program, method: &Method) -> Result<(), AllocError>
    ensures { OnOk result (name.new ≡ name.old ++ member_name program.now method.now) }
{
    name.extend_from_slice(method.name.as_slice())?;
    add_ascii(name, b"(")?;
    add_types(name, program, method.params.as_slice())?;
    add_ascii(name, b")")?;
    add_result(name, program, method.result)
}

/// A method's name as printed, as `Lc;->add(II)I`: the descriptor of its class, its own name, and those of its parameters and of its result.
///
/// Source: Dalvik Executable format, sections TypeDescriptor Semantics and proto_id_item.
pub fn method_name(alloc: Global, program: &Program, method: &Method) -> Result<Units, AllocError>
    ensures { IfOk result (λ name. name ≡ method_name program.now method.now) }
{
    let mut name = List::new(alloc);
    add_class_name(&mut name, program, method.class)?;
    add_ascii(&mut name, b"->")?;
    add_member(&mut name, program, method)?;
    Ok(name)
}

/// The names of a program's methods as printed, in their order.
pub fn method_names(alloc: Global, program: &Program) -> Result<List<Units>, AllocError>
    ensures { IfOk result (λ names. names ≡ map (method_name program.now) program.now.methods) }
{
    let mut names = List::new(alloc);
    for method in program.methods.as_slice() {
        names.push(method_name(alloc, program, method)?)?;
    }
    Ok(names)
}
