//! The units of instructions with a target, and the target itself.

use crate::fault::AssemblyFault;
use crate::form::{Form, Size, pair_with_unit, test_at, with_unit, with_units};
use cc_meaning::instruction::Insn;
use cc_meaning::lists::Units;

/// What jumps, or names a payload. The target is 0.
pub fn jumps(insn: &Insn, size: Size) -> Option<Form> {
    match insn {
        Insn::Goto { .. } if size == Size::Wide => Some(Form::Two(0x29, 0)),
        Insn::Goto { .. } => Some(Form::One(0x28)),
        Insn::If {
            test,
            left,
            right,
            ..
        } => pair_with_unit(0x32 + test_at(*test), *left, *right, 0),
        Insn::IfZero { test, value, .. } => with_unit(0x38 + test_at(*test), *value, 0),
        Insn::FillArray { array, .. } => with_units(0x26, *array, 0),
        Insn::Switch { packed, value, .. } => {
            with_units(if *packed { 0x2b } else { 0x2c }, *value, 0)
        }
        _ => None,
    }
}

/// Where the target of an instruction is written: in the high byte of its unit, in the unit behind, or in two.
#[derive(Clone, Copy)]
pub enum Field {
    HighByte,
    OneUnit,
    TwoUnits,
}

/// The field of a target, by the form of its instruction.
pub fn field_of(form: Form) -> Field {
    match form {
        Form::One(_) => Field::HighByte,
        Form::Two(..) => Field::OneUnit,
        _ => Field::TwoUnits,
    }
}

/// Writes a unit, where there is one.
fn set(units: &mut Units, at: usize, unit: u16) {
    if at < units.len() {
        units.set(at, unit);
    }
}

/// Writes a target: how far it is from the instruction at a place, in units.
pub fn set_target(
    units: &mut Units,
    at: usize,
    field: Field,
    target: i32,
) -> Result<(), AssemblyFault> {
    match field {
        Field::HighByte => {
            let Ok(target) = i8::try_from(target) else {
                return Err(AssemblyFault::TooFar);
            };
            set(units, at, 0x28 | (u16::from(target.cast_unsigned()) << 8));
        }
        Field::OneUnit => {
            let Ok(target) = i16::try_from(target) else {
                return Err(AssemblyFault::TooFar);
            };
            set(units, at.saturating_add(1), target.cast_unsigned());
        }
        Field::TwoUnits => {
            let bits = target.cast_unsigned();
            set(units, at.saturating_add(1), (bits % 65536) as u16);
            set(units, at.saturating_add(2), (bits / 65536) as u16);
        }
    }
    Ok(())
}
