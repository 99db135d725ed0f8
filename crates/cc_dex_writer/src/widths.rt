//! That the numbers of a class have the widths of their types. Each is read, since a proof knows a width only of a number that is read.

ghost use Rattle.std.specs.Prelude.{All, ◌<◌, ◌^◌};
ghost use Rattle.cc_meaning_builder.specs.Written.{IsSmallCatch, IsSmallClass, IsSmallCode, IsSmallField, IsSmallMethod, IsSmallTry, IsSmallValue};

use cc_meaning::file::{RawCatch, RawClass, RawCode, RawField, RawMethod, RawTry};
use cc_meaning::program::StaticValue;

fn small_field(field: RawField)
    ensures { IsSmallField field }
{
    let _row = field.row;
    let _flags = field.flags;
}

fn small_fields(fields: &[RawField])
    ensures { All IsSmallField fields.now }
{
    for field in fields {
        small_field(*field);
    }
}

fn small_catch(catch: RawCatch)
    ensures { IsSmallCatch catch }
{
    if let Some(_row) = catch.row {}
}

fn small_catches(catches: &[RawCatch])
    ensures { All IsSmallCatch catches.now }
{
    for catch in catches {
        small_catch(*catch);
    }
}

fn small_try(covered: &RawTry)
    ensures { IsSmallTry covered.now }
{
    let _start = covered.start;
    let _end = covered.end;
    small_catches(covered.catches.as_slice());
}

fn small_tries(tries: &[RawTry])
    ensures { All IsSmallTry tries.now }
{
    for covered in tries {
        small_try(covered);
    }
}

/// Units have 16 bits.
pub fn small_units(units: &[u16])
    ensures { All (λ unit. unit < 65536) units.now }
{}

fn small_code(code: &RawCode)
    ensures { IsSmallCode code.now }
{
    let _registers = code.registers;
    let _ins = code.ins;
    small_units(code.units.as_slice());
    small_tries(code.tries.as_slice());
}

fn small_method(method: &RawMethod)
    ensures { IsSmallMethod method.now }
{
    let _row = method.row;
    let _flags = method.flags;
    if let Some(code) = &method.code {
        small_code(code);
    }
}

fn small_methods(methods: &[RawMethod])
    ensures { All IsSmallMethod methods.now }
{
    for method in methods {
        small_method(method);
    }
}

fn small_value(value: StaticValue)
    ensures { IsSmallValue value }
{
    match value {
        StaticValue::Int(_n) => {}
        StaticValue::Long(_n) => {}
        StaticValue::Text(_row) => {}
        StaticValue::Null => {}
    }
}

fn small_values(values: &[StaticValue])
    ensures { All IsSmallValue values.now }
{
    for value in values {
        small_value(*value);
    }
}

/// The numbers of a class have the widths of their types.
pub fn small_class(class: &RawClass)
    ensures { IsSmallClass class.now }
{
    small_fields(class.fields.as_slice());
    small_methods(class.methods.as_slice());
    small_values(class.values.as_slice());
}
