//! The file of these tests, and what is put into it.

ghost use Rattle.std.specs.Prelude.{◌≡◌, ◌<◌, length};

use cc_builder::{DexBuilder, units_of};
use cc_list::List;
use cc_meaning::fault::Memory;
use cc_meaning::file::{RawCode, RawField};
use cc_meaning::listing::{ListedValue, Listing};
use cc_meaning::lists::Bytes;
use cc_meaning_dex::StatedMethod;
use std::alloc::Global;

/// Numbers of classes, in the order in which they are added.
pub const CLASS_A: usize = 0;

pub const CLASS_B: usize = 1;

pub const CLASS_C: usize = 2;

pub const CLASS_D: usize = 3;

/// Rows of types: a file has types in the order of their descriptors. Here these are `B`, `C`, `F`, `I`, `J`, `LA;`, `LB;`, `LC;`, `LD;`,
/// `Ljava/lang/String;`, `S`, `V`, `Z` and `[I`.
pub const INT: u32 = 3;

pub const A: u32 = 5;

pub const B: u32 = 6;

pub const C: u32 = 7;

pub const STRING: u32 = 9;

pub const VOID: u32 = 11;

pub const INT_ARRAY: u32 = 13;

/// How many types there are.
pub const TYPES: u32 = 14;

/// The row of the text `name`. Before it stand the descriptors and `VIJ`, the short form of a prototype.
pub const NAME: u32 = 15;

/// How many texts there are.
pub const TEXTS: u32 = 16;

/// Rows of fields, of class A, by their types. A file has them in the order of their classes and then of their types.
pub const BYTES: u32 = 0;

pub const CHARS: u32 = 1;

pub const FLOATS: u32 = 2;

pub const INTS: u32 = 3;

pub const LONGS: u32 = 4;

pub const OBJECTS: u32 = 5;

pub const STRINGS: u32 = 6;

pub const SHORTS: u32 = 7;

pub const BOOLEANS: u32 = 8;

pub const ARRAYS: u32 = 9;

/// A field of class B, and one of class C. There are so many fields.
pub const OF_B: u32 = 10;

pub const OF_C: u32 = 11;

pub const FIELDS: u32 = 12;

/// Rows of methods, of class A: one without parameters, and one that takes an int and a long. One of class B, and one of class C.
/// There are so many methods.
pub const PLAIN: u32 = 0;

pub const TAKES_THREE: u32 = 1;

pub const METHOD_OF_B: u32 = 2;

pub const METHOD_OF_C: u32 = 3;

pub const METHODS: u32 = 4;

/// Access flags.
pub const PUBLIC: u32 = 0x1;

pub const STATIC: u32 = 0x8;

pub const NATIVE: u32 = 0x100;

pub const ABSTRACT: u32 = 0x400;

/// Code without tries.
pub fn listing(alloc: Global, registers: u16, units: &[u16]) -> Result<Listing, Memory> {
    Ok(Listing {
        registers,
        outs: 0,
        units: List::from_slice(alloc, units)?,
        marks: List::new(alloc),
        tries: List::new(alloc),
    })
}

/// Adds fields of numbers to class A: all but those of longs and floats are static.
fn add_numbers(builder: &mut DexBuilder, class: u32) -> Result<(), Memory>
    requires { class < length builder.old }
    ensures { length builder.new ≡ length builder.old }
{
    builder.field(class, "name", "Z", STATIC, Some(ListedValue::Int(1)))?;
    builder.field(class, "name", "B", STATIC, Some(ListedValue::Int(-128)))?;
    builder.field(class, "name", "S", STATIC, Some(ListedValue::Int(-257)))?;
    builder.field(class, "name", "C", STATIC, Some(ListedValue::Int(65535)))?;
    builder.field(class, "name", "I", 0x19, Some(ListedValue::Int(i32::MIN)))?;
    builder.field(class, "name", "J", 2, None)?;
    builder.field(class, "name", "F", 4, None)
}

/// Adds static fields of references to class A.
fn add_references(alloc: Global, builder: &mut DexBuilder, class: u32) -> Result<(), Memory>
    requires { class < length builder.old }
    ensures { length builder.new ≡ length builder.old }
{
    let text = ListedValue::Text(units_of(alloc, "name")?);
    builder.field(class, "name", "Ljava/lang/String;", 0x3_0008, Some(text))?;
    builder.field(class, "name", "LB;", STATIC, Some(ListedValue::Null))?;
    builder.field(class, "name", "[I", STATIC, None)
}

/// Adds the methods of class A, both with code.
fn add_methods(alloc: Global, builder: &mut DexBuilder, class: u32) -> Result<(), Memory>
    requires { class < length builder.old }
    ensures { length builder.new ≡ length builder.old }
{
    let plain = listing(alloc, 5, &[0x000e])?;
    let other = listing(alloc, 4, &[0x1012, 0x00ff, 0xff00, 0x000e])?;
    builder.method(class, "name", "(IJ)V", PUBLIC, Some(other))?;
    builder.method(class, "name", "()V", STATIC, Some(plain))
}

/// Adds an instance field and an abstract method to a class.
fn add_members(builder: &mut DexBuilder, class: u32) -> Result<(), Memory>
    requires { class < length builder.old }
    ensures { length builder.new ≡ length builder.old }
{
    builder.field(class, "name", "I", 0, None)?;
    builder.method(class, "name", "()V", ABSTRACT, None)
}

/// A file with the classes A, B, C and D, the last without members.
pub fn sample(alloc: Global) -> Result<Bytes, Memory> {
    let mut builder = DexBuilder::new(alloc)?;
    let a = builder.class("LA;", "", PUBLIC)?;
    add_numbers(&mut builder, a)?;
    add_references(alloc, &mut builder, a)?;
    add_methods(alloc, &mut builder, a)?;
    let b = builder.class("LB;", "", PUBLIC)?;
    add_members(&mut builder, b)?;
    let c = builder.class("LC;", "", PUBLIC)?;
    add_members(&mut builder, c)?;
    builder.class("LD;", "", PUBLIC)?;
    builder.finish()
}

/// A field that stands among the static ones.
pub const fn static_field(row: u32, flags: u32) -> RawField {
    RawField {
        row,
        flags,
        is_static: true,
    }
}

/// A field that stands among those of instances.
pub const fn instance_field(row: u32, flags: u32) -> RawField {
    RawField {
        row,
        flags,
        is_static: false,
    }
}

/// A method that stands among the direct ones, with the offset of its code, 0 for none.
pub const fn direct_method(row: u32, flags: u32, code_at: u32) -> StatedMethod {
    StatedMethod {
        row,
        flags,
        is_direct: true,
        code_at,
    }
}

/// A method without code that stands among the virtual ones.
pub const fn virtual_method(row: u32, flags: u32) -> StatedMethod {
    StatedMethod {
        row,
        flags,
        is_direct: false,
        code_at: 0,
    }
}

/// Code of one unit, without tries.
pub fn simple(alloc: Global, registers: u16, ins: u16) -> Result<RawCode, Memory> {
    Ok(RawCode {
        registers,
        ins,
        units: List::from_slice(alloc, &[0x000e])?,
        tries: List::new(alloc),
    })
}
