//! Programs: classes, fields, methods and their code, with every name and row resolved.

use crate::instruction::Insn;
use crate::lists::{ClassIx, ClassList, FieldList, MethodIx, TextIx, Texts, Units};
use cc_list::List;

/// A type of a field, a parameter or a result, without its array dimensions. There is none of floating point.
/// Source: Dalvik Executable format, section TypeDescriptor Semantics.
#[derive(Clone, Copy)]
pub enum Base {
    Boolean,
    Byte,
    Short,
    Char,
    Int,
    Long,
    Class(ClassIx),
}

/// A type: an array of `dims` dimensions of a base type, and at 0 the base type itself.
/// Source: Dalvik Executable format, section TypeDescriptor Semantics.
#[derive(Clone, Copy)]
pub struct DexType {
    pub dims: u8,
    pub base: Base,
}

/// Types, as those of a method's parameters in order.
pub type Types = List<DexType>;

/// Where a class comes from: the file defines it, it is built in, or it is an array. Every other one is outside, and an `OutsideError` where its
/// superclass is taken to be `Exception` or `Error`.
#[derive(Clone, Copy, PartialEq, Eq)]
pub enum ClassKind {
    File,
    BuiltIn,
    Outside,
    OutsideError,
    Array,
}

/// The value that a file states for a static field. A text is the number of a text of the program, and in what is read of a file its row.
/// Source: Dalvik Executable format, section encoded_value encoding.
#[derive(Clone, Copy)]
pub enum StaticValue {
    Int(i32),
    Long(i64),
    Text(TextIx),
    Null,
}

/// Static values, for the first static fields of a class in order; the other fields begin at zero or null.
/// Source: Dalvik Executable format, section encoded_array_item.
pub type StaticValues = List<StaticValue>;

/// A class. The name is its descriptor, as `Lc;` or `[I`, and the interfaces are those that it names itself. The layout has the instance fields of the
/// superclass first, then its own in number order; `values` are those of its own static fields.
/// Source: Dalvik Executable format, section class_def_item.
#[derive(Drop)]
pub struct Class {
    pub name: Units,
    pub kind: ClassKind,
    pub superclass: Option<ClassIx>,
    pub interfaces: ClassList,
    pub is_interface: bool,
    pub is_abstract: bool,
    pub layout: FieldList,
    pub initialiser: Option<MethodIx>,
    pub values: StaticValues,
}

/// The classes of a program, in rising order of their names by UTF-16 units.
pub type Classes = List<Class>;

/// A field. The name is the bare one, as `size`.
/// Source: Dalvik Executable format, sections field_id_item and encoded_field format.
#[derive(Drop)]
pub struct Field {
    pub class: ClassIx,
    pub name: Units,
    pub ty: DexType,
    pub is_static: bool,
}

/// The fields of a program, in rising order of their names as printed, by UTF-16 units.
pub type Fields = List<Field>;

/// Where a method's meaning comes from. A native method and an outside one are answered by the script, a built-in one by its own rule.
#[derive(Drop)]
pub enum MethodKind {
    Code(Code),
    Native,
    Abstract,
    BuiltIn,
    Outside,
}

/// A method. The name is the bare one, as `main`; `params` leaves out the receiver, and `result` is `None` for a method that gives nothing.
/// `is_virtual` says whether a call of it is dispatched by the receiver's class.
/// Source: Dalvik Executable format, sections method_id_item, proto_id_item and encoded_method format.
#[derive(Drop)]
pub struct Method {
    pub class: ClassIx,
    pub name: Units,
    pub params: Types,
    pub result: Option<DexType>,
    pub is_static: bool,
    pub is_virtual: bool,
    pub kind: MethodKind,
}

/// The methods of a program, in rising order of their names as printed, by UTF-16 units.
pub type Methods = List<Method>;

/// An instruction, with its address and its length, both in units of 16 bits. A payload is one of these.
#[derive(Drop)]
pub struct Placed {
    pub at: u32,
    pub units: u32,
    pub insn: Insn,
}

/// The instructions of a method, by rising address, each where the one before it ends.
pub type Insns = List<Placed>;

/// A handler of a try: the type that it takes, or every one at `None`, and its address in units.
/// Source: Dalvik Executable format, sections encoded_catch_handler format and encoded_type_addr_pair format.
#[derive(Clone, Copy)]
pub struct Catch {
    pub kind: Option<DexType>,
    pub at: u32,
}

/// The handlers of a try, in the order in which they are asked.
pub type Catches = List<Catch>;

/// A try, which covers the addresses from `start` to before `end`, in units.
/// Source: Dalvik Executable format, section try_item format.
#[derive(Drop)]
pub struct Try {
    pub start: u32,
    pub end: u32,
    pub catches: Catches,
}

/// The tries of a method, in order.
pub type Tries = List<Try>;

/// A method's code: how many registers it has, how many of them, the last ones, hold its arguments as it begins, its instructions and its tries.
/// Source: Dalvik Executable format, section code_item.
#[derive(Drop)]
pub struct Code {
    pub registers: u16,
    pub ins: u16,
    pub insns: Insns,
    pub tries: Tries,
}

/// A program, and the method that it begins with. Each of its lists is in rising order of names, so that a number is a place in that order.
#[derive(Drop)]
pub struct Program {
    pub classes: Classes,
    pub methods: Methods,
    pub fields: Fields,
    pub texts: Texts,
    pub main: MethodIx,
}

/// What the verifier knows of a register: nothing, an int, the literal 0, which is an int or null, half of a long, a reference that fits a type, or an
/// object that was made at that address and whose constructor has still to be called.
#[derive(Clone, Copy)]
pub enum RegType {
    Unset,
    Int,
    Zero,
    LongLow,
    LongHigh,
    Reference(DexType),
    Fresh(u32),
}
