//! Instructions of Dalvik bytecode.
//! Source: Dalvik bytecode, section Summary of bytecode set, and Dalvik executable instruction formats.

use crate::lists::{Bytes, ClassIx, MethodIx, Offsets, Registers};
use crate::program::DexType;

/// What a value is taken as by a move, a return, or an access to a field or an element: an int, a long, a reference, or a number that is kept in
/// fewer bits.
#[derive(Clone, Copy)]
pub enum Kind {
    Plain,
    Wide,
    Object,
    Boolean,
    Byte,
    Char,
    Short,
}

/// A comparison of two ints, or of one with 0; of references only `Eq` and `Ne`.
#[derive(Clone, Copy)]
pub enum Test {
    Eq,
    Ne,
    Lt,
    Ge,
    Gt,
    Le,
}

/// How a method is invoked, by the name of the instruction.
#[derive(Clone, Copy)]
pub enum How {
    Virtual,
    Super,
    Direct,
    Static,
    Interface,
}

/// A conversion between numbers. That to a char extends with zeros, the others with the sign.
#[derive(Clone, Copy)]
pub enum Conversion {
    IntToLong,
    LongToInt,
    IntToByte,
    IntToChar,
    IntToShort,
}

/// An operation on two numbers. It wraps; a quotient is rounded towards zero, and a shift uses the low 5 or 6 bits of its count.
#[derive(Clone, Copy)]
pub enum IntOp {
    Add,
    Sub,
    Mul,
    Div,
    Rem,
    And,
    Or,
    Xor,
    Shl,
    Shr,
    Ushr,
}

/// An operation on one number: its negative, which wraps, or the opposite of each bit.
#[derive(Clone, Copy)]
pub enum UnaryOp {
    Negate,
    Not,
}

/// A type that an instruction names: as it is decoded the row of the file's types, and in a program the type.
#[derive(Clone, Copy)]
pub enum TypeRef {
    Row(u32),
    Known(DexType),
}

/// A method that an instruction names: as it is decoded the row of the file's methods, and in a program the named class and the method after resolution.
#[derive(Clone, Copy)]
pub enum MethodRef {
    Row(u32),
    Known { class: ClassIx, method: MethodIx },
}

/// An instruction. A target is an offset in units from the instruction's own address, as it is spelled. In `text` and `field` stands a row of the file,
/// and in a program the number of the text or field. The forms that write to their left operand have `left` equal to `to`.
#[derive(Drop)]
pub enum Insn {
    Nop,
    Move {
        kind: Kind,
        to: u16,
        from: u16,
    },
    MoveResult {
        kind: Kind,
        to: u16,
    },
    MoveException {
        to: u16,
    },
    ReturnVoid,
    Return {
        kind: Kind,
        from: u16,
    },
    ConstInt {
        to: u16,
        value: i32,
    },
    ConstLong {
        to: u16,
        value: i64,
    },
    ConstText {
        to: u16,
        text: u32,
    },
    ConstClass {
        to: u16,
        named: TypeRef,
    },
    Monitor {
        enter: bool,
        object: u16,
    },
    CheckCast {
        object: u16,
        named: TypeRef,
    },
    InstanceOf {
        to: u16,
        object: u16,
        named: TypeRef,
    },
    ArrayLength {
        to: u16,
        array: u16,
    },
    NewInstance {
        to: u16,
        named: TypeRef,
    },
    NewArray {
        to: u16,
        length: u16,
        named: TypeRef,
    },
    FilledNewArray {
        named: TypeRef,
        args: Registers,
    },
    FillArray {
        array: u16,
        target: i32,
    },
    Throw {
        object: u16,
    },
    Goto {
        target: i32,
    },
    Switch {
        packed: bool,
        value: u16,
        target: i32,
    },
    CompareLong {
        to: u16,
        left: u16,
        right: u16,
    },
    If {
        test: Test,
        left: u16,
        right: u16,
        target: i32,
    },
    IfZero {
        test: Test,
        value: u16,
        target: i32,
    },
    ArrayGet {
        kind: Kind,
        to: u16,
        array: u16,
        index: u16,
    },
    ArrayPut {
        kind: Kind,
        from: u16,
        array: u16,
        index: u16,
    },
    FieldGet {
        kind: Kind,
        to: u16,
        object: u16,
        field: u32,
    },
    FieldPut {
        kind: Kind,
        from: u16,
        object: u16,
        field: u32,
    },
    StaticGet {
        kind: Kind,
        to: u16,
        field: u32,
    },
    StaticPut {
        kind: Kind,
        from: u16,
        field: u32,
    },
    Invoke {
        how: How,
        named: MethodRef,
        args: Registers,
    },
    IntUnary {
        op: UnaryOp,
        to: u16,
        from: u16,
    },
    LongUnary {
        op: UnaryOp,
        to: u16,
        from: u16,
    },
    Convert {
        op: Conversion,
        to: u16,
        from: u16,
    },
    IntOp {
        op: IntOp,
        to: u16,
        left: u16,
        right: u16,
    },
    LongOp {
        op: IntOp,
        to: u16,
        left: u16,
        right: u16,
    },
    IntLit {
        op: IntOp,
        reversed: bool,
        to: u16,
        left: u16,
        literal: i32,
    },
    PackedPayload {
        first: i32,
        targets: Offsets,
    },
    SparsePayload {
        keys: Offsets,
        targets: Offsets,
    },
    ArrayPayload {
        width: u16,
        bytes: Bytes,
    },
}
