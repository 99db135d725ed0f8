//! What an opcode stands for: how many units its instruction has, their format, and what it is.
//! Source: Dalvik executable instruction formats, section The formats; Dalvik bytecode, section Summary of bytecode set.

use cc_meaning::instruction::{Conversion, How, IntOp, Kind, Test, UnaryOp};

/// What the low byte of an instruction's first unit stands for.
#[derive(Clone, Copy)]
pub enum Opcode {
    /// An instruction of floating point.
    Float,
    /// No instruction.
    Unused,
    One(OneUnit),
    Two(TwoUnits),
    Three(ThreeUnits),
    /// Five units: `const-wide`, format 51l.
    Five,
    /// Three units that name up to five arguments one by one: format 35c.
    Listed(Listed),
    /// Three units that name the first argument and how many there are: format 3rc.
    Ranged(Listed),
}

/// An instruction of one unit, by its format.
#[derive(Clone, Copy)]
pub enum OneUnit {
    F10x(Bare),
    F12x(Pair),
    /// `const/4`.
    F11n,
    F11x(Single),
    /// `goto`.
    F10t,
}

/// An instruction of two units, by its format.
#[derive(Clone, Copy)]
pub enum TwoUnits {
    /// `goto/16`.
    F20t,
    /// A move from any of 65,536 registers to one of 256.
    F22x(Kind),
    /// A test of a register against zero.
    F21t(Test),
    F21s(Constant),
    /// A constant of which the highest 16 bits are spelled.
    F21h(Constant),
    F21c(Named),
    F23x(Triple),
    /// An operation with a literal of 8 bits; where it is reversed the literal is on the left.
    F22b { op: IntOp, reversed: bool },
    /// A test of two registers.
    F22t(Test),
    /// An operation with a literal of 16 bits; where it is reversed the literal is on the left.
    F22s { op: IntOp, reversed: bool },
    F22c(PairNamed),
}

/// An instruction of three units without a list of arguments, by its format.
#[derive(Clone, Copy)]
pub enum ThreeUnits {
    /// `goto/32`.
    F30t,
    /// A move between any of 65,536 registers.
    F32x(Kind),
    F31i(Constant),
    F31t(Distant),
    /// `const-string/jumbo`.
    F31c,
}

/// What names nothing.
#[derive(Clone, Copy)]
pub enum Bare {
    Nop,
    ReturnVoid,
}

/// What names one register.
#[derive(Clone, Copy)]
pub enum Single {
    MoveResult(Kind),
    MoveException,
    Return(Kind),
    MonitorEnter,
    MonitorExit,
    Throw,
}

/// What names two registers. The operations write to the first, which is their left operand too.
#[derive(Clone, Copy)]
pub enum Pair {
    Move(Kind),
    ArrayLength,
    IntUnary(UnaryOp),
    LongUnary(UnaryOp),
    Convert(Conversion),
    IntOp(IntOp),
    LongOp(IntOp),
}

/// What names three registers.
#[derive(Clone, Copy)]
pub enum Triple {
    CompareLong,
    ArrayGet(Kind),
    ArrayPut(Kind),
    IntOp(IntOp),
    LongOp(IntOp),
}

/// What a constant is taken as.
#[derive(Clone, Copy)]
pub enum Constant {
    Int,
    Long,
}

/// What names a register and a row of the file.
#[derive(Clone, Copy)]
pub enum Named {
    ConstText,
    ConstClass,
    CheckCast,
    NewInstance,
    StaticGet(Kind),
    StaticPut(Kind),
}

/// What names two registers and a row of the file.
#[derive(Clone, Copy)]
pub enum PairNamed {
    InstanceOf,
    NewArray,
    FieldGet(Kind),
    FieldPut(Kind),
}

/// What names a register and a payload.
#[derive(Clone, Copy)]
pub enum Distant {
    FillArray,
    PackedSwitch,
    SparseSwitch,
}

/// What names a row of the file and a list of arguments.
#[derive(Clone, Copy)]
pub enum Listed {
    FilledNewArray,
    Invoke(How),
}
