//! The opcodes from 00 to ff.
//! Source: Dalvik bytecode, section Summary of bytecode set.

ghost use Rattle.std.specs.Prelude.{◌≡◌};
ghost use Rattle.cc_meaning_insn.specs.Opcodes.{opcode_at};

use cc_meaning::instruction::{Conversion, How, IntOp, Kind, Test, UnaryOp};
use cc_meaning_insn::{
    Bare, Constant, Distant, Listed, Named, OneUnit, Opcode, Pair, PairNamed, Single, ThreeUnits,
    Triple, TwoUnits,
};

/// `rsub-int`: a literal of 16 bits less a register.
const REVERSED_16: Opcode = Opcode::Two(TwoUnits::F22s {
    op: IntOp::Sub,
    reversed: true,
});

/// `rsub-int/lit8`: a literal of 8 bits less a register.
const REVERSED_8: Opcode = Opcode::Two(TwoUnits::F22b {
    op: IntOp::Sub,
    reversed: true,
});

/// What each opcode stands for.
static OPCODES: [Opcode; 256] = [
    // 00: nop
    Opcode::One(OneUnit::F10x(Bare::Nop)),
    // 01 to 03: move, /from16, /16
    Opcode::One(OneUnit::F12x(Pair::Move(Kind::Plain))),
    Opcode::Two(TwoUnits::F22x(Kind::Plain)),
    Opcode::Three(ThreeUnits::F32x(Kind::Plain)),
    // 04 to 06: move-wide, /from16, /16
    Opcode::One(OneUnit::F12x(Pair::Move(Kind::Wide))),
    Opcode::Two(TwoUnits::F22x(Kind::Wide)),
    Opcode::Three(ThreeUnits::F32x(Kind::Wide)),
    // 07 to 09: move-object, /from16, /16
    Opcode::One(OneUnit::F12x(Pair::Move(Kind::Object))),
    Opcode::Two(TwoUnits::F22x(Kind::Object)),
    Opcode::Three(ThreeUnits::F32x(Kind::Object)),
    // 0a to 0d: move-result, -wide, -object; move-exception
    Opcode::One(OneUnit::F11x(Single::MoveResult(Kind::Plain))),
    Opcode::One(OneUnit::F11x(Single::MoveResult(Kind::Wide))),
    Opcode::One(OneUnit::F11x(Single::MoveResult(Kind::Object))),
    Opcode::One(OneUnit::F11x(Single::MoveException)),
    // 0e to 11: return-void; return, -wide, -object
    Opcode::One(OneUnit::F10x(Bare::ReturnVoid)),
    Opcode::One(OneUnit::F11x(Single::Return(Kind::Plain))),
    Opcode::One(OneUnit::F11x(Single::Return(Kind::Wide))),
    Opcode::One(OneUnit::F11x(Single::Return(Kind::Object))),
    // 12 to 15: const/4, /16, const, /high16
    Opcode::One(OneUnit::F11n),
    Opcode::Two(TwoUnits::F21s(Constant::Int)),
    Opcode::Three(ThreeUnits::F31i(Constant::Int)),
    Opcode::Two(TwoUnits::F21h(Constant::Int)),
    // 16 to 19: const-wide/16, /32, const-wide, /high16
    Opcode::Two(TwoUnits::F21s(Constant::Long)),
    Opcode::Three(ThreeUnits::F31i(Constant::Long)),
    Opcode::Five,
    Opcode::Two(TwoUnits::F21h(Constant::Long)),
    // 1a to 1c: const-string, /jumbo, const-class
    Opcode::Two(TwoUnits::F21c(Named::ConstText)),
    Opcode::Three(ThreeUnits::F31c),
    Opcode::Two(TwoUnits::F21c(Named::ConstClass)),
    // 1d to 20: monitor-enter, monitor-exit, check-cast, instance-of
    Opcode::One(OneUnit::F11x(Single::MonitorEnter)),
    Opcode::One(OneUnit::F11x(Single::MonitorExit)),
    Opcode::Two(TwoUnits::F21c(Named::CheckCast)),
    Opcode::Two(TwoUnits::F22c(PairNamed::InstanceOf)),
    // 21 to 23: array-length, new-instance, new-array
    Opcode::One(OneUnit::F12x(Pair::ArrayLength)),
    Opcode::Two(TwoUnits::F21c(Named::NewInstance)),
    Opcode::Two(TwoUnits::F22c(PairNamed::NewArray)),
    // 24 to 27: filled-new-array, /range, fill-array-data, throw
    Opcode::Listed(Listed::FilledNewArray),
    Opcode::Ranged(Listed::FilledNewArray),
    Opcode::Three(ThreeUnits::F31t(Distant::FillArray)),
    Opcode::One(OneUnit::F11x(Single::Throw)),
    // 28 to 2a: goto, /16, /32
    Opcode::One(OneUnit::F10t),
    Opcode::Two(TwoUnits::F20t),
    Opcode::Three(ThreeUnits::F30t),
    // 2b, 2c: packed-switch, sparse-switch
    Opcode::Three(ThreeUnits::F31t(Distant::PackedSwitch)),
    Opcode::Three(ThreeUnits::F31t(Distant::SparseSwitch)),
    // 2d to 30: comparisons of floating point
    Opcode::Float,
    Opcode::Float,
    Opcode::Float,
    Opcode::Float,
    // 31: cmp-long
    Opcode::Two(TwoUnits::F23x(Triple::CompareLong)),
    // 32 to 37: if-eq, ne, lt, ge, gt, le
    Opcode::Two(TwoUnits::F22t(Test::Eq)),
    Opcode::Two(TwoUnits::F22t(Test::Ne)),
    Opcode::Two(TwoUnits::F22t(Test::Lt)),
    Opcode::Two(TwoUnits::F22t(Test::Ge)),
    Opcode::Two(TwoUnits::F22t(Test::Gt)),
    Opcode::Two(TwoUnits::F22t(Test::Le)),
    // 38 to 3d: if-eqz to if-lez, in the same order
    Opcode::Two(TwoUnits::F21t(Test::Eq)),
    Opcode::Two(TwoUnits::F21t(Test::Ne)),
    Opcode::Two(TwoUnits::F21t(Test::Lt)),
    Opcode::Two(TwoUnits::F21t(Test::Ge)),
    Opcode::Two(TwoUnits::F21t(Test::Gt)),
    Opcode::Two(TwoUnits::F21t(Test::Le)),
    // 3e to 43: unused
    Opcode::Unused,
    Opcode::Unused,
    Opcode::Unused,
    Opcode::Unused,
    Opcode::Unused,
    Opcode::Unused,
    // 44 to 4a: aget, -wide, -object, -boolean, -byte, -char, -short
    Opcode::Two(TwoUnits::F23x(Triple::ArrayGet(Kind::Plain))),
    Opcode::Two(TwoUnits::F23x(Triple::ArrayGet(Kind::Wide))),
    Opcode::Two(TwoUnits::F23x(Triple::ArrayGet(Kind::Object))),
    Opcode::Two(TwoUnits::F23x(Triple::ArrayGet(Kind::Boolean))),
    Opcode::Two(TwoUnits::F23x(Triple::ArrayGet(Kind::Byte))),
    Opcode::Two(TwoUnits::F23x(Triple::ArrayGet(Kind::Char))),
    Opcode::Two(TwoUnits::F23x(Triple::ArrayGet(Kind::Short))),
    // 4b to 51: aput, -wide, -object, -boolean, -byte, -char, -short
    Opcode::Two(TwoUnits::F23x(Triple::ArrayPut(Kind::Plain))),
    Opcode::Two(TwoUnits::F23x(Triple::ArrayPut(Kind::Wide))),
    Opcode::Two(TwoUnits::F23x(Triple::ArrayPut(Kind::Object))),
    Opcode::Two(TwoUnits::F23x(Triple::ArrayPut(Kind::Boolean))),
    Opcode::Two(TwoUnits::F23x(Triple::ArrayPut(Kind::Byte))),
    Opcode::Two(TwoUnits::F23x(Triple::ArrayPut(Kind::Char))),
    Opcode::Two(TwoUnits::F23x(Triple::ArrayPut(Kind::Short))),
    // 52 to 58: iget, -wide, -object, -boolean, -byte, -char, -short
    Opcode::Two(TwoUnits::F22c(PairNamed::FieldGet(Kind::Plain))),
    Opcode::Two(TwoUnits::F22c(PairNamed::FieldGet(Kind::Wide))),
    Opcode::Two(TwoUnits::F22c(PairNamed::FieldGet(Kind::Object))),
    Opcode::Two(TwoUnits::F22c(PairNamed::FieldGet(Kind::Boolean))),
    Opcode::Two(TwoUnits::F22c(PairNamed::FieldGet(Kind::Byte))),
    Opcode::Two(TwoUnits::F22c(PairNamed::FieldGet(Kind::Char))),
    Opcode::Two(TwoUnits::F22c(PairNamed::FieldGet(Kind::Short))),
    // 59 to 5f: iput, -wide, -object, -boolean, -byte, -char, -short
    Opcode::Two(TwoUnits::F22c(PairNamed::FieldPut(Kind::Plain))),
    Opcode::Two(TwoUnits::F22c(PairNamed::FieldPut(Kind::Wide))),
    Opcode::Two(TwoUnits::F22c(PairNamed::FieldPut(Kind::Object))),
    Opcode::Two(TwoUnits::F22c(PairNamed::FieldPut(Kind::Boolean))),
    Opcode::Two(TwoUnits::F22c(PairNamed::FieldPut(Kind::Byte))),
    Opcode::Two(TwoUnits::F22c(PairNamed::FieldPut(Kind::Char))),
    Opcode::Two(TwoUnits::F22c(PairNamed::FieldPut(Kind::Short))),
    // 60 to 66: sget, -wide, -object, -boolean, -byte, -char, -short
    Opcode::Two(TwoUnits::F21c(Named::StaticGet(Kind::Plain))),
    Opcode::Two(TwoUnits::F21c(Named::StaticGet(Kind::Wide))),
    Opcode::Two(TwoUnits::F21c(Named::StaticGet(Kind::Object))),
    Opcode::Two(TwoUnits::F21c(Named::StaticGet(Kind::Boolean))),
    Opcode::Two(TwoUnits::F21c(Named::StaticGet(Kind::Byte))),
    Opcode::Two(TwoUnits::F21c(Named::StaticGet(Kind::Char))),
    Opcode::Two(TwoUnits::F21c(Named::StaticGet(Kind::Short))),
    // 67 to 6d: sput, -wide, -object, -boolean, -byte, -char, -short
    Opcode::Two(TwoUnits::F21c(Named::StaticPut(Kind::Plain))),
    Opcode::Two(TwoUnits::F21c(Named::StaticPut(Kind::Wide))),
    Opcode::Two(TwoUnits::F21c(Named::StaticPut(Kind::Object))),
    Opcode::Two(TwoUnits::F21c(Named::StaticPut(Kind::Boolean))),
    Opcode::Two(TwoUnits::F21c(Named::StaticPut(Kind::Byte))),
    Opcode::Two(TwoUnits::F21c(Named::StaticPut(Kind::Char))),
    Opcode::Two(TwoUnits::F21c(Named::StaticPut(Kind::Short))),
    // 6e to 72: invoke-virtual, super, direct, static, interface
    Opcode::Listed(Listed::Invoke(How::Virtual)),
    Opcode::Listed(Listed::Invoke(How::Super)),
    Opcode::Listed(Listed::Invoke(How::Direct)),
    Opcode::Listed(Listed::Invoke(How::Static)),
    Opcode::Listed(Listed::Invoke(How::Interface)),
    // 73: unused
    Opcode::Unused,
    // 74 to 78: the same, /range
    Opcode::Ranged(Listed::Invoke(How::Virtual)),
    Opcode::Ranged(Listed::Invoke(How::Super)),
    Opcode::Ranged(Listed::Invoke(How::Direct)),
    Opcode::Ranged(Listed::Invoke(How::Static)),
    Opcode::Ranged(Listed::Invoke(How::Interface)),
    // 79, 7a: unused
    Opcode::Unused,
    Opcode::Unused,
    // 7b to 7e: neg-int, not-int, neg-long, not-long
    Opcode::One(OneUnit::F12x(Pair::IntUnary(UnaryOp::Negate))),
    Opcode::One(OneUnit::F12x(Pair::IntUnary(UnaryOp::Not))),
    Opcode::One(OneUnit::F12x(Pair::LongUnary(UnaryOp::Negate))),
    Opcode::One(OneUnit::F12x(Pair::LongUnary(UnaryOp::Not))),
    // 7f, 80: negatives of floating point
    Opcode::Float,
    Opcode::Float,
    // 81: int-to-long
    Opcode::One(OneUnit::F12x(Pair::Convert(Conversion::IntToLong))),
    // 82, 83: to floating point
    Opcode::Float,
    Opcode::Float,
    // 84: long-to-int
    Opcode::One(OneUnit::F12x(Pair::Convert(Conversion::LongToInt))),
    // 85 to 8c: from and to floating point
    Opcode::Float,
    Opcode::Float,
    Opcode::Float,
    Opcode::Float,
    Opcode::Float,
    Opcode::Float,
    Opcode::Float,
    Opcode::Float,
    // 8d to 8f: int-to-byte, -char, -short
    Opcode::One(OneUnit::F12x(Pair::Convert(Conversion::IntToByte))),
    Opcode::One(OneUnit::F12x(Pair::Convert(Conversion::IntToChar))),
    Opcode::One(OneUnit::F12x(Pair::Convert(Conversion::IntToShort))),
    // 90 to 9a: add-int, sub, mul, div, rem, and, or, xor, shl, shr, ushr
    Opcode::Two(TwoUnits::F23x(Triple::IntOp(IntOp::Add))),
    Opcode::Two(TwoUnits::F23x(Triple::IntOp(IntOp::Sub))),
    Opcode::Two(TwoUnits::F23x(Triple::IntOp(IntOp::Mul))),
    Opcode::Two(TwoUnits::F23x(Triple::IntOp(IntOp::Div))),
    Opcode::Two(TwoUnits::F23x(Triple::IntOp(IntOp::Rem))),
    Opcode::Two(TwoUnits::F23x(Triple::IntOp(IntOp::And))),
    Opcode::Two(TwoUnits::F23x(Triple::IntOp(IntOp::Or))),
    Opcode::Two(TwoUnits::F23x(Triple::IntOp(IntOp::Xor))),
    Opcode::Two(TwoUnits::F23x(Triple::IntOp(IntOp::Shl))),
    Opcode::Two(TwoUnits::F23x(Triple::IntOp(IntOp::Shr))),
    Opcode::Two(TwoUnits::F23x(Triple::IntOp(IntOp::Ushr))),
    // 9b to a5: the same of longs
    Opcode::Two(TwoUnits::F23x(Triple::LongOp(IntOp::Add))),
    Opcode::Two(TwoUnits::F23x(Triple::LongOp(IntOp::Sub))),
    Opcode::Two(TwoUnits::F23x(Triple::LongOp(IntOp::Mul))),
    Opcode::Two(TwoUnits::F23x(Triple::LongOp(IntOp::Div))),
    Opcode::Two(TwoUnits::F23x(Triple::LongOp(IntOp::Rem))),
    Opcode::Two(TwoUnits::F23x(Triple::LongOp(IntOp::And))),
    Opcode::Two(TwoUnits::F23x(Triple::LongOp(IntOp::Or))),
    Opcode::Two(TwoUnits::F23x(Triple::LongOp(IntOp::Xor))),
    Opcode::Two(TwoUnits::F23x(Triple::LongOp(IntOp::Shl))),
    Opcode::Two(TwoUnits::F23x(Triple::LongOp(IntOp::Shr))),
    Opcode::Two(TwoUnits::F23x(Triple::LongOp(IntOp::Ushr))),
    // a6 to af: of floating point
    Opcode::Float,
    Opcode::Float,
    Opcode::Float,
    Opcode::Float,
    Opcode::Float,
    Opcode::Float,
    Opcode::Float,
    Opcode::Float,
    Opcode::Float,
    Opcode::Float,
    // b0 to ba: add-int/2addr, in the same order
    Opcode::One(OneUnit::F12x(Pair::IntOp(IntOp::Add))),
    Opcode::One(OneUnit::F12x(Pair::IntOp(IntOp::Sub))),
    Opcode::One(OneUnit::F12x(Pair::IntOp(IntOp::Mul))),
    Opcode::One(OneUnit::F12x(Pair::IntOp(IntOp::Div))),
    Opcode::One(OneUnit::F12x(Pair::IntOp(IntOp::Rem))),
    Opcode::One(OneUnit::F12x(Pair::IntOp(IntOp::And))),
    Opcode::One(OneUnit::F12x(Pair::IntOp(IntOp::Or))),
    Opcode::One(OneUnit::F12x(Pair::IntOp(IntOp::Xor))),
    Opcode::One(OneUnit::F12x(Pair::IntOp(IntOp::Shl))),
    Opcode::One(OneUnit::F12x(Pair::IntOp(IntOp::Shr))),
    Opcode::One(OneUnit::F12x(Pair::IntOp(IntOp::Ushr))),
    // bb to c5: the same of longs
    Opcode::One(OneUnit::F12x(Pair::LongOp(IntOp::Add))),
    Opcode::One(OneUnit::F12x(Pair::LongOp(IntOp::Sub))),
    Opcode::One(OneUnit::F12x(Pair::LongOp(IntOp::Mul))),
    Opcode::One(OneUnit::F12x(Pair::LongOp(IntOp::Div))),
    Opcode::One(OneUnit::F12x(Pair::LongOp(IntOp::Rem))),
    Opcode::One(OneUnit::F12x(Pair::LongOp(IntOp::And))),
    Opcode::One(OneUnit::F12x(Pair::LongOp(IntOp::Or))),
    Opcode::One(OneUnit::F12x(Pair::LongOp(IntOp::Xor))),
    Opcode::One(OneUnit::F12x(Pair::LongOp(IntOp::Shl))),
    Opcode::One(OneUnit::F12x(Pair::LongOp(IntOp::Shr))),
    Opcode::One(OneUnit::F12x(Pair::LongOp(IntOp::Ushr))),
    // c6 to cf: of floating point
    Opcode::Float,
    Opcode::Float,
    Opcode::Float,
    Opcode::Float,
    Opcode::Float,
    Opcode::Float,
    Opcode::Float,
    Opcode::Float,
    Opcode::Float,
    Opcode::Float,
    // d0 to d7: add-int/lit16, rsub, mul, div, rem, and, or, xor
    Opcode::Two(TwoUnits::F22s {
        op: IntOp::Add,
        reversed: false,
    }),
    REVERSED_16,
    Opcode::Two(TwoUnits::F22s {
        op: IntOp::Mul,
        reversed: false,
    }),
    Opcode::Two(TwoUnits::F22s {
        op: IntOp::Div,
        reversed: false,
    }),
    Opcode::Two(TwoUnits::F22s {
        op: IntOp::Rem,
        reversed: false,
    }),
    Opcode::Two(TwoUnits::F22s {
        op: IntOp::And,
        reversed: false,
    }),
    Opcode::Two(TwoUnits::F22s {
        op: IntOp::Or,
        reversed: false,
    }),
    Opcode::Two(TwoUnits::F22s {
        op: IntOp::Xor,
        reversed: false,
    }),
    // d8 to e2: the same, /lit8, then shl, shr, ushr
    Opcode::Two(TwoUnits::F22b {
        op: IntOp::Add,
        reversed: false,
    }),
    REVERSED_8,
    Opcode::Two(TwoUnits::F22b {
        op: IntOp::Mul,
        reversed: false,
    }),
    Opcode::Two(TwoUnits::F22b {
        op: IntOp::Div,
        reversed: false,
    }),
    Opcode::Two(TwoUnits::F22b {
        op: IntOp::Rem,
        reversed: false,
    }),
    Opcode::Two(TwoUnits::F22b {
        op: IntOp::And,
        reversed: false,
    }),
    Opcode::Two(TwoUnits::F22b {
        op: IntOp::Or,
        reversed: false,
    }),
    Opcode::Two(TwoUnits::F22b {
        op: IntOp::Xor,
        reversed: false,
    }),
    Opcode::Two(TwoUnits::F22b {
        op: IntOp::Shl,
        reversed: false,
    }),
    Opcode::Two(TwoUnits::F22b {
        op: IntOp::Shr,
        reversed: false,
    }),
    Opcode::Two(TwoUnits::F22b {
        op: IntOp::Ushr,
        reversed: false,
    }),
    // e3 to ff: unused
    Opcode::Unused,
    Opcode::Unused,
    Opcode::Unused,
    Opcode::Unused,
    Opcode::Unused,
    Opcode::Unused,
    Opcode::Unused,
    Opcode::Unused,
    Opcode::Unused,
    Opcode::Unused,
    Opcode::Unused,
    Opcode::Unused,
    Opcode::Unused,
    Opcode::Unused,
    Opcode::Unused,
    Opcode::Unused,
    Opcode::Unused,
    Opcode::Unused,
    Opcode::Unused,
    Opcode::Unused,
    Opcode::Unused,
    Opcode::Unused,
    Opcode::Unused,
    Opcode::Unused,
    Opcode::Unused,
    Opcode::Unused,
    Opcode::Unused,
    Opcode::Unused,
    Opcode::Unused,
];

/// What an opcode stands for.
pub fn opcode_at(number: u8) -> Opcode
    ensures { result ≡ opcode_at number }
{
    OPCODES[usize::from(number)]
}
