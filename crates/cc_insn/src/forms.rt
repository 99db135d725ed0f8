//! The instruction that units give, format by format; `high` is the high byte of the first one.
//! Source: Dalvik executable instruction formats, section The formats.

ghost use Rattle.std.specs.Prelude.{◌≡◌, ◌<◌, ◌+◌, ◌*◌, ◌^◌};
ghost use Rattle.std.specs.Int.{w64, cast_signed};
ghost use Rattle.cc_meaning_insn.specs.Forms.{signed_half, two_units_of, int_of, of_bare, of_single, of_pair, of_triple, of_constant, of_high, of_named, of_pair_named, of_distant, one_unit, two_units, three_units};

use cc_meaning::instruction::{Insn, IntOp, TypeRef};
use cc_meaning_insn::{
    Bare, Constant, Distant, Named, OneUnit, Pair, PairNamed, Single, ThreeUnits, Triple, TwoUnits,
};

/// An instruction of one unit.
#[tactic(auto, unfolding(cc_meaning_insn::specs::Forms::one_unit))]
pub fn one_unit(form: OneUnit, high: u8) -> Insn
    ensures { result ≡ one_unit form high }
{
    let a = u16::from(high % 16);
    let b = high / 16;
    match form {
        OneUnit::F10x(form) => of_bare(form),
        OneUnit::F12x(form) => of_pair(form, a, u16::from(b)),
        OneUnit::F11n => Insn::ConstInt {
            to: a,
            value: signed_half(b),
        },
        OneUnit::F11x(form) => of_single(form, u16::from(high)),
        OneUnit::F10t => Insn::Goto {
            target: i32::from(high.cast_signed()),
        },
    }
}

/// Four bits, of which the highest is the sign.
fn signed_half(half: u8) -> i32
    requires { half < 16 }
    ensures { result ≡ signed_half half }
{
    if half < 8 {
        i32::from(half)
    } else {
        i32::from(half) - 16
    }
}

/// An instruction of two units.
#[tactic(auto, unfolding(cc_meaning_insn::specs::Forms::two_units))]
pub fn two_units(form: TwoUnits, high: u8, second: u16) -> Insn
    ensures { result ≡ two_units form high second }
{
    let a = u16::from(high);
    let low = u16::from(high % 16);
    let top = u16::from(high / 16);
    let signed = i32::from(second.cast_signed());
    match form {
        TwoUnits::F20t => Insn::Goto { target: signed },
        TwoUnits::F22x(kind) => Insn::Move {
            kind,
            to: a,
            from: second,
        },
        TwoUnits::F21t(test) => Insn::IfZero {
            test,
            value: a,
            target: signed,
        },
        TwoUnits::F21s(form) => of_constant(form, a, signed),
        TwoUnits::F21h(form) => of_high(form, a, second),
        TwoUnits::F21c(form) => of_named(form, a, u32::from(second)),
        TwoUnits::F23x(form) => of_triple(form, a, second % 256, second / 256),
        TwoUnits::F22b { op, reversed } => {
            let literal = i32::from(((second / 256) as u8).cast_signed());
            of_literal(op, reversed, a, second % 256, literal)
        }
        TwoUnits::F22t(test) => Insn::If {
            test,
            left: low,
            right: top,
            target: signed,
        },
        TwoUnits::F22s { op, reversed } => of_literal(op, reversed, low, top, signed),
        TwoUnits::F22c(form) => of_pair_named(form, low, top, u32::from(second)),
    }
}

/// An instruction of three units without a list of arguments.
#[tactic(auto, unfolding(cc_meaning_insn::specs::Forms::three_units))]
pub fn three_units(form: ThreeUnits, high: u8, second: u16, third: u16) -> Insn
    ensures { result ≡ three_units form high second third }
{
    let a = u16::from(high);
    let number = joined(second, third);
    match form {
        ThreeUnits::F30t => Insn::Goto {
            target: number.cast_signed(),
        },
        ThreeUnits::F32x(kind) => Insn::Move {
            kind,
            to: second,
            from: third,
        },
        ThreeUnits::F31i(form) => of_constant(form, a, number.cast_signed()),
        ThreeUnits::F31t(form) => of_distant(form, a, number.cast_signed()),
        ThreeUnits::F31c => Insn::ConstText {
            to: a,
            text: number,
        },
    }
}

/// Two units as one number, the lowest first.
pub fn joined(low: u16, high: u16) -> u32
    ensures { result ≡ two_units_of low high }
{
    u32::from(low) + 65536 * u32::from(high)
}

/// Two units as a signed number, the lowest first.
pub fn int_of(low: u16, high: u16) -> i32
    ensures { result ≡ int_of low high }
{
    joined(low, high).cast_signed()
}

/// Two numbers as a signed one, the lowest first.
pub fn long_of(low: u32, high: u32) -> i64
    ensures { result ≡ cast_signed w64 (low + 2 ^ 32 * high) }
{
    (u64::from(low) + (u64::from(high) << 32)).cast_signed()
}

fn of_bare(form: Bare) -> Insn
    ensures { result ≡ of_bare form }
{
    match form {
        Bare::Nop => Insn::Nop,
        Bare::ReturnVoid => Insn::ReturnVoid,
    }
}

fn of_single(form: Single, a: u16) -> Insn
    ensures { result ≡ of_single form a }
{
    match form {
        Single::MoveResult(kind) => Insn::MoveResult { kind, to: a },
        Single::MoveException => Insn::MoveException { to: a },
        Single::Return(kind) => Insn::Return { kind, from: a },
        Single::MonitorEnter => Insn::Monitor {
            enter: true,
            object: a,
        },
        Single::MonitorExit => Insn::Monitor {
            enter: false,
            object: a,
        },
        Single::Throw => Insn::Throw { object: a },
    }
}

fn of_pair(form: Pair, a: u16, b: u16) -> Insn
    ensures { result ≡ of_pair form a b }
{
    match form {
        Pair::Move(kind) => Insn::Move {
            kind,
            to: a,
            from: b,
        },
        Pair::ArrayLength => Insn::ArrayLength { to: a, array: b },
        Pair::IntUnary(op) => Insn::IntUnary { op, to: a, from: b },
        Pair::LongUnary(op) => Insn::LongUnary { op, to: a, from: b },
        Pair::Convert(op) => Insn::Convert { op, to: a, from: b },
        Pair::IntOp(op) => Insn::IntOp {
            op,
            to: a,
            left: a,
            right: b,
        },
        Pair::LongOp(op) => Insn::LongOp {
            op,
            to: a,
            left: a,
            right: b,
        },
    }
}

fn of_triple(form: Triple, a: u16, b: u16, c: u16) -> Insn
    ensures { result ≡ of_triple form a b c }
{
    match form {
        Triple::CompareLong => Insn::CompareLong {
            to: a,
            left: b,
            right: c,
        },
        Triple::ArrayGet(kind) => Insn::ArrayGet {
            kind,
            to: a,
            array: b,
            index: c,
        },
        Triple::ArrayPut(kind) => Insn::ArrayPut {
            kind,
            from: a,
            array: b,
            index: c,
        },
        Triple::IntOp(op) => Insn::IntOp {
            op,
            to: a,
            left: b,
            right: c,
        },
        Triple::LongOp(op) => Insn::LongOp {
            op,
            to: a,
            left: b,
            right: c,
        },
    }
}

fn of_literal(op: IntOp, reversed: bool, to: u16, left: u16, literal: i32) -> Insn
    ensures { result ≡ Insn.IntLit op reversed to left literal }
{
    Insn::IntLit {
        op,
        reversed,
        to,
        left,
        literal,
    }
}

fn of_constant(form: Constant, a: u16, value: i32) -> Insn
    ensures { result ≡ of_constant form a value }
{
    match form {
        Constant::Int => Insn::ConstInt { to: a, value },
        Constant::Long => Insn::ConstLong {
            to: a,
            value: i64::from(value),
        },
    }
}

fn of_high(form: Constant, a: u16, b: u16) -> Insn
    ensures { result ≡ of_high form a b }
{
    match form {
        Constant::Int => Insn::ConstInt {
            to: a,
            value: (u32::from(b) << 16).cast_signed(),
        },
        Constant::Long => Insn::ConstLong {
            to: a,
            value: (u64::from(b) << 48).cast_signed(),
        },
    }
}

fn of_named(form: Named, a: u16, row: u32) -> Insn
    ensures { result ≡ of_named form a row }
{
    let named = TypeRef::Row(row);
    match form {
        Named::ConstText => Insn::ConstText { to: a, text: row },
        Named::ConstClass => Insn::ConstClass { to: a, named },
        Named::CheckCast => Insn::CheckCast { object: a, named },
        Named::NewInstance => Insn::NewInstance { to: a, named },
        Named::StaticGet(kind) => Insn::StaticGet {
            kind,
            to: a,
            field: row,
        },
        Named::StaticPut(kind) => Insn::StaticPut {
            kind,
            from: a,
            field: row,
        },
    }
}

fn of_pair_named(form: PairNamed, a: u16, b: u16, row: u32) -> Insn
    ensures { result ≡ of_pair_named form a b row }
{
    let named = TypeRef::Row(row);
    match form {
        PairNamed::InstanceOf => Insn::InstanceOf {
            to: a,
            object: b,
            named,
        },
        PairNamed::NewArray => Insn::NewArray {
            to: a,
            length: b,
            named,
        },
        PairNamed::FieldGet(kind) => Insn::FieldGet {
            kind,
            to: a,
            object: b,
            field: row,
        },
        PairNamed::FieldPut(kind) => Insn::FieldPut {
            kind,
            from: a,
            object: b,
            field: row,
        },
    }
}

fn of_distant(form: Distant, a: u16, target: i32) -> Insn
    ensures { result ≡ of_distant form a target }
{
    match form {
        Distant::FillArray => Insn::FillArray { array: a, target },
        Distant::PackedSwitch => Insn::Switch {
            packed: true,
            value: a,
            target,
        },
        Distant::SparseSwitch => Insn::Switch {
            packed: false,
            value: a,
            target,
        },
    }
}
