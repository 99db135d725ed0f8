//! Instructions as names and numbers, since they aren't compared.

use cc_meaning::fault::InsnFault;
use cc_meaning::instruction::{
    Conversion, How, Insn, IntOp, Kind, MethodRef, Test, TypeRef, UnaryOp,
};

/// The name of the variant, that of its kind, test or operation, its other fields in order, and how many units it takes. Of a list stand how many
/// elements it has, the first and the last. Fields that there aren't are 0, and of a fault there is only its name.
pub type Shown = (&'static str, &'static str, [i64; 4], usize);

pub fn show(found: &Result<(Insn, usize), InsnFault>) -> Shown {
    match found {
        Ok((insn, units)) => {
            let (name, of, fields) = show_insn(insn);
            (name, of, fields, *units)
        }
        Err(InsnFault::Float) => ("Float", "", [0; 4], 0),
        Err(InsnFault::Unused) => ("Unused", "", [0; 4], 0),
        Err(InsnFault::CutOff) => ("CutOff", "", [0; 4], 0),
        Err(InsnFault::BadPayload) => ("BadPayload", "", [0; 4], 0),
        Err(InsnFault::Memory) => ("Memory", "", [0; 4], 0),
    }
}

/// The arguments of an instruction that has a list of them.
pub fn args_of(insn: &Insn) -> &[u16] {
    match insn {
        Insn::FilledNewArray { named: _, args } => args.as_slice(),
        Insn::Invoke {
            how: _,
            named: _,
            args,
        } => args.as_slice(),
        _ => &[],
    }
}

type Named = (&'static str, &'static str, [i64; 4]);

fn one(a: u16) -> [i64; 4] {
    [i64::from(a), 0, 0, 0]
}

fn two(a: u16, b: u16) -> [i64; 4] {
    [i64::from(a), i64::from(b), 0, 0]
}

fn three(a: u16, b: u16, c: u16) -> [i64; 4] {
    [i64::from(a), i64::from(b), i64::from(c), 0]
}

fn with(a: u16, number: i64) -> [i64; 4] {
    [i64::from(a), number, 0, 0]
}

fn two_with(a: u16, b: u16, number: i64) -> [i64; 4] {
    [i64::from(a), i64::from(b), number, 0]
}

fn show_insn(insn: &Insn) -> Named {
    match insn {
        Insn::Nop => ("Nop", "", [0; 4]),
        Insn::Move { kind, to, from } => ("Move", of_kind(*kind), two(*to, *from)),
        Insn::MoveResult { kind, to } => ("MoveResult", of_kind(*kind), one(*to)),
        Insn::MoveException { to } => ("MoveException", "", one(*to)),
        Insn::ReturnVoid => ("ReturnVoid", "", [0; 4]),
        Insn::Return { kind, from } => ("Return", of_kind(*kind), one(*from)),
        Insn::ConstInt { to, value } => ("ConstInt", "", with(*to, i64::from(*value))),
        Insn::ConstLong { to, value } => ("ConstLong", "", with(*to, *value)),
        Insn::ConstText { to, text } => ("ConstText", "", with(*to, i64::from(*text))),
        Insn::ConstClass { to, named } => ("ConstClass", "", with(*to, of_type(*named))),
        Insn::Monitor { enter, object } => ("Monitor", of_flag(*enter), one(*object)),
        Insn::CheckCast { object, named } => ("CheckCast", "", with(*object, of_type(*named))),
        Insn::InstanceOf { to, object, named } => {
            ("InstanceOf", "", two_with(*to, *object, of_type(*named)))
        }
        Insn::ArrayLength { to, array } => ("ArrayLength", "", two(*to, *array)),
        Insn::NewInstance { to, named } => ("NewInstance", "", with(*to, of_type(*named))),
        Insn::NewArray { to, length, named } => {
            ("NewArray", "", two_with(*to, *length, of_type(*named)))
        }
        Insn::Throw { object } => ("Throw", "", one(*object)),
        _ => show_jump(insn),
    }
}

fn show_jump(insn: &Insn) -> Named {
    match insn {
        Insn::Goto { target } => ("Goto", "", [i64::from(*target), 0, 0, 0]),
        Insn::FillArray { array, target } => ("FillArray", "", with(*array, i64::from(*target))),
        Insn::Switch {
            packed,
            value,
            target,
        } => ("Switch", of_flag(*packed), with(*value, i64::from(*target))),
        Insn::If {
            test,
            left,
            right,
            target,
        } => (
            "If",
            of_test(*test),
            two_with(*left, *right, i64::from(*target)),
        ),
        Insn::IfZero {
            test,
            value,
            target,
        } => ("IfZero", of_test(*test), with(*value, i64::from(*target))),
        Insn::FilledNewArray { named, args } => {
            let (count, first, last) = ends(args.as_slice());
            ("FilledNewArray", "", [of_type(*named), count, first, last])
        }
        Insn::Invoke { how, named, args } => {
            let (count, first, last) = ends(args.as_slice());
            (
                "Invoke",
                of_how(*how),
                [of_method(*named), count, first, last],
            )
        }
        _ => show_access(insn),
    }
}

fn show_access(insn: &Insn) -> Named {
    match insn {
        Insn::ArrayGet {
            kind,
            to,
            array,
            index,
        } => ("ArrayGet", of_kind(*kind), three(*to, *array, *index)),
        Insn::ArrayPut {
            kind,
            from,
            array,
            index,
        } => ("ArrayPut", of_kind(*kind), three(*from, *array, *index)),
        Insn::FieldGet {
            kind,
            to,
            object,
            field,
        } => (
            "FieldGet",
            of_kind(*kind),
            two_with(*to, *object, i64::from(*field)),
        ),
        Insn::FieldPut {
            kind,
            from,
            object,
            field,
        } => (
            "FieldPut",
            of_kind(*kind),
            two_with(*from, *object, i64::from(*field)),
        ),
        _ => show_operation(insn),
    }
}

fn show_operation(insn: &Insn) -> Named {
    match insn {
        Insn::StaticGet { kind, to, field } => {
            ("StaticGet", of_kind(*kind), with(*to, i64::from(*field)))
        }
        Insn::StaticPut { kind, from, field } => {
            ("StaticPut", of_kind(*kind), with(*from, i64::from(*field)))
        }
        Insn::CompareLong { to, left, right } => ("CompareLong", "", three(*to, *left, *right)),
        Insn::IntUnary { op, to, from } => ("IntUnary", of_unary(*op), two(*to, *from)),
        Insn::LongUnary { op, to, from } => ("LongUnary", of_unary(*op), two(*to, *from)),
        Insn::Convert { op, to, from } => ("Convert", of_conversion(*op), two(*to, *from)),
        Insn::IntOp {
            op,
            to,
            left,
            right,
        } => ("IntOp", of_op(*op), three(*to, *left, *right)),
        Insn::LongOp {
            op,
            to,
            left,
            right,
        } => ("LongOp", of_op(*op), three(*to, *left, *right)),
        _ => show_literal(insn),
    }
}

fn show_literal(insn: &Insn) -> Named {
    match insn {
        Insn::IntLit {
            op,
            reversed: false,
            to,
            left,
            literal,
        } => (
            "IntLit",
            of_op(*op),
            two_with(*to, *left, i64::from(*literal)),
        ),
        Insn::IntLit {
            op,
            reversed: true,
            to,
            left,
            literal,
        } => (
            "IntLitReversed",
            of_op(*op),
            two_with(*to, *left, i64::from(*literal)),
        ),
        _ => show_payload(insn),
    }
}

fn show_payload(insn: &Insn) -> Named {
    match insn {
        Insn::PackedPayload { first, targets } => {
            let (count, target, last) = int_ends(targets.as_slice());
            (
                "PackedPayload",
                "",
                [i64::from(*first), count, target, last],
            )
        }
        Insn::SparsePayload { keys, targets } => {
            let (count, key, _) = int_ends(keys.as_slice());
            let (_, _, last) = int_ends(targets.as_slice());
            ("SparsePayload", "", [count, key, last, 0])
        }
        Insn::ArrayPayload { width, bytes } => {
            let (count, first, last) = byte_ends(bytes.as_slice());
            ("ArrayPayload", "", [i64::from(*width), count, first, last])
        }
        _ => ("another", "", [0; 4]),
    }
}

/// How many there are, the first and the last.
fn ends(list: &[u16]) -> (i64, i64, i64) {
    match (list.first(), list.last()) {
        (Some(first), Some(last)) => (count(list.len()), i64::from(*first), i64::from(*last)),
        _ => (0, 0, 0),
    }
}

fn int_ends(list: &[i32]) -> (i64, i64, i64) {
    match (list.first(), list.last()) {
        (Some(first), Some(last)) => (count(list.len()), i64::from(*first), i64::from(*last)),
        _ => (0, 0, 0),
    }
}

fn byte_ends(list: &[u8]) -> (i64, i64, i64) {
    match (list.first(), list.last()) {
        (Some(first), Some(last)) => (count(list.len()), i64::from(*first), i64::from(*last)),
        _ => (0, 0, 0),
    }
}

/// A length as a signed number; -1 stands for one that is too great.
fn count(length: usize) -> i64 {
    if length < 1_000_000 {
        length as i64
    } else {
        -1
    }
}

fn of_flag(flag: bool) -> &'static str {
    if flag { "true" } else { "false" }
}

fn of_kind(kind: Kind) -> &'static str {
    match kind {
        Kind::Plain => "Plain",
        Kind::Wide => "Wide",
        Kind::Object => "Object",
        Kind::Boolean => "Boolean",
        Kind::Byte => "Byte",
        Kind::Char => "Char",
        Kind::Short => "Short",
    }
}

fn of_test(test: Test) -> &'static str {
    match test {
        Test::Eq => "Eq",
        Test::Ne => "Ne",
        Test::Lt => "Lt",
        Test::Ge => "Ge",
        Test::Gt => "Gt",
        Test::Le => "Le",
    }
}

fn of_how(how: How) -> &'static str {
    match how {
        How::Virtual => "Virtual",
        How::Super => "Super",
        How::Direct => "Direct",
        How::Static => "Static",
        How::Interface => "Interface",
    }
}

fn of_op(op: IntOp) -> &'static str {
    match op {
        IntOp::Add => "Add",
        IntOp::Sub => "Sub",
        IntOp::Mul => "Mul",
        IntOp::Div => "Div",
        IntOp::Rem => "Rem",
        IntOp::And => "And",
        IntOp::Or => "Or",
        IntOp::Xor => "Xor",
        IntOp::Shl => "Shl",
        IntOp::Shr => "Shr",
        IntOp::Ushr => "Ushr",
    }
}

fn of_unary(op: UnaryOp) -> &'static str {
    match op {
        UnaryOp::Negate => "Negate",
        UnaryOp::Not => "Not",
    }
}

fn of_conversion(op: Conversion) -> &'static str {
    match op {
        Conversion::IntToLong => "IntToLong",
        Conversion::LongToInt => "LongToInt",
        Conversion::IntToByte => "IntToByte",
        Conversion::IntToChar => "IntToChar",
        Conversion::IntToShort => "IntToShort",
    }
}

/// The row of a type; -1 stands for one that is known.
fn of_type(named: TypeRef) -> i64 {
    match named {
        TypeRef::Row(row) => i64::from(row),
        TypeRef::Known(_) => -1,
    }
}

/// The row of a method; -1 stands for one that is known.
fn of_method(named: MethodRef) -> i64 {
    match named {
        MethodRef::Row(row) => i64::from(row),
        MethodRef::Known {
            class: _,
            method: _,
        } => -1,
    }
}
