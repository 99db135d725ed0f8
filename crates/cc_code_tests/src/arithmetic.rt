//! Operations on ints and longs, against numbers of another program.

use cc_insn::{
    compare_long, int_op, int_to_byte, int_to_char, int_to_long, int_to_short, int_unary, long_op,
    long_to_int, long_unary,
};
use cc_meaning::instruction::{IntOp, UnaryOp};

/// An operation, two ints and what it comes to.
const INTS: [(IntOp, i32, i32, Option<i32>); 50] = [
    (IntOp::Add, 2147483647, 1, Some(-2147483648)),
    (IntOp::Add, -2147483648, -1, Some(2147483647)),
    (IntOp::Add, -1743198191, 355571805, Some(-1387626386)),
    (IntOp::Add, -1225361972, -1778343078, Some(1291262246)),
    (IntOp::Sub, -2147483648, 1, Some(2147483647)),
    (IntOp::Sub, 0, -2147483648, Some(-2147483648)),
    (IntOp::Sub, -351447909, -1113843932, Some(762396023)),
    (IntOp::Sub, 219246286, 281121487, Some(-61875201)),
    (IntOp::Mul, -2147483648, -1, Some(-2147483648)),
    (IntOp::Mul, 2147483647, 2147483647, Some(1)),
    (IntOp::Mul, 65536, 65536, Some(0)),
    (IntOp::Mul, 1921781853, 367397621, Some(1832733441)),
    (IntOp::Mul, -1197944432, -1575502163, Some(515800656)),
    (IntOp::Div, -2147483648, -1, Some(-2147483648)),
    (IntOp::Div, 7, 0, None),
    (IntOp::Div, -7, 2, Some(-3)),
    (IntOp::Div, 7, -2, Some(-3)),
    (IntOp::Div, -2147483648, -2147483648, Some(1)),
    (IntOp::Div, -347295166, 174744556, Some(-1)),
    (IntOp::Div, 304571992, 781695636, Some(0)),
    (IntOp::Rem, -2147483648, -1, Some(0)),
    (IntOp::Rem, 7, 0, None),
    (IntOp::Rem, -7, 2, Some(-1)),
    (IntOp::Rem, 7, -2, Some(1)),
    (IntOp::Rem, -7, -2, Some(-1)),
    (IntOp::Rem, -1340583739, 911008802, Some(-429574937)),
    (IntOp::Rem, 276459715, 511142321, Some(276459715)),
    (IntOp::And, 136237410, 1190688536, Some(1593600)),
    (IntOp::And, 1818666887, -594499240, Some(1275109632)),
    (IntOp::Or, 1201859104, -219755462, Some(-135860678)),
    (IntOp::Or, -1833088306, 51251132, Some(-1816178690)),
    (IntOp::Xor, -678365138, 1860881378, Some(-1183173684)),
    (IntOp::Xor, -336302999, 1367317194, Some(-1165232477)),
    (IntOp::Shl, 1, 33, Some(2)),
    (IntOp::Shl, 1, 31, Some(-2147483648)),
    (IntOp::Shl, 3, -1, Some(-2147483648)),
    (IntOp::Shl, 1275141341, -988103295, Some(-1744684614)),
    (IntOp::Shl, -1868310862, -233471120, Some(-692977664)),
    (IntOp::Shr, -7, 1, Some(-4)),
    (IntOp::Shr, -2147483648, 31, Some(-1)),
    (IntOp::Shr, -1, 32, Some(-1)),
    (IntOp::Shr, -8, -63, Some(-4)),
    (IntOp::Shr, 930409298, -657107395, Some(1)),
    (IntOp::Shr, 1892571189, -620776919, Some(3696428)),
    (IntOp::Ushr, -1, 1, Some(2147483647)),
    (IntOp::Ushr, -1, 0, Some(-1)),
    (IntOp::Ushr, -2147483648, 31, Some(1)),
    (IntOp::Ushr, -1, 36, Some(268435455)),
    (IntOp::Ushr, 476395832, -27088374, Some(465230)),
    (IntOp::Ushr, -912972903, 1023762918, Some(52843662)),
];

/// An operation, two longs and what it comes to.
const LONGS: [(IntOp, i64, i64, Option<i64>); 50] = [
    (
        IntOp::Add,
        9223372036854775807,
        1,
        Some(-9223372036854775808),
    ),
    (
        IntOp::Add,
        -9223372036854775808,
        -1,
        Some(9223372036854775807),
    ),
    (
        IntOp::Add,
        -64439916039929168,
        -937327056304800998,
        Some(-1001766972344730166),
    ),
    (
        IntOp::Add,
        5889673505243240318,
        926387336645580297,
        Some(6816060841888820615),
    ),
    (
        IntOp::Sub,
        -9223372036854775808,
        1,
        Some(9223372036854775807),
    ),
    (
        IntOp::Sub,
        0,
        -9223372036854775808,
        Some(-9223372036854775808),
    ),
    (
        IntOp::Sub,
        8443650468548483529,
        -7692574593023557443,
        Some(-2310519012137510644),
    ),
    (
        IntOp::Sub,
        -9000847795971954198,
        1644038575953710126,
        Some(7801857701783887292),
    ),
    (
        IntOp::Mul,
        -9223372036854775808,
        -1,
        Some(-9223372036854775808),
    ),
    (
        IntOp::Mul,
        9223372036854775807,
        9223372036854775807,
        Some(1),
    ),
    (IntOp::Mul, 4294967296, 4294967296, Some(0)),
    (
        IntOp::Mul,
        -4022668034752422715,
        8358181456611150069,
        Some(-159988946220060535),
    ),
    (
        IntOp::Mul,
        4423247874567664347,
        -1880283478743649885,
        Some(-1061286488615924623),
    ),
    (
        IntOp::Div,
        -9223372036854775808,
        -1,
        Some(-9223372036854775808),
    ),
    (IntOp::Div, 7, 0, None),
    (IntOp::Div, -7, 2, Some(-3)),
    (IntOp::Div, 7, -2, Some(-3)),
    (
        IntOp::Div,
        -9223372036854775808,
        -9223372036854775808,
        Some(1),
    ),
    (
        IntOp::Div,
        -7313449779992392531,
        -1836509295577871093,
        Some(3),
    ),
    (
        IntOp::Div,
        -1095240913263689462,
        -7334801799054518179,
        Some(0),
    ),
    (IntOp::Rem, -9223372036854775808, -1, Some(0)),
    (IntOp::Rem, 7, 0, None),
    (IntOp::Rem, -7, 2, Some(-1)),
    (IntOp::Rem, 7, -2, Some(1)),
    (IntOp::Rem, -7, -2, Some(-1)),
    (
        IntOp::Rem,
        8281642823476416924,
        -8752963602230680928,
        Some(8281642823476416924),
    ),
    (
        IntOp::Rem,
        8401902144635270878,
        -2505742295095117809,
        Some(884675259349917451),
    ),
    (
        IntOp::And,
        -361646517883562537,
        -7639079554889970242,
        Some(-8000635906375481962),
    ),
    (
        IntOp::And,
        4605670955822938035,
        -4339469364529485723,
        Some(270780096229449761),
    ),
    (
        IntOp::Or,
        3542822138374249915,
        -8797331125917810750,
        Some(-5337968459249614853),
    ),
    (
        IntOp::Or,
        7639641275860080907,
        518527646805895210,
        Some(8014014145695185195),
    ),
    (
        IntOp::Xor,
        339362169090503176,
        -6141990395463884332,
        Some(-5875248772529007652),
    ),
    (
        IntOp::Xor,
        2516909372981177538,
        5646153365230786311,
        Some(7833713787727379397),
    ),
    (IntOp::Shl, 1, 65, Some(2)),
    (IntOp::Shl, 1, 63, Some(-9223372036854775808)),
    (IntOp::Shl, 3, -1, Some(-9223372036854775808)),
    (
        IntOp::Shl,
        -5040766695390132483,
        -133151500145526600,
        Some(-216172782113783808),
    ),
    (
        IntOp::Shl,
        5351661218101125724,
        -4442448834464532083,
        Some(-7101964523182260224),
    ),
    (IntOp::Shr, -7, 1, Some(-4)),
    (IntOp::Shr, -9223372036854775808, 63, Some(-1)),
    (IntOp::Shr, -1, 64, Some(-1)),
    (IntOp::Shr, -8, -63, Some(-4)),
    (
        IntOp::Shr,
        -7737705760559675643,
        -5038805070873429879,
        Some(-15112706563593117),
    ),
    (
        IntOp::Shr,
        -2993215153583204899,
        -5546578070581201774,
        Some(-11418209661802),
    ),
    (IntOp::Ushr, -1, 1, Some(9223372036854775807)),
    (IntOp::Ushr, -1, 0, Some(-1)),
    (IntOp::Ushr, -9223372036854775808, 63, Some(1)),
    (IntOp::Ushr, -1, 68, Some(1152921504606846975)),
    (
        IntOp::Ushr,
        -5930227509758641730,
        2505846673071458207,
        Some(5828457215),
    ),
    (
        IntOp::Ushr,
        4091944101602035761,
        -8715185419877771724,
        Some(908),
    ),
];

/// An operation, an int and what it comes to.
const ONE_INT: [(UnaryOp, i32, i32); 12] = [
    (UnaryOp::Negate, 0, 0),
    (UnaryOp::Not, 0, -1),
    (UnaryOp::Negate, 1, -1),
    (UnaryOp::Not, 1, -2),
    (UnaryOp::Negate, -1, 1),
    (UnaryOp::Not, -1, 0),
    (UnaryOp::Negate, -2147483648, -2147483648),
    (UnaryOp::Not, -2147483648, 2147483647),
    (UnaryOp::Negate, 2147483647, -2147483647),
    (UnaryOp::Not, 2147483647, -2147483648),
    (UnaryOp::Negate, 669405851, -669405851),
    (UnaryOp::Not, 669405851, -669405852),
];

/// An operation, a long and what it comes to.
const ONE_LONG: [(UnaryOp, i64, i64); 12] = [
    (UnaryOp::Negate, 0, 0),
    (UnaryOp::Not, 0, -1),
    (UnaryOp::Negate, 1, -1),
    (UnaryOp::Not, 1, -2),
    (UnaryOp::Negate, -1, 1),
    (UnaryOp::Not, -1, 0),
    (UnaryOp::Negate, -9223372036854775808, -9223372036854775808),
    (UnaryOp::Not, -9223372036854775808, 9223372036854775807),
    (UnaryOp::Negate, 9223372036854775807, -9223372036854775807),
    (UnaryOp::Not, 9223372036854775807, -9223372036854775808),
    (UnaryOp::Negate, -2759494278672687382, 2759494278672687382),
    (UnaryOp::Not, -2759494278672687382, 2759494278672687381),
];

/// Two longs, and how they compare.
const COMPARED: [(i64, i64, i32); 8] = [
    (0, 0, 0),
    (1, 0, 1),
    (0, 1, -1),
    (-1, 0, -1),
    (0, -1, 1),
    (-9223372036854775808, 9223372036854775807, -1),
    (9223372036854775807, -9223372036854775808, 1),
    (-9223372036854775808, -9223372036854775808, 0),
];

/// An int, and the byte, the char and the short of it.
const NARROWED: [(i32, i32, i32, i32); 15] = [
    (0, 0, 0, 0),
    (127, 127, 127, 127),
    (128, -128, 128, 128),
    (255, -1, 255, 255),
    (256, 0, 256, 256),
    (-1, -1, 65535, -1),
    (-129, 127, 65407, -129),
    (32767, -1, 32767, 32767),
    (32768, 0, 32768, -32768),
    (65535, -1, 65535, -1),
    (65536, 0, 0, 0),
    (-32769, -1, 32767, 32767),
    (2147483647, -1, 65535, -1),
    (-2147483648, 0, 0, 0),
    (-1499591369, 55, 3383, 3383),
];

/// A long, and the int of it.
const CUT: [(i64, i32); 9] = [
    (0, 0),
    (-1, -1),
    (2147483648, -2147483648),
    (4294967296, 0),
    (4294967295, -1),
    (-2147483649, 2147483647),
    (9223372036854775807, -1),
    (-9223372036854775808, 0),
    (-8332644676416592816, -1499225008),
];

#[test]
fn reckons_on_ints(rt: HostRuntime) {
    for (op, a, b, want) in INTS.iter() {
        assert_eq!(rt; int_op(*op, *a, *b).ok(), *want, "of {a} and {b}");
    }
}

#[test]
fn reckons_on_longs(rt: HostRuntime) {
    for (op, a, b, want) in LONGS.iter() {
        assert_eq!(rt; long_op(*op, *a, *b).ok(), *want, "of {a} and {b}");
    }
}

#[test]
fn reckons_on_one_int(rt: HostRuntime) {
    for (op, a, want) in ONE_INT.iter() {
        assert_eq!(rt; int_unary(*op, *a), *want, "of {a}");
    }
}

#[test]
fn reckons_on_one_long(rt: HostRuntime) {
    for (op, a, want) in ONE_LONG.iter() {
        assert_eq!(rt; long_unary(*op, *a), *want, "of {a}");
    }
}

#[test]
fn compares_longs(rt: HostRuntime) {
    for (a, b, want) in COMPARED.iter() {
        assert_eq!(rt; compare_long(*a, *b), *want, "of {a} and {b}");
    }
}

#[test]
fn narrows_ints(rt: HostRuntime) {
    for (a, byte, char, short) in NARROWED.iter() {
        assert_eq!(rt; int_to_byte(*a), *byte, "of {a}");
        assert_eq!(rt; int_to_char(*a), *char, "of {a}");
        assert_eq!(rt; int_to_short(*a), *short, "of {a}");
        assert_eq!(rt; int_to_long(*a), i64::from(*a), "of {a}");
    }
}

#[test]
fn narrows_longs(rt: HostRuntime) {
    for (a, want) in CUT.iter() {
        assert_eq!(rt; long_to_int(*a), *want, "of {a}");
    }
}
