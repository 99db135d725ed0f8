//! Texts as objects.

use crate::parts::{OUT, PRINT_BOOLEAN, class_of, code, function, main_of};
use crate::{AssemblyFault, Member, ProgramCode, Step, build};
use cc_builder::DexBuilder;
use cc_meaning::instruction::{How, Kind, Test};
use std::alloc::Global;

const GIVES_TEXT: &str = "()Ljava/lang/String;";

const F: Member<'static> = Member {
    class: "LA;",
    name: "f",
    ty: GIVES_TEXT,
};

/// Prints whether two texts are one object.
const COMPARES: ProgramCode<'static> = ProgramCode {
    registers: 4,
    labels: 1,
    steps: &[
        Step::Invoke(How::Static, &[], F),
        Step::Result(Kind::Object, 0),
        Step::Text(1, "a"),
        Step::Const(2, 1),
        Step::If(Test::Eq, 0, 1, 0),
        Step::Const(2, 0),
        Step::Place(0),
        Step::Static(Kind::Object, 0, OUT),
        Step::Invoke(How::Virtual, &[0, 2], PRINT_BOOLEAN),
        Step::ReturnVoid,
    ],
    tries: &[],
};

/// Prints whether the text that `f` names is the object that `main` names: `true`.
pub fn compare_texts(alloc: Global) -> Result<DexBuilder, AssemblyFault> {
    let gives_text = code(1, 0, &[Step::Text(0, "a"), Step::Return(Kind::Object, 0)]);
    let methods = [function("f", GIVES_TEXT, gives_text), main_of(COMPARES)];
    build(alloc, &[class_of("LA;", &methods)])
}
