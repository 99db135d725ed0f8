//! A shape that is measured through an interface, a native method and a class with an initialiser.

use crate::parts::{
    MAKE_OBJECT, OUT, PRINT_TEXT, PUBLIC, PUBLIC_ABSTRACT, PUBLIC_CONSTRUCTOR, PUBLIC_INTERFACE,
    PUBLIC_STATIC, PUBLIC_STATIC_NATIVE, STATIC_CONSTRUCTOR, class_of, code, function, main_of,
};
use crate::{
    AssemblyFault, Member, ProgramClass, ProgramCode, ProgramField, ProgramMethod, Step, build,
};
use cc_builder::DexBuilder;
use cc_meaning::instruction::{How, IntOp, Kind};
use std::alloc::Global;

const SQUARE: &str = "LSq;";

const TEXTS: &str = "Ljava/lang/StringBuilder;";

const SIDE: Member<'static> = Member {
    class: SQUARE,
    name: "s",
    ty: "I",
};

const FACTOR: Member<'static> = Member {
    class: "LCfg;",
    name: "k",
    ty: "I",
};

const AREA: Member<'static> = Member {
    class: "LShape;",
    name: "area",
    ty: "()I",
};

const SCAN: Member<'static> = Member {
    class: "LDet;",
    name: "scan",
    ty: "(I)I",
};

const MAKE_SQUARE: Member<'static> = Member {
    class: SQUARE,
    name: "<init>",
    ty: "(I)V",
};

const WORK: Member<'static> = Member {
    class: "LK;",
    name: "work",
    ty: "(LShape;)I",
};

const MAKE_TEXTS: Member<'static> = Member {
    class: TEXTS,
    name: "<init>",
    ty: "()V",
};

const APPEND_TEXT: Member<'static> = Member {
    class: TEXTS,
    name: "append",
    ty: "(Ljava/lang/String;)Ljava/lang/StringBuilder;",
};

const APPEND_INT: Member<'static> = Member {
    class: TEXTS,
    name: "append",
    ty: "(I)Ljava/lang/StringBuilder;",
};

const TO_TEXT: Member<'static> = Member {
    class: TEXTS,
    name: "toString",
    ty: "()Ljava/lang/String;",
};

/// Shapes have an area.
const SHAPES: ProgramClass<'static> = ProgramClass {
    name: "LShape;",
    flags: PUBLIC_INTERFACE,
    interfaces: &[],
    fields: &[],
    methods: &[ProgramMethod {
        name: "area",
        proto: "()I",
        flags: PUBLIC_ABSTRACT,
        code: None,
    }],
};

/// A square keeps its side.
const CONSTRUCTS: ProgramCode<'static> = ProgramCode {
    registers: 2,
    labels: 0,
    steps: &[
        Step::Invoke(How::Direct, &[0], MAKE_OBJECT),
        Step::PutField(Kind::Plain, 1, 0, SIDE),
        Step::ReturnVoid,
    ],
    tries: &[],
};

/// Its area is the side times itself.
const SQUARES_SIDE: ProgramCode<'static> = ProgramCode {
    registers: 2,
    labels: 0,
    steps: &[
        Step::Field(Kind::Plain, 0, 1, SIDE),
        Step::Op(IntOp::Mul, 0, 0),
        Step::Return(Kind::Plain, 0),
    ],
    tries: &[],
};

const SQUARES: ProgramClass<'static> = ProgramClass {
    name: SQUARE,
    flags: PUBLIC,
    interfaces: &["LShape;"],
    fields: &[ProgramField {
        name: "s",
        ty: "I",
        flags: PUBLIC,
    }],
    methods: &[
        ProgramMethod {
            name: "<init>",
            proto: "(I)V",
            flags: PUBLIC_CONSTRUCTOR,
            code: Some(CONSTRUCTS),
        },
        ProgramMethod {
            name: "area",
            proto: "()I",
            flags: PUBLIC,
            code: Some(SQUARES_SIDE),
        },
    ],
};

/// The settings, and their initialiser.
const SETS: ProgramCode<'static> = ProgramCode {
    registers: 1,
    labels: 0,
    steps: &[
        Step::Const(0, 10),
        Step::PutStatic(Kind::Plain, 0, FACTOR),
        Step::ReturnVoid,
    ],
    tries: &[],
};

const SETTINGS: ProgramClass<'static> = ProgramClass {
    name: "LCfg;",
    flags: PUBLIC,
    interfaces: &[],
    fields: &[ProgramField {
        name: "k",
        ty: "I",
        flags: PUBLIC_STATIC,
    }],
    methods: &[ProgramMethod {
        name: "<clinit>",
        proto: "()V",
        flags: STATIC_CONSTRUCTOR,
        code: Some(SETS),
    }],
};

const SCANS: &[ProgramMethod<'static>] = &[ProgramMethod {
    name: "scan",
    proto: "(I)I",
    flags: PUBLIC_STATIC_NATIVE,
    code: None,
}];

/// Scans the area of a shape, and multiplies what it finds by the setting.
const WORKS: &[Step<'static>] = &[
    Step::Invoke(How::Interface, &[2], AREA),
    Step::Result(Kind::Plain, 0),
    Step::Invoke(How::Static, &[0], SCAN),
    Step::Result(Kind::Plain, 0),
    Step::Static(Kind::Plain, 1, FACTOR),
    Step::Op(IntOp::Mul, 0, 1),
    Step::Return(Kind::Plain, 0),
];

/// Works on a square of side 7, and prints what comes of it.
const PRINTS: &[Step<'static>] = &[
    Step::New(0, SQUARE),
    Step::Const(1, 7),
    Step::Invoke(How::Direct, &[0, 1], MAKE_SQUARE),
    Step::Invoke(How::Static, &[0], WORK),
    Step::Result(Kind::Plain, 1),
    Step::New(0, TEXTS),
    Step::Invoke(How::Direct, &[0], MAKE_TEXTS),
    Step::Text(2, "r="),
    Step::Invoke(How::Virtual, &[0, 2], APPEND_TEXT),
    Step::Invoke(How::Virtual, &[0, 1], APPEND_INT),
    Step::Invoke(How::Virtual, &[0], TO_TEXT),
    Step::Result(Kind::Object, 0),
    Step::Static(Kind::Object, 1, OUT),
    Step::Invoke(How::Virtual, &[1, 0], PRINT_TEXT),
    Step::ReturnVoid,
];

/// Prints `r=30`, where a script answers 3 for the area 49.
pub fn measure_square(alloc: Global) -> Result<DexBuilder, AssemblyFault> {
    let methods = [
        function("work", "(LShape;)I", code(3, 0, WORKS)),
        main_of(code(4, 0, PRINTS)),
    ];
    let classes = [
        SHAPES,
        SQUARES,
        SETTINGS,
        class_of("LDet;", SCANS),
        class_of("LK;", &methods),
    ];
    build(alloc, &classes)
}
