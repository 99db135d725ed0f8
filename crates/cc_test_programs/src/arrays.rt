//! Nodes that are linked with one another and with an array.

use crate::parts::{
    MAKE_OBJECT, OBJECT, OUT, PRINT_BOOLEAN, PRINT_INT, PUBLIC, PUBLIC_CONSTRUCTOR, class_of, code,
    function, main_of,
};
use crate::{
    AssemblyFault, Member, ProgramClass, ProgramCode, ProgramField, ProgramMethod, Step, build,
};
use cc_builder::DexBuilder;
use cc_meaning::instruction::{How, Kind, Test};
use std::alloc::Global;

const NODE: &str = "LN;";

const ARRAY: &str = "[Ljava/lang/Object;";

const LINK: Member<'static> = Member {
    class: NODE,
    name: "n",
    ty: OBJECT,
};

const NUMBER: Member<'static> = Member {
    class: NODE,
    name: "v",
    ty: "I",
};

const MAKE_NODE: Member<'static> = Member {
    class: NODE,
    name: "<init>",
    ty: "()V",
};

const RELINK: Member<'static> = Member {
    class: "LM;",
    name: "f",
    ty: "(LN;)V",
};

/// The constructor of nodes.
const CONSTRUCTS: ProgramCode<'static> = ProgramCode {
    registers: 1,
    labels: 0,
    steps: &[
        Step::Invoke(How::Direct, &[0], MAKE_OBJECT),
        Step::ReturnVoid,
    ],
    tries: &[],
};

/// The class of nodes.
const NODES: ProgramClass<'static> = ProgramClass {
    name: NODE,
    flags: PUBLIC,
    interfaces: &[],
    fields: &[
        ProgramField {
            name: "n",
            ty: OBJECT,
            flags: PUBLIC,
        },
        ProgramField {
            name: "v",
            ty: "I",
            flags: PUBLIC,
        },
    ],
    methods: &[ProgramMethod {
        name: "<init>",
        proto: "()V",
        flags: PUBLIC_CONSTRUCTOR,
        code: Some(CONSTRUCTS),
    }],
};

/// Links a node with a new array that holds the node, and makes its number 2.
const RELINKS: &[Step<'static>] = &[
    Step::Const(0, 1),
    Step::NewArray(1, 0, ARRAY),
    Step::Const(0, 0),
    Step::PutElement(Kind::Object, 2, 1, 0),
    Step::PutField(Kind::Object, 1, 2, LINK),
    Step::Const(0, 2),
    Step::PutField(Kind::Plain, 0, 2, NUMBER),
    Step::ReturnVoid,
];

/// Makes three nodes, links two of them with one another, has `f` link the first anew, and prints what became of them.
const LINKS: &[Step<'static>] = &[
    Step::New(0, NODE),
    Step::Invoke(How::Direct, &[0], MAKE_NODE),
    Step::New(1, NODE),
    Step::Invoke(How::Direct, &[1], MAKE_NODE),
    Step::New(2, NODE),
    Step::Invoke(How::Direct, &[2], MAKE_NODE),
    Step::PutField(Kind::Object, 1, 0, LINK),
    Step::PutField(Kind::Object, 0, 1, LINK),
    Step::Const(3, 1),
    Step::PutField(Kind::Plain, 3, 0, NUMBER),
    Step::Const(3, 3),
    Step::PutField(Kind::Plain, 3, 2, NUMBER),
    Step::Invoke(How::Static, &[0], RELINK),
    Step::Static(Kind::Object, 4, OUT),
    Step::Field(Kind::Plain, 3, 0, NUMBER),
    Step::Invoke(How::Virtual, &[4, 3], PRINT_INT),
    Step::Field(Kind::Plain, 3, 2, NUMBER),
    Step::Invoke(How::Virtual, &[4, 3], PRINT_INT),
    Step::Field(Kind::Object, 5, 0, LINK),
    Step::Cast(5, ARRAY),
    Step::Const(3, 0),
    Step::Element(Kind::Object, 5, 5, 3),
    Step::Const(3, 1),
    Step::If(Test::Eq, 5, 0, 0),
    Step::Const(3, 0),
    Step::Place(0),
    Step::Invoke(How::Virtual, &[4, 3], PRINT_BOOLEAN),
    Step::ReturnVoid,
];

/// Prints the numbers of the first node and the third, 2 and 3, and `true`: the first element of what the first is linked with is the node.
pub fn link_nodes(alloc: Global) -> Result<DexBuilder, AssemblyFault> {
    let methods = [
        function("f", "(LN;)V", code(3, 0, RELINKS)),
        main_of(code(7, 1, LINKS)),
    ];
    build(alloc, &[NODES, class_of("LM;", &methods)])
}
