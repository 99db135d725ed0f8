//! What the listings share.

use crate::{Member, ProgramClass, ProgramCode, ProgramMethod, Step};

/// Access flags (Dalvik Executable format, section access_flags Definitions).
pub const PUBLIC: u32 = 0x1;

pub const PUBLIC_STATIC: u32 = 0x9;

pub const PUBLIC_STATIC_NATIVE: u32 = 0x109;

pub const PUBLIC_ABSTRACT: u32 = 0x401;

pub const PUBLIC_INTERFACE: u32 = 0x601;

pub const PUBLIC_CONSTRUCTOR: u32 = 0x10001;

pub const STATIC_CONSTRUCTOR: u32 = 0x10008;

pub const OBJECT: &str = "Ljava/lang/Object;";

/// `System.out`.
pub const OUT: Member<'static> = Member {
    class: "Ljava/lang/System;",
    name: "out",
    ty: "Ljava/io/PrintStream;",
};

/// Prints an int.
pub const PRINT_INT: Member<'static> = Member {
    class: "Ljava/io/PrintStream;",
    name: "println",
    ty: "(I)V",
};

/// Prints a boolean.
pub const PRINT_BOOLEAN: Member<'static> = Member {
    class: "Ljava/io/PrintStream;",
    name: "println",
    ty: "(Z)V",
};

/// Prints a text.
pub const PRINT_TEXT: Member<'static> = Member {
    class: "Ljava/io/PrintStream;",
    name: "println",
    ty: "(Ljava/lang/String;)V",
};

/// The constructor of `Object`.
pub const MAKE_OBJECT: Member<'static> = Member {
    class: OBJECT,
    name: "<init>",
    ty: "()V",
};

/// Code without tries.
pub const fn code<'a>(registers: u16, labels: usize, steps: &'a [Step<'a>]) -> ProgramCode<'a> {
    ProgramCode {
        registers,
        labels,
        steps,
        tries: &[],
    }
}

/// A public static method.
pub const fn function<'a>(
    name: &'a str,
    proto: &'a str,
    code: ProgramCode<'a>,
) -> ProgramMethod<'a> {
    ProgramMethod {
        name,
        proto,
        flags: PUBLIC_STATIC,
        code: Some(code),
    }
}

/// `main`.
pub const fn main_of(code: ProgramCode<'_>) -> ProgramMethod<'_> {
    function("main", "([Ljava/lang/String;)V", code)
}

/// A public class with methods alone.
pub const fn class_of<'a>(name: &'a str, methods: &'a [ProgramMethod<'a>]) -> ProgramClass<'a> {
    ProgramClass {
        name,
        flags: PUBLIC,
        interfaces: &[],
        fields: &[],
        methods,
    }
}
