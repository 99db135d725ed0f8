//! A plain file as it was read.

use cc_list::List;
use cc_meaning::lists::Units;

/// An instruction of a plain file, with its registers; each is the form of Dalvik bytecode that it is named for.
#[derive(Clone, Copy)]
pub enum PlainInsn {
    /// `sget-object` of `System.out`.
    SgetOut {
        to: u8,
    },
    /// `const/4`.
    Const4 {
        to: u8,
        value: i32,
    },
    /// `add-int/2addr`.
    AddInt2Addr {
        to: u8,
        other: u8,
    },
    /// `add-int/lit8`.
    AddIntLit8 {
        to: u8,
        from: u8,
        literal: i32,
    },
    /// `invoke-virtual` of `println(I)V` of PrintStream.
    InvokePrintln {
        stream: u8,
        number: u8,
    },
    /// `invoke-static` of the file's function at this place, and the `move-result` behind it.
    CallFunction {
        function: usize,
        argument: u8,
        to: u8,
    },
}

/// What an instruction set a register to last.
#[derive(Clone, Copy)]
pub enum Held {
    Nothing,
    Number,
    /// `System.out`.
    Stream,
}

/// The instructions before the one that ends them.
pub type PlainInsns = List<PlainInsn>;

/// The instruction that ends a method: `return-void` of `main`, `return` of a function.
#[derive(Clone, Copy)]
pub enum Last {
    ReturnVoid,
    Return { from: u8 },
}

/// The code of a method: how many registers it has, and its instructions.
#[derive(Drop)]
pub struct PlainCode {
    pub registers: u16,
    pub insns: PlainInsns,
    pub last: Last,
}

/// A function of an int that gives an int: its name with its types, as `f(I)I`, and its code.
#[derive(Drop)]
pub struct PlainFunction {
    pub name: Units,
    pub code: PlainCode,
}

/// Functions in the order of their names.
pub type PlainFunctions = List<PlainFunction>;

/// A plain file as it was read: the name of its class, its `main`, and its functions.
#[derive(Drop)]
pub struct Plain {
    pub class: Units,
    pub main: PlainCode,
    pub functions: PlainFunctions,
}

/// A method as the class data lists it: its row, its access flags, and where its code stands.
#[derive(Clone, Copy)]
pub struct Member {
    pub method: u32,
    pub flags: u32,
    pub code_at: u32,
}
