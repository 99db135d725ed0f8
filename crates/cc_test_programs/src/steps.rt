//! Code as a list of steps: instructions, and the labels between them.

use crate::assembler::{Assembler, Label};
use crate::fault::AssemblyFault;
use crate::names::{class, field, method, text};
use cc_list::List;
use cc_meaning::instruction::{How, Insn, IntOp, Kind, MethodRef, Test, TypeRef};

/// A field or a method: its class, its name, and its type or prototype.
#[derive(Clone, Copy)]
pub struct Member<'a> {
    pub class: &'a str,
    pub name: &'a str,
    pub ty: &'a str,
}

/// A step of a method's code. Labels are numbered from 0, in any order.
#[derive(Clone, Copy)]
pub enum Step<'a> {
    /// The label stands here.
    Place(usize),
    /// `nop`.
    Nop,
    /// Units as they are, which may be no instruction.
    Units(&'a [u16]),
    /// `const/4` or its kin: a register, and what it gets.
    Const(u16, i32),
    /// `const`, whatever the number.
    WideConst(u16, i32),
    /// `const-string`.
    Text(u16, &'a str),
    /// `new-instance`.
    New(u16, &'a str),
    /// `new-array`: the register that gets it, that of the length, and the array's descriptor.
    NewArray(u16, u16, &'a str),
    /// `check-cast`.
    Cast(u16, &'a str),
    /// `aget`, into the first register, of an array at an index.
    Element(Kind, u16, u16, u16),
    /// `aput`, from the first register, to an array at an index.
    PutElement(Kind, u16, u16, u16),
    /// `iget`, into the first register, of an object.
    Field(Kind, u16, u16, Member<'a>),
    /// `iput`, from the first register, to an object.
    PutField(Kind, u16, u16, Member<'a>),
    /// `sget`.
    Static(Kind, u16, Member<'a>),
    /// `sput`.
    PutStatic(Kind, u16, Member<'a>),
    /// An invoke, of these registers.
    Invoke(How, &'a [u16], Member<'a>),
    /// `move-result`.
    Result(Kind, u16),
    /// `return`.
    Return(Kind, u16),
    /// `return-void`.
    ReturnVoid,
    /// An operation of two registers, as `add-int/2addr`.
    Op(IntOp, u16, u16),
    /// An operation of three registers, as `add-int`.
    WideOp(IntOp, u16, u16, u16),
    /// `add-int/lit8`.
    Add(u16, u16, i8),
    /// `goto`.
    Goto(usize),
    /// `if-eq` and its kin.
    If(Test, u16, u16, usize),
    /// `if-eqz` and its kin.
    IfZero(Test, u16, usize),
}

/// What stands in an instruction where a mark names the row.
const MARKED: u32 = 0;

/// Labels by their numbers.
pub fn label_of(labels: &[Label], number: usize) -> Result<Label, AssemblyFault> {
    match labels.get(number) {
        Some(label) => Ok(*label),
        None => Err(AssemblyFault::Unplaced),
    }
}

impl Assembler {
    /// Adds a step.
    pub fn put_step(&mut self, labels: &[Label], step: &Step<'_>) -> Result<(), AssemblyFault> {
        match step {
            Step::Place(label) => {
                let label = label_of(labels, *label)?;
                self.place(label);
                Ok(())
            }
            Step::Units(units) => self.put_units(units),
            Step::Goto(to) => self.put_branch(Insn::Goto { target: 0 }, label_of(labels, *to)?),
            Step::If(test, left, right, to) => {
                let insn = Insn::If {
                    test: *test,
                    left: *left,
                    right: *right,
                    target: 0,
                };
                self.put_branch(insn, label_of(labels, *to)?)
            }
            Step::IfZero(test, value, to) => {
                let insn = Insn::IfZero {
                    test: *test,
                    value: *value,
                    target: 0,
                };
                self.put_branch(insn, label_of(labels, *to)?)
            }
            other => self.put_plain(other),
        }
    }

    /// Adds a step that is an instruction without a target and without a row.
    fn put_plain(&mut self, step: &Step<'_>) -> Result<(), AssemblyFault> {
        match *step {
            Step::Nop => self.put(Insn::Nop),
            Step::Const(to, value) => self.put(Insn::ConstInt { to, value }),
            Step::WideConst(to, value) => self.put_wide(Insn::ConstInt { to, value }),
            Step::Element(kind, to, array, index) => self.put(Insn::ArrayGet {
                kind,
                to,
                array,
                index,
            }),
            Step::PutElement(kind, from, array, index) => self.put(Insn::ArrayPut {
                kind,
                from,
                array,
                index,
            }),
            Step::Result(kind, to) => self.put(Insn::MoveResult { kind, to }),
            Step::Return(kind, from) => self.put(Insn::Return { kind, from }),
            Step::ReturnVoid => self.put(Insn::ReturnVoid),
            _ => self.put_reckoning(step),
        }
    }

    /// Adds a step that reckons.
    fn put_reckoning(&mut self, step: &Step<'_>) -> Result<(), AssemblyFault> {
        match *step {
            Step::Op(op, to, right) => self.put(Insn::IntOp {
                op,
                to,
                left: to,
                right,
            }),
            Step::WideOp(op, to, left, right) => self.put_wide(Insn::IntOp {
                op,
                to,
                left,
                right,
            }),
            Step::Add(to, left, literal) => self.put(Insn::IntLit {
                op: IntOp::Add,
                reversed: false,
                to,
                left,
                literal: i32::from(literal),
            }),
            _ => self.put_typed(step),
        }
    }

    /// Adds a step that names a text or a type.
    fn put_typed(&mut self, step: &Step<'_>) -> Result<(), AssemblyFault> {
        let named = TypeRef::Row(MARKED);
        match *step {
            Step::Text(to, units) => {
                let row = text(self.alloc(), units)?;
                self.put_named(Insn::ConstText { to, text: MARKED }, row)
            }
            Step::New(to, name) => {
                let row = class(self.alloc(), name)?;
                self.put_named(Insn::NewInstance { to, named }, row)
            }
            Step::NewArray(to, length, name) => {
                let row = class(self.alloc(), name)?;
                self.put_named(Insn::NewArray { to, length, named }, row)
            }
            Step::Cast(object, name) => {
                let row = class(self.alloc(), name)?;
                self.put_named(Insn::CheckCast { object, named }, row)
            }
            Step::Invoke(how, args, callee) => self.put_invoke(how, args, callee),
            _ => self.put_access(step),
        }
    }

    fn put_invoke(
        &mut self,
        how: How,
        args: &[u16],
        callee: Member<'_>,
    ) -> Result<(), AssemblyFault> {
        let row = method(self.alloc(), callee.class, callee.name, callee.ty)?;
        let args = List::from_slice(self.alloc(), args)?;
        let named = MethodRef::Row(MARKED);
        self.put_named(Insn::Invoke { how, named, args }, row)
    }

    /// Adds an instruction that names a field.
    fn put_of_field(&mut self, insn: Insn, named: Member<'_>) -> Result<(), AssemblyFault> {
        let row = field(self.alloc(), named.class, named.name, named.ty)?;
        self.put_named(insn, row)
    }

    /// Adds a step that reads or writes a field.
    fn put_access(&mut self, step: &Step<'_>) -> Result<(), AssemblyFault> {
        let field = MARKED;
        match *step {
            Step::Field(kind, to, object, named) => {
                let insn = Insn::FieldGet {
                    kind,
                    to,
                    object,
                    field,
                };
                self.put_of_field(insn, named)
            }
            Step::PutField(kind, from, object, named) => {
                let insn = Insn::FieldPut {
                    kind,
                    from,
                    object,
                    field,
                };
                self.put_of_field(insn, named)
            }
            Step::Static(kind, to, named) => {
                self.put_of_field(Insn::StaticGet { kind, to, field }, named)
            }
            Step::PutStatic(kind, from, named) => {
                self.put_of_field(Insn::StaticPut { kind, from, field }, named)
            }
            _ => Err(AssemblyFault::NoForm),
        }
    }
}
