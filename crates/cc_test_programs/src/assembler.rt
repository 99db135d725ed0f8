//! A method's code in the making.

use crate::fault::AssemblyFault;
use crate::form::{Form, Size, form_of};
use crate::target::{Field, field_of, set_target};
use cc_list::List;
use cc_meaning::instruction::Insn;
use cc_meaning::listing::{
    ListedCatch, ListedCatches, ListedTries, ListedTry, Listing, Mark, Marks, RowName,
};
use cc_meaning::lists::Units;
use std::alloc::Global;

/// A place in a method's code, which may be known only later.
#[derive(Clone, Copy)]
pub struct Label(usize);

/// A branch to a label: its own place, in units, and where its target is written.
#[derive(Clone, Copy)]
struct Branch {
    at: u32,
    field: Field,
    to: Label,
}

/// A handler: the class that it takes, or `None` where it takes all, and where it begins.
#[derive(Drop)]
struct Handler {
    class: Option<Units>,
    at: Label,
}

/// A try, from one label to before another, with its handlers.
#[derive(Drop)]
struct Try {
    start: Label,
    end: Label,
    handlers: List<Handler>,
}

/// A method's code in the making: instructions one behind the other, labels at their places, and the rows that they name.
#[derive(Drop)]
pub struct Assembler {
    alloc: Global,
    registers: u16,
    outs: u16,
    units: Units,
    marks: Marks,
    labels: List<Option<u32>>,
    branches: List<Branch>,
    tries: List<Try>,
}

/// How many registers an instruction passes to a method.
fn passed(insn: &Insn) -> u16 {
    match insn {
        Insn::Invoke { args, .. } => u16::try_from(args.len()).unwrap_or(u16::MAX),
        _ => 0,
    }
}

/// Adds the units of a form.
fn put_form(units: &mut Units, form: Form) -> Result<(), AssemblyFault> {
    match form {
        Form::One(one) => units.push(one)?,
        Form::Two(one, two) => units.extend_from_slice(&[one, two])?,
        Form::Three(one, two, three) => units.extend_from_slice(&[one, two, three])?,
        Form::Five(one, more) => {
            units.push(one)?;
            units.extend_from_slice(&more)?
        }
    }
    Ok(())
}

impl Assembler {
    /// A method of so many registers, with no code yet.
    pub fn new(alloc: Global, registers: u16) -> Assembler {
        Assembler {
            alloc,
            registers,
            outs: 0,
            units: List::new(alloc),
            marks: List::new(alloc),
            labels: List::new(alloc),
            branches: List::new(alloc),
            tries: List::new(alloc),
        }
    }

    /// Where memory comes from.
    pub fn alloc(&self) -> Global {
        self.alloc
    }

    /// Where the next unit stands.
    fn here(&self) -> u32 {
        u32::try_from(self.units.len()).unwrap_or(u32::MAX)
    }

    /// Adds an instruction in one of its forms, and answers which.
    fn add(&mut self, insn: &Insn, size: Size) -> Result<Form, AssemblyFault> {
        let Some(form) = form_of(insn, size) else {
            return Err(AssemblyFault::NoForm);
        };
        put_form(&mut self.units, form)?;
        self.outs = self.outs.max(passed(insn));
        Ok(form)
    }

    /// Adds an instruction that names no row and has no target, in its shortest form.
    pub fn put(&mut self, insn: Insn) -> Result<(), AssemblyFault> {
        self.add(&insn, Size::Short)?;
        Ok(())
    }

    /// Adds such an instruction in the form of the widest operands: `const`, and operations of three registers.
    pub fn put_wide(&mut self, insn: Insn) -> Result<(), AssemblyFault> {
        self.add(&insn, Size::Wide)?;
        Ok(())
    }

    /// Adds units as they are, which may be no instruction.
    pub fn put_units(&mut self, units: &[u16]) -> Result<(), AssemblyFault> {
        self.units.extend_from_slice(units)?;
        Ok(())
    }

    fn add_named(&mut self, insn: &Insn, row: RowName, size: Size) -> Result<(), AssemblyFault> {
        let at = self.here().saturating_add(1);
        self.add(insn, size)?;
        self.marks.push(Mark { at, row })?;
        Ok(())
    }

    /// Adds an instruction that names a row. What stands in its own place for the row isn't looked at.
    pub fn put_named(&mut self, insn: Insn, row: RowName) -> Result<(), AssemblyFault> {
        self.add_named(&insn, row, Size::Short)
    }

    /// Adds such an instruction in its widest form: `const-string/jumbo`, or arguments as a range.
    pub fn put_named_wide(&mut self, insn: Insn, row: RowName) -> Result<(), AssemblyFault> {
        self.add_named(&insn, row, Size::Wide)
    }

    /// A label that isn't at a place yet.
    pub fn label(&mut self) -> Result<Label, AssemblyFault> {
        let label = Label(self.labels.len());
        self.labels.push(None)?;
        Ok(label)
    }

    /// Puts a label where the next instruction stands.
    pub fn place(&mut self, label: Label) {
        let here = self.here();
        if label.0 < self.labels.len() {
            self.labels.set(label.0, Some(here));
        }
    }

    /// Adds an instruction with a target. What stands in its own place for the target isn't looked at.
    pub fn put_branch(&mut self, insn: Insn, to: Label) -> Result<(), AssemblyFault> {
        let at = self.here();
        let form = self.add(&insn, Size::Short)?;
        let field = field_of(form);
        self.branches.push(Branch { at, field, to })?;
        Ok(())
    }

    /// Covers the instructions between two labels by handlers, in the order in which they are asked. A handler without a class takes all.
    pub fn cover(
        &mut self,
        start: Label,
        end: Label,
        handlers: List<(Option<Units>, Label)>,
    ) -> Result<(), AssemblyFault> {
        let mut kept = List::new(self.alloc);
        for (class, at) in handlers.into_vec() {
            kept.push(Handler { class, at })?;
        }
        self.tries.push(Try {
            start,
            end,
            handlers: kept,
        })?;
        Ok(())
    }
}

/// The place of a label.
fn place_of(labels: &List<Option<u32>>, label: Label) -> Result<u32, AssemblyFault> {
    match labels.get(label.0) {
        Some(Some(at)) => Ok(*at),
        _ => Err(AssemblyFault::Unplaced),
    }
}

/// Writes the targets of branches.
fn set_targets(
    units: &mut Units,
    labels: &List<Option<u32>>,
    branches: &List<Branch>,
) -> Result<(), AssemblyFault> {
    for branch in branches {
        let to = place_of(labels, branch.to)?;
        let target = to.wrapping_sub(branch.at).cast_signed();
        set_target(units, branch.at as usize, branch.field, target)?;
    }
    Ok(())
}

/// Handlers with places for labels.
fn catches_of(
    alloc: Global,
    labels: &List<Option<u32>>,
    handlers: List<Handler>,
) -> Result<ListedCatches, AssemblyFault> {
    let mut catches = List::new(alloc);
    for handler in handlers.into_vec() {
        let at = place_of(labels, handler.at)?;
        catches.push(ListedCatch {
            class: handler.class,
            at,
        })?;
    }
    Ok(catches)
}

/// Tries with places for labels.
fn tries_of(
    alloc: Global,
    labels: &List<Option<u32>>,
    tries: List<Try>,
) -> Result<ListedTries, AssemblyFault> {
    let mut listed = List::new(alloc);
    for covered in tries.into_vec() {
        let start = place_of(labels, covered.start)?;
        let end = place_of(labels, covered.end)?;
        let catches = catches_of(alloc, labels, covered.handlers)?;
        listed.push(ListedTry {
            start,
            end,
            catches,
        })?;
    }
    Ok(listed)
}

impl Assembler {
    /// The method's code, with each label's place where it is named.
    ///
    /// # Errors
    ///
    /// `Unplaced` where a label that is named is at no place, `TooFar` where a branch can't reach its label, and `Memory`.
    pub fn finish(self) -> Result<Listing, AssemblyFault> {
        let mut units = self.units;
        let labels = self.labels;
        let covered = self.tries;
        set_targets(&mut units, &labels, &self.branches)?;
        let tries = tries_of(self.alloc, &labels, covered)?;
        Ok(Listing {
            registers: self.registers,
            outs: self.outs,
            units,
            marks: self.marks,
            tries,
        })
    }
}
