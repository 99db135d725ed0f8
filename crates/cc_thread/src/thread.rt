//! The frames of a thread.

ghost use Rattle.std.specs.Prelude.{◌≡◌, ◌<◌, ◌≤◌, ◌+◌, ◌^◌, ◌↔◌, Option, false, [], ◌∷◌, length, take, drop, replicate, slice_get, slice_set, OnOk, OnErr, IsErrOf, IsTrue};
ghost use Rattle.cc_meaning.specs.declared.value.Cell.TheVariants.{Unset};
ghost use Rattle.cc_meaning.specs.declared.program.Code.{Code};
ghost use Rattle.cc_meaning_run.specs.Eval.{registers_in, has_room, deeper};
ghost use Rattle.cc_thread.specs.Thread.{stack_of, HasRoom, entered, on_top, top_cells, with_cell, with_pc};

use cc_list::List;
use cc_meaning::fault::Memory;
use cc_meaning::lists::MethodIx;
use cc_meaning::value::{Activation, Cell, Cells};
use std::alloc::{AllocError, Global};
use std::marker::Model;

/// The most frames that stand at one time.
const MOST_FRAMES: usize = 1024;

/// The most registers that the frames have together.
const MOST_REGISTERS: u32 = 65_536;

/// A popped frame of more cells than these gives up their memory.
const MOST_KEPT: usize = 1024;

/// Why a frame was not pushed: it would be one too many or have registers too many, or there is no memory.
#[derive(Clone, Copy, Debug)]
pub enum PushEnd {
    Overflow,
    Memory,
}

impl From<AllocError> for PushEnd {
    ghost use Rattle.std.specs.Prelude.{◌≡◌};
    ghost use Rattle.cc_thread.specs.declared.thread.PushEnd.TheVariants.{Memory};

    ghost from_gives = { λ _ end. end ≡ Memory };

    fn from(_: AllocError) -> PushEnd {
        PushEnd::Memory
    }
}

/// The frames of a thread. Contracts see those that stand, the top one first, and what stood before the thread began.
#[derive(Drop)]
pub struct Thread {
    alloc: Global,
    depth_below: u16,
    registers_below: u32,
    /// All registers, those below among them.
    registers: u32,
    /// How many frames of the row stand, from its front. The others were popped, and are used again.
    standing: usize,
    row: List<Activation>,
}

impl Model for Thread {
    ghost use Rattle.std.specs.Prelude.{◌≡◌, ◌<◌, ◌≤◌, ◌+◌, ◌^◌, length, sum_by};
    ghost use Rattle.cc_thread.specs.Thread.{Frames, frames_in, registers_of};

    ghost Value = { Frames };

    ghost view = { λ t. record { below = record { depth = t.depth_below; registers = t.registers_below }; frames = frames_in t.standing t.row } };

    ghost invariant = { λ t. (t.standing ≤ length t.row) × (t.depth_below + t.standing < 2 ^ 16)
        × (t.registers ≡ t.registers_below + sum_by registers_of (frames_in t.standing t.row)) };
}

/// Puts so many unset cells in place of those that are there.
fn unset(cells: &mut Cells, registers: u16) -> Result<(), AllocError>
    ensures { OnOk result (cells.new ≡ replicate registers Unset) }
{
    cells.truncate(0);
    for _ in 0..registers {
        cells.push(Cell::Unset)?;
    }
    Ok(())
}

/// Makes a frame that of a method at its entry.
fn enter(frame: &mut Activation, method: MethodIx, registers: u16) -> Result<(), AllocError>
    ensures { OnOk result (frame.new ≡ entered method registers) }
{
    unset(&mut frame.cells, registers)?;
    frame.method = method;
    frame.pc = 0;
    Ok(())
}

/// Puts an empty frame behind those that stand, where none lies there.
fn lay(row: &mut List<Activation>, alloc: Global, standing: usize) -> Result<(), AllocError>
    requires { standing ≤ length row.old }
    ensures front { take standing row.new ≡ take standing row.old }
    ensures len { length row.old ≤ length row.new }
    ensures ok { OnOk result (standing < length row.new) }
{
    if standing < row.len() {
        return Ok(());
    }
    row.push(Activation {
        method: 0,
        pc: 0,
        cells: List::new(alloc),
    })
}

impl Thread {
    /// A thread with no frames, above so many frames and registers that stand elsewhere. Takes no memory.
    pub fn new(alloc: Global, depth: u16, registers: u32) -> Thread
        ensures { result ≡ record { below = record { depth = depth; registers = registers }; frames = [] } }
    {
        Thread {
            alloc,
            depth_below: depth,
            registers_below: registers,
            registers,
            standing: 0,
            row: List::new(alloc),
        }
    }

    /// How many frames stand, those given to `new` among them. Takes no memory.
    pub fn depth(&self) -> u16
        ensures { result ≡ (stack_of self.now).depth }
    {
        self.depth_below + self.standing as u16
    }

    /// How many registers they have together. Takes no memory.
    pub fn registers(&self) -> u32
        ensures { result ≡ (stack_of self.now).registers }
    {
        self.registers
    }

    fn has_room(&self, registers: u16) -> bool
        ensures { IsTrue result ↔ HasRoom (stack_of self.now) registers }
    {
        let free = MOST_REGISTERS.checked_sub(self.registers);
        (self.depth() as usize) < MOST_FRAMES && free.is_some_and(|n| registers as u32 <= n)
    }

    /// Enters a method: its frame is the top one, at address 0, with all its cells unset.
    #[tactic(auto, unfolding(cc_meaning_run::specs::Eval::has_room, cc_meaning_run::specs::Eval::deeper))]
    pub fn push(&mut self, method: MethodIx, registers: u16) -> Result<(), PushEnd>
        ensures ok { OnOk result (self.new ≡ record self.old { frames = entered method registers ∷ self.old.frames }) }
        ensures err { OnErr result (self.new ≡ self.old) }
        // Exactly where the frame would be the 1,025th, or have the 65,537th register.
        ensures overflow { IsErrOf result PushEnd.Overflow ↔ (HasRoom (stack_of self.old) registers → ⊥) }
        // So says the evaluator of a run, for a method of so many registers, and so it counts the frame.
        ensures refused { (code : Option Code) → registers_in code ≡ registers →
            (IsErrOf result PushEnd.Overflow ↔ (has_room code (stack_of self.old) ≡ false)) }
        ensures counted { (code : Option Code) → registers_in code ≡ registers →
            OnOk result (stack_of self.new ≡ deeper code (stack_of self.old)) }
    {
        if !self.has_room(registers) {
            return Err(PushEnd::Overflow);
        }
        lay(&mut self.row, self.alloc, self.standing)?;
        enter(self.row.at_mut(self.standing), method, registers)?;
        self.standing += 1;
        self.registers += registers as u32;
        Ok(())
    }

    /// Takes the top frame off. Takes no memory.
    pub fn pop(&mut self)
        requires { 0 < length self.old.frames }
        ensures { self.new ≡ record self.old { frames = drop 1 self.old.frames } }
    {
        self.standing -= 1;
        let frame = self.row.at_mut(self.standing);
        self.registers -= frame.cells.len() as u32;
        if frame.cells.len() > MOST_KEPT {
            frame.cells = List::new(self.alloc);
        }
    }

    /// The top frame, lent. Takes no memory.
    pub fn top(&self) -> &Activation
        requires { 0 < length self.now.frames }
        ensures { slice_get self.now.frames 0 ≡ Some result.now }
    {
        self.row.at(self.standing - 1)
    }

    /// Changes one cell of the top frame. Takes no memory.
    pub fn set(&mut self, register: u16, cell: Cell)
        requires { register < length (top_cells self.old.frames) }
        ensures { self.new ≡ record self.old { frames = on_top (with_cell register cell) self.old.frames } }
    {
        let frame = self.row.at_mut(self.standing - 1);
        frame.cells.set(register as usize, cell);
    }

    /// Changes the address of the top frame's next instruction, in units. Takes no memory.
    pub fn jump(&mut self, pc: u32)
        requires { 0 < length self.old.frames }
        ensures { self.new ≡ record self.old { frames = on_top (with_pc pc) self.old.frames } }
    {
        let frame = self.row.at_mut(self.standing - 1);
        frame.pc = pc;
    }
}
