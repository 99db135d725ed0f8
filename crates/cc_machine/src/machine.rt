//! A run that can pause where a function is entered.

ghost use Rattle.std.specs.Prelude.{◌≡◌, ◌≤◌, IfOk, drop, length};
ghost use Rattle.cc_meaning_run.specs.Acts.{less_by};
ghost use Rattle.cc_meaning_plain.specs.Staged.{stage_report};
ghost use Rattle.cc_machine.specs.Going.{stepped_to, came_back, goes};
ghost use Rattle.cc_machine.specs.Running.{opening, begun, stage_ended};

use crate::progress::{Came, Pause, Progress, come_back, go};
use cc_list::List;
use cc_meaning::lists::Bytes;
use cc_meaning::report::{Ending, Limits, Report, StopCause};
use cc_meaning_plain::Plain;
use std::alloc::{AllocError, Global};
use std::marker::Model;

/// A run of a plain file's `main`, without arguments. It stands for what the run holds between two instructions.
#[derive(Drop)]
pub struct Machine {
    progress: Progress,
}

impl Model for Machine {
    ghost use Rattle.cc_machine.specs.declared.progress.Progress.{Progress};

    ghost Value = { Progress };

    ghost view = { λ m. m.progress };
}

impl Machine {
    /// A run within limits, before anything was done.
    pub fn start(alloc: Global, plain: &Plain, limits: Limits) -> Result<Machine, AllocError>
        ensures { IfOk result (λ machine. machine ≡ opening plain.now limits) }
    {
        let progress = Progress {
            numbers: List::from_vec(vec![in alloc; 0i32; plain.main.registers as usize]?),
            text: Bytes::new(alloc),
            instructions: limits.instructions,
            words: limits.words,
            next: 0,
        };
        Ok(Machine { progress })
    }

    /// Makes the array of no arguments, which takes two words, or says that the run stops for want of them.
    pub fn begin(&mut self) -> Option<Pause>
        ensures { stepped_to result self.new ≡ begun (less_by 2 self.old.words) self.old }
    {
        if self.progress.words < 2 {
            return Some(Pause::Done(Ending::Stopped(StopCause::Heap)));
        }
        self.progress.words -= 2;
        None
    }

    /// Goes on until the function of the place `stops` is entered, whose call was taken from the instructions by then, or until the run ends. Every other
    /// function is done here.
    pub fn run(
        &mut self,
        alloc: Global,
        plain: &Plain,
        stops: Option<usize>,
    ) -> Result<Pause, AllocError>
        requires { self.old.next ≤ length plain.now.main.insns }
        ensures went { IfOk result (λ pause. record { pause = pause; progress = self.new }
            ≡ goes plain.now.functions stops (drop self.old.next plain.now.main.insns) self.old) }
        ensures within { self.new.next ≤ length plain.now.main.insns }
    {
        go(alloc, plain, stops, &mut self.progress)
    }

    /// Ends the call at whose entry the run pauses, by what it came to. Takes the result into the register `to`, by an instruction of its own, or says why the
    /// run stops. Takes no memory.
    pub fn finish_call(&mut self, to: u8, came: Came) -> Option<Pause>
        ensures { stepped_to result self.new ≡ came_back to came self.old }
    {
        come_back(to, came, &mut self.progress)
    }

    /// The instructions that are left. Takes no memory.
    pub fn instructions(&self) -> u64
        ensures { result ≡ self.now.instructions }
    {
        self.progress.instructions
    }

    /// The words that are left. Takes no memory.
    pub fn words(&self) -> u32
        ensures { result ≡ self.now.words }
    {
        self.progress.words
    }

    /// The report of a run that began with these limits and ended so.
    pub fn report(self, alloc: Global, limits: Limits, ending: Ending) -> Report
        ensures { result ≡ stage_report limits (stage_ended self ending) }
    {
        let Machine { progress } = self;
        Report {
            instructions: limits.instructions.saturating_sub(progress.instructions),
            words: limits.words.saturating_sub(progress.words),
            out: progress.text,
            calls: List::new(alloc),
            ending,
        }
    }
}
