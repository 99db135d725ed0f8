//! How a run goes down the instructions of `main`.

ghost use Rattle.std.specs.Prelude.{◌≡◌, ◌++◌, ◌+◌, ◌≤◌, Some, IfOk, OnOk, MatchBool, drop, length};
ghost use Rattle.cc_meaning_run.specs.Acts.{less_by};
ghost use Rattle.cc_meaning_run.specs.Instructions.{line_of};
ghost use Rattle.cc_meaning_plain.specs.Text.{number_at};
ghost use Rattle.cc_machine.specs.Given.{GivesAt};
ghost use Rattle.cc_machine.specs.Going.{stepped_to, result_taken, came_back, came_here, printed, is_stop, entered, acted, stepped, returned, goes};
ghost use Rattle.cc_machine.specs.Lines.{Printed, TooFewWords};

use crate::function::{add, number_at, run_function, set_number};
use cc_list::List;
use cc_meaning::lists::Bytes;
use cc_meaning::report::{Ending, StopCause};
use cc_meaning_plain::{Plain, PlainFunctions, PlainInsn};
use std::alloc::{AllocError, Global};

/// What a run holds on its way down the instructions: the numbers in the registers, what was printed, the instructions and words that are left, and the
/// place of the next instruction.
#[derive(Drop)]
pub struct Progress {
    pub numbers: List<i32>,
    pub text: Bytes,
    pub instructions: u64,
    pub words: u32,
    pub next: usize,
}

/// The entry of a function: its place among the functions of its file, its argument, and the register of `main` that takes its result.
#[derive(Clone, Copy)]
pub struct Entry {
    pub function: usize,
    pub argument: i32,
    pub to: u8,
}

/// What a call of a function came to: its value or why the run stops, and the instructions and words that are left behind it.
#[derive(Clone, Copy)]
pub struct Came {
    pub value: Result<i32, StopCause>,
    pub instructions: u64,
    pub words: u32,
}

/// Where a run pauses: at the entry of a function, or at its end.
#[derive(Drop)]
pub enum Pause {
    AtEntry(Entry),
    Done(Ending),
}

/// The run stopped for want of instructions or of words.
fn stopped(cause: StopCause) -> Option<Pause>
    ensures { result ≡ Some (Pause.Done (Ending.Stopped cause)) }
{
    Some(Pause::Done(Ending::Stopped(cause)))
}

/// Adds a number in decimal, and a line feed.
fn put_line(alloc: Global, text: &mut Vec<u8>, number: i32) -> Result<(), AllocError>
    ensures { OnOk result (text.new.items ≡ text.old.items ++ line_of number) }
{
    let digits = number.to_string(alloc)?;
    text.extend_from_slice(digits.as_bytes())?;
    text.push(b'\n')?;
    Ok(())
}

/// Takes the words of a register's line and prints it; where too few are left, it does nothing and answers false.
fn print(alloc: Global, register: u8, progress: &mut Progress) -> Result<bool, AllocError>
    ensures does { let line = line_of (number_at progress.old.numbers register) in IfOk result (λ done. MatchBool done
        (Printed progress.old line progress.new)
        (TooFewWords progress.old line progress.new)) }
    ensures next { progress.new.next ≡ progress.old.next }
{
    let mut line = Vec::new(alloc);
    put_line(alloc, &mut line, number_at(&progress.numbers, register))?;
    let words = 2 + line.len();
    if (progress.words as usize) < words {
        return Ok(false);
    }
    progress.text.extend_from_slice(line.as_slice())?;
    progress.words -= words as u32;
    Ok(true)
}

/// What the function of a place gives for a number, and how many of the instructions are left after it.
fn given_by(
    alloc: Global,
    functions: &PlainFunctions,
    function: usize,
    argument: i32,
    instructions: u64,
) -> Result<Option<(i32, u64)>, AllocError>
    ensures { IfOk result (λ given. GivesAt functions.now function argument instructions given) }
{
    match functions.get(function) {
        Some(called) => run_function(alloc, called, argument, instructions),
        None => Ok(Some((0, instructions))),
    }
}

/// Does the function of a place by itself, with a number, while so many instructions and words are left.
pub fn call_here(
    alloc: Global,
    functions: &PlainFunctions,
    function: usize,
    argument: i32,
    instructions: u64,
    words: u32,
) -> Result<Came, AllocError>
    ensures { IfOk result (λ came. came ≡ came_here functions.now function argument instructions words) }
{
    match given_by(alloc, functions, function, argument, instructions)? {
        Some((value, instructions)) => Ok(Came {
            value: Ok(value),
            instructions,
            words,
        }),
        None => Ok(Came {
            value: Err(StopCause::Budget),
            instructions: 0,
            words,
        }),
    }
}

/// Takes the result of a call, by an instruction of its own, or says why the run stops.
fn take_result(to: u8, value: i32, progress: &mut Progress) -> Option<Pause>
    ensures does { stepped_to result progress.new ≡ result_taken to value progress.old }
    ensures next { progress.new.next ≡ progress.old.next }
{
    if progress.instructions == 0 {
        return stopped(StopCause::Budget);
    }
    progress.instructions -= 1;
    set_number(&mut progress.numbers, to, value);
    None
}

/// Goes on behind a call that came to this, or says why the run stops.
pub fn come_back(to: u8, came: Came, progress: &mut Progress) -> Option<Pause>
    ensures does { stepped_to result progress.new ≡ came_back to came progress.old }
    ensures next { progress.new.next ≡ progress.old.next }
{
    progress.instructions = came.instructions;
    progress.words = came.words;
    match came.value {
        Ok(value) => take_result(to, value, progress),
        Err(cause) => stopped(cause),
    }
}

/// Prints, or says why the run stops.
fn show(alloc: Global, register: u8, progress: &mut Progress) -> Result<Option<Pause>, AllocError>
    ensures does { let line = line_of (number_at progress.old.numbers register) in IfOk result (λ pause.
        stepped_to pause progress.new ≡ printed line (less_by (2 + length line) progress.old.words) progress.old) }
    ensures next { progress.new.next ≡ progress.old.next }
{
    if print(alloc, register, progress)? {
        Ok(None)
    } else {
        Ok(stopped(StopCause::Heap))
    }
}

/// Pauses at the entry of the function at whose place runs pause, and does any other one here.
fn enter(
    alloc: Global,
    functions: &PlainFunctions,
    stops: Option<usize>,
    entry: Entry,
    progress: &mut Progress,
) -> Result<Option<Pause>, AllocError>
    ensures does { IfOk result (λ pause. stepped_to pause progress.new ≡ entered (is_stop stops entry.function) functions.now entry progress.old) }
    ensures next { progress.new.next ≡ progress.old.next }
{
    if stops == Some(entry.function) {
        return Ok(Some(Pause::AtEntry(entry)));
    }
    let came = call_here(
        alloc,
        functions,
        entry.function,
        entry.argument,
        progress.instructions,
        progress.words,
    )?;
    Ok(come_back(entry.to, came, progress))
}

/// Does one instruction, which was taken from those that are left, or says why the run pauses.
fn act(
    alloc: Global,
    functions: &PlainFunctions,
    stops: Option<usize>,
    insn: PlainInsn,
    progress: &mut Progress,
) -> Result<Option<Pause>, AllocError>
    ensures does { IfOk result (λ pause. stepped_to pause progress.new ≡ acted functions.now stops insn progress.old) }
    ensures next { progress.new.next ≡ progress.old.next }
{
    match insn {
        PlainInsn::SgetOut { .. } => Ok(None),
        PlainInsn::Const4 { .. } | PlainInsn::AddInt2Addr { .. } | PlainInsn::AddIntLit8 { .. } => {
            add(insn, &mut progress.numbers);
            Ok(None)
        }
        PlainInsn::InvokePrintln { number, .. } => show(alloc, number, progress),
        PlainInsn::CallFunction {
            function,
            argument,
            to,
        } => {
            let argument = number_at(&progress.numbers, argument);
            let entry = Entry {
                function,
                argument,
                to,
            };
            enter(alloc, functions, stops, entry, progress)
        }
    }
}

/// Takes one instruction and does it, or says why the run pauses.
fn step(
    alloc: Global,
    functions: &PlainFunctions,
    stops: Option<usize>,
    insn: PlainInsn,
    progress: &mut Progress,
) -> Result<Option<Pause>, AllocError>
    ensures does { IfOk result (λ pause. stepped_to pause progress.new ≡ stepped functions.now stops insn progress.old) }
    ensures next { progress.new.next ≡ progress.old.next }
{
    if progress.instructions == 0 {
        return Ok(stopped(StopCause::Budget));
    }
    progress.instructions -= 1;
    act(alloc, functions, stops, insn, progress)
}

/// Does the `return-void` behind the instructions.
fn finish(progress: &mut Progress) -> Ending
    ensures does { record { pause = Pause.Done result; progress = progress.new } ≡ returned progress.old.instructions progress.old }
    ensures next { progress.new.next ≡ progress.old.next }
{
    if progress.instructions == 0 {
        return Ending::Stopped(StopCause::Budget);
    }
    progress.instructions -= 1;
    Ending::Returned
}

/// Goes down the instructions until the run pauses.
pub fn go(
    alloc: Global,
    plain: &Plain,
    stops: Option<usize>,
    progress: &mut Progress,
) -> Result<Pause, AllocError>
    requires { progress.old.next ≤ length plain.now.main.insns }
    ensures went { IfOk result (λ pause. record { pause = pause; progress = progress.new }
        ≡ goes plain.now.functions stops (drop progress.old.next plain.now.main.insns) progress.old) }
    ensures within { progress.new.next ≤ length plain.now.main.insns }
{
    let insns = plain.main.insns.as_slice();
    while progress.next < insns.len() {
        let insn = insns[progress.next];
        progress.next += 1;
        if let Some(pause) = step(alloc, &plain.functions, stops, insn, progress)? {
            return Ok(pause);
        }
    }
    Ok(Pause::Done(finish(progress)))
}
