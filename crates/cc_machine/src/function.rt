//! A function of a plain file by itself.

ghost use Rattle.std.specs.Prelude.{◌≡◌, suc, IfOk, [], ◌∷◌, length, slice_set};
ghost use Rattle.cc_meaning_run.specs.Acts.{less_by};
ghost use Rattle.cc_meaning_plain.specs.Text.{number_at, numbers_at_entry, numbers_after, number_returned};
ghost use Rattle.cc_machine.specs.Given.{Gives};

use cc_list::List;
use cc_meaning_plain::{Last, PlainCode, PlainFunction, PlainInsn};
use std::alloc::{AllocError, Global};

/// The number in a register, 0 where there is none.
pub fn number_at(numbers: &List<i32>, register: u8) -> i32
    ensures { result ≡ number_at numbers.now register }
{
    match numbers.get(register as usize) {
        Some(number) => *number,
        None => 0,
    }
}

/// Puts a number into a register.
pub fn set_number(numbers: &mut List<i32>, register: u8, number: i32)
    ensures { numbers.new ≡ slice_set numbers.old register number }
{
    if (register as usize) < numbers.len() {
        numbers.set(register as usize, number);
    }
}

/// Does an instruction that adds; another one changes no number here.
#[tactic(auto, unfolding(cc_meaning_plain::specs::Text::numbers_after))]
pub fn add(insn: PlainInsn, numbers: &mut List<i32>)
    ensures { numbers.new ≡ numbers_after numbers.old (insn ∷ []) }
{
    match insn {
        PlainInsn::Const4 { to, value } => set_number(numbers, to, value),
        PlainInsn::AddInt2Addr { to, other } => {
            let left = number_at(numbers, to);
            let sum = left.wrapping_add(number_at(numbers, other));
            set_number(numbers, to, sum);
        }
        PlainInsn::AddIntLit8 { to, from, literal } => {
            let sum = number_at(numbers, from).wrapping_add(literal);
            set_number(numbers, to, sum);
        }
        PlainInsn::SgetOut { .. }
        | PlainInsn::InvokePrintln { .. }
        | PlainInsn::CallFunction { .. } => {}
    }
}

/// Does instructions that add, one after the other.
fn add_all(insns: &[PlainInsn], numbers: &mut List<i32>)
    ensures { numbers.new ≡ numbers_after numbers.old insns.now }
{
    for insn in insns {
        add(*insn, numbers);
    }
}

/// The numbers in the registers behind a function's instructions. Its argument stands in the last one at first.
fn numbers_behind(alloc: Global, code: &PlainCode, argument: i32) -> Result<List<i32>, AllocError>
    ensures { IfOk result (λ numbers. numbers ≡ numbers_after (numbers_at_entry code.now argument) code.now.insns) }
{
    let unset = (code.registers as usize).saturating_sub(1);
    let mut first = vec![in alloc; 0i32; unset]?;
    first.push(argument)?;
    let mut numbers = List::from_vec(first);
    add_all(code.insns.as_slice(), &mut numbers);
    Ok(numbers)
}

/// What the last instruction gives, 0 where it gives nothing.
fn number_returned(last: Last, numbers: &List<i32>) -> i32
    ensures { result ≡ number_returned last numbers.now }
{
    match last {
        Last::ReturnVoid => 0,
        Last::Return { from } => number_at(numbers, from),
    }
}

/// What is left of the instructions where so many are taken, and one more.
fn left_after(count: usize, instructions: u64) -> Option<u64>
    ensures { result ≡ less_by (suc count) instructions }
{
    if instructions <= count as u64 {
        return None;
    }
    Some(instructions - count as u64 - 1)
}

/// What a function of a plain file gives for a number, and how many of the instructions are left after it; nothing where they are too few. Only want of
/// memory makes it fail.
pub fn run_function(
    alloc: Global,
    function: &PlainFunction,
    argument: i32,
    instructions: u64,
) -> Result<Option<(i32, u64)>, AllocError>
    ensures { IfOk result (λ given. Gives function.now.code argument instructions given) }
{
    let Some(left) = left_after(function.code.insns.len(), instructions) else {
        return Ok(None);
    };
    let numbers = numbers_behind(alloc, &function.code, argument)?;
    let value = number_returned(function.code.last, &numbers);
    Ok(Some((value, left)))
}
