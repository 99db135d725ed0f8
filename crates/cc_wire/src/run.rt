//! The image of a function's entry.

ghost use Rattle.std.specs.Prelude.{◌≡◌, ℕ, ◌+◌, ◌<◌, ◌^◌, ℤ, length, option_map, IfOk};
ghost use Rattle.std.specs.Option.{option_copied};
ghost use Rattle.cc_meaning_images.specs.Reading.{runnable, has_registers, run_head, run_behind, run_fits, read_run};
ghost use Rattle.cc_meaning_plain.specs.declared.plain.Plain.{Plain as PlainFile};
ghost use Rattle.cc_meaning_plain.specs.declared.plain.PlainFunction.{PlainFunction as Function};
ghost use Rattle.cc_meaning_plain.specs.Program.{code_of, program_of};
ghost use Rattle.cc_meaning_clone.specs.Functions.{is_ordinary};
ghost use Rattle.cc_wire.specs.Reading.{Answers};
ghost use Rattle.cc_wire.specs.declared.run.Head.{Head as RunNumbers};
ghost use Rattle.cc_wire.specs.Runs.{target_of, head_of, ReadsHead, image_of, ReadsBehind};

use crate::numbers::function_numbered;
use crate::parts::{self, not_allowed};
use crate::reader::Reader;
use cc_list::List;
use cc_meaning::fault::ImageFault;
use cc_meaning::image::RunImage;
use cc_meaning::value::{Object, Value};
use cc_meaning_clone::run_laws;
use cc_meaning_plain::{Plain, PlainFunction};
use std::alloc::{AllocError, Global};

/// How many frames stand at most.
const MOST_FRAMES: u16 = 1024;

/// How many registers the frames have at most.
const MOST_REGISTERS: u32 = 65_536;

/// The numbers of an image before the statuses.
#[derive(Clone, Copy)]
pub struct Head {
    pub method: u32,
    pub instructions: u64,
    pub words: u32,
    pub depth: u16,
    pub registers: u32,
}

/// `<init>`.
const CONSTRUCTOR: [u16; 6] = [0x3c, 0x69, 0x6e, 0x69, 0x74, 0x3e];

/// `<clinit>`.
const INITIALISER: [u16; 8] = [0x3c, 0x63, 0x6c, 0x69, 0x6e, 0x69, 0x74, 0x3e];

/// Whether a function is neither a constructor nor an initialiser by its name, whose types are its last four units.
fn is_ordinary(function: &PlainFunction) -> bool
    ensures { result ≡ is_ordinary function.now }
{
    let name = function.name.as_slice();
    let bare = &name[..name.len().saturating_sub(4)];
    bare != &CONSTRUCTOR[..] && bare != &INITIALISER[..]
}

/// The function that a Run may be of by the number of its method.
fn target(plain: &Plain, method: u32) -> Option<&PlainFunction>
    ensures { runnable (program_of plain.now) method ≡ option_map (target_of plain.now) (option_copied result) }
{
    run_laws::runnable_is();
    let function = function_numbered(plain, method)?;
    if is_ordinary(function) {
        Some(function)
    } else {
        None
    }
}

/// Whether a function finds room for its registers, where those that stand are no more than may.
fn has_registers(function: &PlainFunction, plain: &Plain, registers: u32) -> bool
    ensures { result ≡ has_registers (code_of plain.now function.now.code) registers }
{
    registers > MOST_REGISTERS || MOST_REGISTERS - registers >= u32::from(function.code.registers)
}

/// The numbers before the statuses, of a Run of a function.
#[tactic(auto, unfolding(cc_meaning_images::specs::Reading::run_head))]
fn run_head(reader: &mut Reader<'_>, plain: &Plain) -> Result<Head, ImageFault>
    requires { reader.old.at + length reader.old.rest.now < 2 ^ 32 }
    ensures reads { ReadsHead plain.now (run_head (program_of plain.now) reader.old.at reader.old.rest.now) result reader.new.at reader.new.rest.now }
    ensures same { reader.new.at + length reader.new.rest.now ≡ reader.old.at + length reader.old.rest.now }
{
    let at_method = reader.at;
    let method = reader.four()?;
    let Some(function) = target(plain, method) else {
        return Err(not_allowed(at_method));
    };
    let instructions = reader.eight()?;
    let words = reader.four()?;
    let at_depth = reader.at;
    let depth = reader.two()?;
    if depth == MOST_FRAMES {
        return Err(not_allowed(at_depth));
    }
    let at_registers = reader.at;
    let registers = reader.four()?;
    if !has_registers(function, plain, registers) {
        return Err(not_allowed(at_registers));
    }
    Ok(Head {
        method,
        instructions,
        words,
        depth,
        registers,
    })
}

/// What stands behind them: the status of the class, the argument, and nothing more but `System.out`.
fn run_behind(reader: &mut Reader<'_>) -> Result<(u8, i32), ImageFault>
    requires { reader.old.at + length reader.old.rest.now < 2 ^ 32 }
    ensures { (plain : PlainFile) (f : Function) (head : RunNumbers) →
        ReadsBehind plain f head (run_behind (program_of plain) (head_of plain f head) reader.old.at reader.old.rest.now) result reader.new.at reader.new.rest.now }
{
    run_laws::form_is();
    let status = parts::status(reader)?;
    let argument = parts::argument(reader)?;
    parts::none(reader)?;
    parts::none(reader)?;
    parts::out_alone(reader)?;
    Ok((status, argument))
}

/// Whether the counters are in their ranges.
fn fits(head: Head) -> bool
    ensures { (plain : PlainFile) (f : Function) (status : ℕ) (argument : ℤ) → result ≡ run_fits (image_of plain f head status argument) }
{
    head.instructions <= 4_294_967_296
        && head.words <= 4_194_304
        && head.depth >= 1
        && head.depth <= MOST_FRAMES
        && head.registers <= MOST_REGISTERS
}

/// The image of these parts.
fn image(alloc: Global, head: Head, status: u8, argument: i32) -> Result<RunImage, AllocError>
    ensures { IfOk result (λ image. (plain : PlainFile) (f : Function) → image ≡ image_of plain f head status argument) }
{
    Ok(RunImage {
        method: head.method,
        instructions: head.instructions,
        words: head.words,
        depth: head.depth,
        registers: head.registers,
        statuses: List::from_vec(vec![in alloc; status]?),
        args: List::from_vec(vec![in alloc; Value::Int(argument)]?),
        statics: List::new(alloc),
        literals: List::new(alloc),
        constants: List::new(alloc),
        objects: List::from_vec(vec![in alloc; Object::Out]?),
    })
}

/// The image of a function's entry that bytes spell, or the first fault of the bytes. Bytes behind it, and counters out of range, are faults too.
pub fn decode_run(alloc: Global, bytes: &[u8], plain: &Plain) -> Result<RunImage, ImageFault>
    requires { length bytes.now < 2 ^ 32 }
    ensures { Answers (read_run (program_of plain.now) bytes.now) result }
{
    let mut reader = Reader { at: 0, rest: bytes };
    let head = run_head(&mut reader, plain)?;
    let (status, argument) = run_behind(&mut reader)?;
    if !reader.rest.is_empty() {
        return Err(ImageFault::Trailing);
    }
    if !fits(head) {
        return Err(ImageFault::BadCounter);
    }
    Ok(image(alloc, head, status, argument)?)
}
