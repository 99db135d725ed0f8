//! The state at the entry of a moved function, and what the state at its end means.

ghost use Rattle.std.specs.Prelude.{◌≡◌, ◌<◌, ◌^◌, ◌≤◌, length, IfOk};
ghost use Rattle.cc_meaning_device.specs.Straight.{entry_image, value_back};

use cc_list::List;
use cc_machine::{Came, Entry};
use cc_meaning::image::{BackImage, RunImage};
use cc_meaning::report::{CallEnd, StopCause};
use cc_meaning::value::{Object, Value};
use cc_meaning_plain::Plain;
use cc_wire::method_number;
use std::alloc::{AllocError, Global};

/// The status of a class that was started.
const STARTED: u8 = 2;

/// The image of the entry of a function that `main` calls, while so many instructions and words are left: the one frame is that of `main`, and the one
/// object is `System.out`.
pub(crate) fn entry_image(
    alloc: Global,
    plain: &Plain,
    entry: Entry,
    instructions: u64,
    words: u32,
) -> Result<RunImage, AllocError>
    requires { entry.function < 2 ^ 31 }
    ensures { IfOk result (λ image. image ≡ entry_image plain.now entry.function entry.argument instructions words) }
{
    Ok(RunImage {
        method: method_number(plain, entry.function),
        instructions,
        words,
        depth: 1,
        registers: u32::from(plain.main.registers),
        statuses: List::from_vec(vec![in alloc; STARTED]?),
        args: List::from_vec(vec![in alloc; Value::Int(entry.argument)]?),
        statics: List::new(alloc),
        literals: List::new(alloc),
        constants: List::new(alloc),
        objects: List::from_vec(vec![in alloc; Object::Out]?),
    })
}

/// What a method's end gives: a number, or why the run stops. No image of another end is read.
fn value_back(ending: CallEnd) -> Result<i32, StopCause>
    ensures { result ≡ value_back ending }
{
    match ending {
        CallEnd::Returned(Some(Value::Int(number))) => Ok(number),
        CallEnd::Returned(_) | CallEnd::Thrown(_) => Ok(0),
        CallEnd::Stopped(cause) => Err(cause),
    }
}

/// What a call came to by the image of its end.
pub(crate) fn came_of(back: &BackImage) -> Came
    ensures { result ≡ record { value = value_back back.now.ending; instructions = back.now.instructions; words = back.now.words } }
{
    Came {
        value: value_back(back.ending),
        instructions: back.instructions,
        words: back.words,
    }
}
