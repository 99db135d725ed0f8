//! The run of a plain file within limits.

ghost use Rattle.std.specs.Prelude.{◌≡◌, IfOk};
ghost use Rattle.cc_meaning_plain.specs.Staged.{plain_report};
ghost use Rattle.cc_machine.specs.Running.{all_gone};

use crate::machine::Machine;
use crate::progress::Pause;
use cc_meaning::report::{Limits, Report};
use cc_meaning_plain::Plain;
use std::alloc::{AllocError, Global};

/// Goes on from the beginning until the run pauses, which it does at its end alone.
fn go_through(alloc: Global, plain: &Plain, machine: &mut Machine) -> Result<Pause, AllocError>
    requires { machine.old.next ≡ 0 }
    ensures { IfOk result (λ pause. record { pause = pause; progress = machine.new } ≡ all_gone plain.now machine.old) }
{
    match machine.begin() {
        Some(pause) => Ok(pause),
        None => machine.run(alloc, plain, None),
    }
}

/// The report of a plain file's run, without arguments, within limits. Only want of memory makes it fail.
pub fn run(alloc: Global, plain: &Plain, limits: Limits) -> Result<Report, AllocError>
    ensures { IfOk result (λ report. report ≡ plain_report plain.now limits) }
{
    let mut machine = Machine::start(alloc, plain, limits)?;
    match go_through(alloc, plain, &mut machine)? {
        Pause::Done(ending) => Ok(machine.report(alloc, limits, ending)),
        Pause::AtEntry(_) => unreachable!(),
    }
}
