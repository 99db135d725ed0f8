//! How a run ended, in words and as a status.

ghost use Rattle.std.specs.Prelude.{◌≡◌, Option};
ghost use Rattle.std.specs.Option.{option_map};
ghost use Rattle.cc_output.specs.Travel.{stopped_line, ended_line, ended_status};

use cc_meaning::report::{Ending, StopCause};

/// The line of a run that stopped, where it needs no name.
fn stopped_line(cause: StopCause) -> Option<&'static [u8]>
    ensures { option_map (λ line. line.now) result ≡ stopped_line cause }
{
    match cause {
        StopCause::Budget => Some(b"end stop budget\n"),
        StopCause::Heap => Some(b"end stop heap\n"),
        StopCause::ScriptEnd { .. } | StopCause::ScriptOther { .. } => None,
    }
}

/// The line of a run that ended so, where it needs no name: `end return`, `end stop budget` or `end stop heap`.
pub fn ended_line(ending: &Ending) -> Option<&'static [u8]>
    ensures { option_map (λ line. line.now) result ≡ ended_line ending.now }
{
    match ending {
        Ending::Returned => Some(b"end return\n"),
        Ending::Thrown { .. } => None,
        Ending::Stopped(cause) => stopped_line(*cause),
    }
}

/// The status after a run: 0 where it returned, 1 where it threw, 2 where it stopped.
pub fn ended_status(ending: &Ending) -> u8
    ensures { result ≡ ended_status ending.now }
{
    match ending {
        Ending::Returned => 0,
        Ending::Thrown { .. } => 1,
        Ending::Stopped(_) => 2,
    }
}
