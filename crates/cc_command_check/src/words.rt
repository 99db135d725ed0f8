//! The words of `check`.

ghost use Rattle.std.specs.Prelude.{◌≡◌, IfOk, codes, string_bytes, map};
ghost use Rattle.clap.specs.Words.{app_of, takes, kind_of};
ghost use Rattle.cc_command_check.specs.CheckLine.{check_app, CallsFor, OneCall};
ghost use Rattle.cc_command_check.specs.Calls.{call_of};
ghost use Rattle.cc_command_check.specs.Ends.{IsEnd};
ghost use Rattle.cc_command_check.specs.Given.{Gives};

use cc_meaning::fault::Memory;
use clap::error::ErrorKind;
use clap::{Arg, ArgAction, Command, Error};
use std::alloc::{AllocError, Global};

/// What the words of `check` call for.
#[derive(Clone, Copy)]
pub enum CheckCall<'a> {
    /// A file is to be checked: by its name, and with the descriptor of its main class, as `Lc;`, where one is named.
    Check {
        file: &'a str,
        main: Option<&'a str>,
    },
    /// Help is to be shown.
    Help,
    /// The version is to be shown.
    Version,
    /// There is a mistake in the words.
    Faulty,
}

fn check_command<'a>(alloc: Global) -> Result<Command<'a>, AllocError>
    ensures app { IfOk result (λ command. app_of command ≡ check_app) }
    ensures gives { IfOk result (Gives (codes "file")) }
{
    let file = Arg::new(alloc, "file")
        .required(true)
        .action(ArgAction::Set);
    let main = Arg::new(alloc, "main").long("main").action(ArgAction::Set);
    Command::new(alloc, "check")
        .version("0.1.0")
        .arg(file)?
        .arg(main)
}

/// What an end without values comes to.
fn call_at<'a>(error: &Error) -> Result<CheckCall<'a>, Memory>
    ensures { IsEnd (kind_of error.now) result }
{
    match error.kind() {
        ErrorKind::OutOfMemory => Err(Memory),
        ErrorKind::DisplayHelp => Ok(CheckCall::Help),
        ErrorKind::DisplayVersion => Ok(CheckCall::Version),
        _ => Ok(CheckCall::Faulty),
    }
}

/// Reads the words `check FILE [--main CLASS]`, the first of which is the command's name.
pub fn read_check<'a>(alloc: Global, words: &'a [String]) -> Result<CheckCall<'a>, Memory>
    ensures { IfOk result (λ call. CallsFor (map string_bytes words.entry.now) (call_of call)) }
{
    let Ok(command) = check_command(alloc) else {
        return Err(Memory);
    };
    let matches = match command.try_get_matches_from(words) {
        Ok(matches) => matches,
        Err(error) => return call_at(&error),
    };
    Ok(CheckCall::Check {
        file: matches.get_str("file").unwrap(),
        main: matches.get_str("main"),
    })
}

/// Words call for one thing.
pub fn law_one_call()
    ensures { OneCall }
{}
