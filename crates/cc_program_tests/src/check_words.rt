//! The words of `check`.

use cc_command_check::{CheckCall, check_help, read_check, version};
use cc_meaning::fault::Memory;
use std::alloc::{AllocError, Global};
use std::test::Fail;

/// The words of a line, cut at blanks.
fn words_of(alloc: Global, line: &str) -> Result<Vec<String>, AllocError> {
    let mut words = Vec::new(alloc);
    for word in line.split_whitespace() {
        words.push(word.to_string(alloc)?)?;
    }
    Ok(words)
}

/// What the words of a line call for, in a word, the file and the main class.
fn called(alloc: Global, line: &str) -> Result<String, Memory> {
    let words = words_of(alloc, line)?;
    match read_check(alloc, words.as_slice())? {
        CheckCall::Check { file, main } => {
            let main = main.unwrap_or("none");
            Ok(format!(in alloc; "check {file} {main}")?)
        }
        CheckCall::Help => Ok("help".to_string(alloc)?),
        CheckCall::Version => Ok("version".to_string(alloc)?),
        CheckCall::Faulty => Ok("faulty".to_string(alloc)?),
    }
}

#[test]
fn lines(rt: HostRuntime) -> Result<(), Fail> {
    let alloc = rt.alloc();
    let rows = [
        ("check a.dex", "check a.dex none"),
        ("check a.dex --main LA;", "check a.dex LA;"),
        ("check --main LA; a.dex", "check a.dex LA;"),
        ("check --main=LA; a.dex", "check a.dex LA;"),
        ("check -- --main", "check --main none"),
        ("check --help", "help"),
        ("check -h a.dex", "help"),
        ("check --version", "version"),
        ("check -V", "version"),
        ("check", "faulty"),
        ("check a.dex b.dex", "faulty"),
        ("check a.dex --main", "faulty"),
        ("check --main LA; --main LB; a.dex", "faulty"),
        ("check a.dex --words 5", "faulty"),
    ];
    for (line, wanted) in rows {
        assert!(rt; called(alloc, line)?.as_str() == wanted);
    }
    Ok(())
}

#[test]
fn texts(rt: HostRuntime) -> Result<(), Fail> {
    assert!(rt; version() == b"clonecloud 0.1.0\n".as_slice());
    assert!(rt;
        check_help().ends_with(b"Usage: clonecloud check [--main CLASS] FILE\n".as_slice())
    );
    Ok(())
}
