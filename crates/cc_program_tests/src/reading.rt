//! What reading comes to, as a text.

use cc_meaning::fault::ProgramFault;
use cc_meaning_program::ReadFault;
use cc_program::read_dex;
use std::alloc::{AllocError, Global};
use std::process::Abort;
use std::test::Fail;

/// The text of units of ASCII.
pub fn text(alloc: Global, units: &[u16]) -> Result<String, AllocError> {
    let mut text = String::new(alloc);
    for unit in units {
        text.push(char::from((*unit % 128) as u8))?;
    }
    Ok(text)
}

fn shown_program(alloc: Global, fault: &ProgramFault) -> Result<String, AllocError> {
    match fault {
        ProgramFault::HierarchyCycle { class } => {
            let class = text(alloc, class.as_slice())?;
            format!(in alloc; "HierarchyCycle {class}")
        }
        ProgramFault::NoSuperclass { class } => {
            let class = text(alloc, class.as_slice())?;
            format!(in alloc; "NoSuperclass {class}")
        }
        ProgramFault::Duplicate { class } => {
            let class = text(alloc, class.as_slice())?;
            format!(in alloc; "Duplicate {class}")
        }
        other => shown_body(alloc, other),
    }
}

fn shown_body(alloc: Global, fault: &ProgramFault) -> Result<String, AllocError> {
    match fault {
        ProgramFault::FloatMember { name } => {
            let name = text(alloc, name.as_slice())?;
            format!(in alloc; "FloatMember {name}")
        }
        ProgramFault::BadIndex { method, pc } => {
            let method = text(alloc, method.as_slice())?;
            format!(in alloc; "BadIndex {method} {pc}")
        }
        other => format!(in alloc; "{other:?}"),
    }
}

fn shown(alloc: Global, fault: &ReadFault) -> Result<String, AllocError> {
    match fault {
        ReadFault::Dex(fault) => format!(in alloc; "Dex {fault:?}"),
        ReadFault::Program(fault) => shown_program(alloc, fault),
        ReadFault::Memory => format!(in alloc; "Memory"),
    }
}

/// Tries that reading a file comes to this fault, or to none where the word is empty.
pub fn expect(
    rt: &impl Abort,
    alloc: Global,
    file: &[u8],
    main: Option<&str>,
    want: &str,
) -> Result<(), Fail> {
    let found = match read_dex(alloc, file, main) {
        Ok(_) => String::new(alloc),
        Err(fault) => shown(alloc, &fault)?,
    };
    assert_eq!(rt; found.as_str(), want);
    Ok(())
}
