//! What reading comes to.

use crate::draft::Draft;
use cc_dexcode::read_classes;
use cc_dexids::read_ids;
use cc_meaning::fault::DexFault;
use cc_meaning::file::RawClasses;
use std::alloc::{AllocError, Global};
use std::process::Abort;
use std::test::Fail;

/// The classes of a file, or its first fault.
pub fn read(alloc: Global, bytes: &[u8]) -> Result<RawClasses, DexFault> {
    let ids = read_ids(alloc, bytes)?;
    read_classes(alloc, bytes, &ids)
}

/// The classes of a changed file, or its first fault.
pub fn read_draft(draft: Draft) -> Result<RawClasses, DexFault> {
    let alloc = draft.alloc();
    let bytes = draft.sealed();
    read(alloc, bytes.as_slice())
}

/// What reading a changed file comes to: the fault as it is shown, or nothing.
fn outcome(draft: Draft) -> Result<String, AllocError> {
    let alloc = draft.alloc();
    match read_draft(draft) {
        Ok(_) => Ok(String::new(alloc)),
        Err(fault) => format!(in alloc; "{fault:?}"),
    }
}

/// Tries that reading a changed file comes to this fault, or to none where the word is empty.
pub fn expect_fault(rt: &impl Abort, draft: Draft, want: &str) -> Result<(), Fail> {
    assert_eq!(rt; outcome(draft)?.as_str(), want);
    Ok(())
}
