//! CloneCloud: the one call, over the disk, the standard streams and no link.
#![tactic(auto)]

mod disk;
mod stream;

use crate::disk::DiskShelf;
use crate::stream::StreamSink;
use cc_cli::run_words;
use cc_link::{CannedEnd, CannedLink};
use cc_meaning::lists::Bytes;
use std::alloc::{AllocError, Global};
use std::process::ExitCode;
use std::rt::Env;
use std::{env, io};

/// The status where the words can't be taken in for want of memory.
const NO_MEMORY: u8 = 70;

/// The words behind the program's name. There are none where a word isn't UTF-8, which is no command either.
fn words(rt: &(impl Env + AllocGlobal)) -> Result<Vec<String>, AllocError> {
    let args = match env::args(rt) {
        Ok(args) => args,
        Err(fault) if fault.kind() == io::ErrorKind::OutOfMemory => return Err(AllocError),
        Err(_) => return Ok(Vec::new(rt.alloc())),
    };
    let mut words = Vec::new(rt.alloc());
    for word in args.skip(1) {
        words.push(word)?;
    }
    Ok(words)
}

fn main(rt: HostRuntime) -> ExitCode {
    let alloc: Global = rt.alloc();
    let Ok(words) = words(&rt) else {
        return ExitCode::from(NO_MEMORY);
    };
    let mut shelf = DiskShelf::new(alloc, &rt);
    let mut out = StreamSink::new(rt.stdout());
    let mut notes = StreamSink::new(rt.stderr());
    let mut link = CannedLink::new(alloc, Bytes::new(alloc), CannedEnd::End);
    ExitCode::from(run_words(alloc, &words, &mut shelf, &mut out, &mut notes, &mut link))
}
