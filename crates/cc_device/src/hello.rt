//! The Hello of a job.

ghost use Rattle.std.specs.Prelude.{◌≡◌, ◌↔◌, ◌++◌, ◌≤◌, ◌<◌, ◌^◌, length, IsTrue, IfOk, OnOk};
ghost use Rattle.cc_meaning_clone.specs.Hello.{with_length};
ghost use Rattle.cc_device.specs.Travelling.{main_of, hello_payload, hello_bytes};

use cc_framing::frame;
use cc_meaning::fault::Memory;
use cc_meaning::file::Job;
use cc_meaning::frame::{HELLO, VERSION};
use cc_meaning::lists::Bytes;
use cc_meaning::text::Text;
use std::alloc::{AllocError, Global};

/// The name of the main class, empty where none is named.
fn main_name(main: &Option<Text>) -> &[u8]
    ensures { result.now ≡ main_of main.now }
{
    match main {
        Some(name) => name.as_bytes(),
        None => b"",
    }
}

/// The longest payload of a frame, in bytes.
const LONGEST_PAYLOAD: usize = 67_108_864;

/// Whether the Hello of a job fits a frame, whose payload has at most 67,108,864 bytes. Takes no memory.
#[tactic(auto, unfolding(crate::specs::Travelling::hello_payload))]
pub fn hello_fits(job: &Job) -> bool
    ensures { IsTrue result ↔ (length (hello_payload job.now) ≤ 67108864) }
{
    let texts = main_name(&job.main)
        .len()
        .saturating_add(job.file.len())
        .saturating_add(job.script.len());
    texts <= LONGEST_PAYLOAD - 13
}

/// Adds a text with its length in four bytes before it.
fn put_text(bytes: &mut Vec<u8>, text: &[u8]) -> Result<(), AllocError>
    requires { length text.now < 2 ^ 32 }
    ensures { OnOk result (bytes.new.items ≡ bytes.old.items ++ with_length text.now) }
{
    bytes.extend_from_slice(&(text.len() as u32).to_be_bytes())?;
    bytes.extend_from_slice(text)
}

/// The payload of a job's Hello: the version, the main class, the file and the script.
#[tactic(auto, unfolding(crate::specs::Travelling::hello_payload))]
fn payload(alloc: Global, job: &Job) -> Result<Vec<u8>, AllocError>
    requires { length (hello_payload job.now) ≤ 67108864 }
    ensures { IfOk result (λ bytes. bytes.items ≡ hello_payload job.now) }
{
    let mut bytes = vec![in alloc; VERSION]?;
    put_text(&mut bytes, main_name(&job.main))?;
    put_text(&mut bytes, job.file.as_slice())?;
    put_text(&mut bytes, job.script.as_slice())?;
    Ok(bytes)
}

/// The frame of a job's Hello.
#[tactic(auto, unfolding(crate::specs::Travelling::hello_bytes))]
pub(crate) fn hello_frame(alloc: Global, job: &Job) -> Result<Bytes, Memory>
    requires { length (hello_payload job.now) ≤ 67108864 }
    ensures { IfOk result (λ bytes. bytes ≡ hello_bytes job.now) }
{
    let payload = payload(alloc, job)?;
    frame(alloc, HELLO, payload.as_slice())
}
