//! What a file has, as it is printed.

ghost use Rattle.std.specs.Prelude.{◌≡◌, ◌++◌, IfOk, OnOk};
ghost use Rattle.std.specs.Fmt.{decimal};
ghost use Rattle.cc_command_check.specs.Plans.{summary_line, summary_plan};

use cc_check::Summary;
use cc_meaning::lists::Bytes;
use cc_output::Plan;
use std::alloc::{AllocError, Global};

/// Adds words and a number in decimal.
fn put_number(
    alloc: Global,
    line: &mut Vec<u8>,
    words: &[u8],
    number: u64,
) -> Result<(), AllocError>
    ensures { OnOk result (line.new.items ≡ line.old.items ++ (words.now ++ decimal number)) }
{
    let digits = number.to_string(alloc)?;
    line.extend_from_slice(words)?;
    line.extend_from_slice(digits.as_bytes())
}

/// The line `classes C, methods M, units U`.
fn summary_line(alloc: Global, summary: Summary) -> Result<Bytes, AllocError>
    ensures { IfOk result (λ line. line ≡ summary_line summary) }
{
    let mut line = Vec::new(alloc);
    put_number(alloc, &mut line, b"classes ", summary.classes as u64)?;
    put_number(alloc, &mut line, b", methods ", summary.methods as u64)?;
    put_number(alloc, &mut line, b", units ", summary.units)?;
    line.push(b'\n')?;
    Ok(Bytes::from_vec(line))
}

/// The status 0, and that line for out.
pub(crate) fn summary_plan(alloc: Global, summary: Summary) -> Result<Plan, AllocError>
    ensures { IfOk result (λ plan. plan ≡ summary_plan summary) }
{
    Ok(Plan {
        status: 0,
        out: summary_line(alloc, summary)?,
        notes: Bytes::new(alloc),
    })
}
