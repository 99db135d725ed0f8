//! A plan is carried out.

ghost use Rattle.std.specs.Prelude.{◌≡◌, ◌≢◌, ◌≤◌, [], length, OnOk};
ghost use Rattle.cc_output.specs.Carrying.{write_fault_line, WritesAll, AsPlanned, Ends};

use crate::plan::Plan;
use cc_meaning::fault::Memory;
use cc_outside::{Sink, WriteFailed};

/// The line on notes that says that out wasn't written whole.
fn write_fault_line() -> &'static [u8]
    ensures { result.now ≡ write_fault_line }
{
    b"fault 72 WriteFault\n"
}

/// Writes all of a text for which there is room.
fn write_all<W: Sink>(sink: &mut W, text: &[u8]) -> Result<(), WriteFailed>
    requires { length text.now ≤ (W.pipe sink.old).spare }
    ensures writes { WritesAll text.now (W.pipe sink.old) result (W.pipe sink.new) }
    ensures faults { (W.pipe sink.old).faults ≤ (W.pipe sink.new).faults }
{
    let mut rest = text;
    'writing: while !rest.is_empty() {
        let count = sink.write(rest)?;
        rest = rest.split_at(count).1;
    }
    Ok(())
}

/// Writes all of a text for which there is room. Where there is no text, the sink is left alone.
fn write_text<W: Sink>(sink: &mut W, text: &[u8]) -> Result<(), WriteFailed>
    requires { length text.now ≤ (W.pipe sink.old).spare }
    ensures writes { WritesAll text.now (W.pipe sink.old) result (W.pipe sink.new) }
    ensures faults { (W.pipe sink.old).faults ≤ (W.pipe sink.new).faults }
    ensures alone { text.now ≡ [] → sink.new ≡ sink.old }
{
    if text.is_empty() {
        return Ok(());
    }
    write_all(sink, text)
}

/// Makes room for so many bytes. A sink on which nothing is to be written is left alone.
fn make_room<W: Sink>(sink: &mut W, bytes: usize) -> Result<(), Memory>
    ensures room { OnOk result (bytes ≤ (W.pipe sink.new).spare) }
    ensures text { (W.pipe sink.new).text ≡ (W.pipe sink.old).text }
    ensures faults { (W.pipe sink.old).faults ≤ (W.pipe sink.new).faults }
    ensures alone { bytes ≡ 0 → sink.new ≡ sink.old }
{
    if bytes == 0 {
        return Ok(());
    }
    sink.reserve(bytes)
}

/// Makes room on both sinks, writes the text for out and then the text for notes, and gives the plan's status.
/// Where there is no room it gives 70, and where a sink fails 72. Where there is no text for out, no call is made on it.
pub fn carry_out<O: Sink, N: Sink>(plan: &Plan, out: &mut O, notes: &mut N) -> u8
    ensures ends { Ends plan.now (O.pipe out.old) (N.pipe notes.old) result (O.pipe out.new) (N.pipe notes.new) }
    // 0, as each status but 70 and 72, says that all was written.
    ensures all { result ≢ 70 → result ≢ 72 → AsPlanned plan.now (O.pipe out.old) (N.pipe notes.old) result (O.pipe out.new) (N.pipe notes.new) }
    ensures alone { plan.now.out ≡ [] → out.new ≡ out.old }
    ensures out { (O.pipe out.old).faults ≤ (O.pipe out.new).faults }
    ensures notes { (N.pipe notes.old).faults ≤ (N.pipe notes.new).faults }
{
    let line = write_fault_line();
    let Ok(()) = make_room(out, plan.out.len()) else {
        return 70;
    };
    let Ok(()) = make_room(notes, plan.notes.len().max(line.len())) else {
        return 70;
    };
    let Ok(()) = write_text(out, plan.out.as_slice()) else {
        let _ = write_all(notes, line);
        return 72;
    };
    let Ok(()) = write_text(notes, plan.notes.as_slice()) else {
        return 72;
    };
    plan.status
}
