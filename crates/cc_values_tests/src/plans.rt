//! Plans, carried out over sinks that fail, that are slow, and that have no room.

ghost use Rattle.std.specs.Prelude.{ℕ, ◌+◌, ◌≤◌, vec_len, vec_capacity};

use cc_meaning::fault::Memory;
use cc_meaning::lists::{Bytes, CallList};
use cc_output::{Plan, carry_out};
use cc_outside::{MemorySink, Sink, WriteFailed};
use std::alloc::{AllocError, Global};
use std::test::Fail;

/// A sink that takes two bytes at a time, and fails once it took so many times.
#[derive(Drop)]
struct SlowSink {
    bytes: Vec<u8>,
    spare: usize,
    left: u64,
    faults: u64,
    ghost room: { vec_len bytes + spare ≤ vec_capacity bytes },
}

impl Sink for SlowSink {
    ghost use Rattle.std.specs.Prelude.{Some};
    ghost use Rattle.cc_outside.specs.Sinks.{Pipe};

    ghost pipe = { λ s. record { text = Some s.bytes.items; faults = s.faults; spare = s.spare } };

    fn reserve(&mut self, bytes: usize) -> Result<(), Memory> {
        let Ok(()) = self.bytes.reserve(bytes) else {
            return Err(Memory);
        };
        self.spare = self.spare.max(bytes);
        Ok(())
    }

    fn write(&mut self, bytes: &[u8]) -> Result<usize, WriteFailed> {
        if self.left == 0 {
            self.faults = self.faults.saturating_add(1);
            return Err(WriteFailed);
        }
        let front = bytes.split_at(bytes.len().min(2)).0;
        self.bytes.extend_from_slice(front).unwrap();
        self.spare -= front.len();
        self.left -= 1;
        Ok(front.len())
    }
}

/// A sink that has no room, and tells nothing.
#[derive(Drop)]
struct FullSink;

impl Sink for FullSink {
    ghost use Rattle.std.specs.Prelude.{None};
    ghost use Rattle.cc_outside.specs.Sinks.{Pipe};

    ghost pipe = { λ _. record { text = None; faults = 0; spare = 0 } };

    fn reserve(&mut self, bytes: usize) -> Result<(), Memory> {
        if bytes == 0 { Ok(()) } else { Err(Memory) }
    }

    fn write(&mut self, bytes: &[u8]) -> Result<usize, WriteFailed> {
        Ok(bytes.len())
    }
}

fn plan_of(alloc: Global, out: &str, notes: &str) -> Result<Plan, AllocError> {
    Ok(Plan {
        status: 1,
        out: Bytes::from_slice(alloc, out.as_bytes())?,
        notes: Bytes::from_slice(alloc, notes.as_bytes())?,
    })
}

/// Carries a plan out over sinks in memory, of which the listed calls fail.
fn is_carried_out(
    alloc: Global,
    texts: (&str, &str),
    fails: (&[u64], &[u64]),
    wanted: (u8, &str, &str),
) -> Result<bool, AllocError> {
    let plan = plan_of(alloc, texts.0, texts.1)?;
    let mut out = MemorySink::new(alloc, CallList::from_slice(alloc, fails.0)?);
    let mut notes = MemorySink::new(alloc, CallList::from_slice(alloc, fails.1)?);
    let status = carry_out(&plan, &mut out, &mut notes);
    Ok(
        status == wanted.0
            && out.bytes() == wanted.1.as_bytes()
            && notes.bytes() == wanted.2.as_bytes(),
    )
}

#[test]
fn over_sinks_in_memory(rt: HostRuntime) -> Result<(), Fail> {
    let alloc = rt.alloc();
    let texts = ("7\n", "end return\n");
    let line = "fault 72 WriteFault\n";
    let none: &[u64] = &[];
    let first: &[u64] = &[0];
    assert!(rt; is_carried_out(alloc, texts, (none, none), (1, "7\n", "end return\n"))?);
    assert!(rt; is_carried_out(alloc, texts, (first, none), (72, "", line))?);
    assert!(rt; is_carried_out(alloc, texts, (none, first), (72, "7\n", ""))?);
    assert!(rt; is_carried_out(alloc, texts, (first, first), (72, "", ""))?);
    assert!(rt; is_carried_out(alloc, ("", "x"), (first, none), (1, "", "x"))?);
    assert!(rt; is_carried_out(alloc, ("x", ""), (none, first), (1, "x", ""))?);
    Ok(())
}

/// A sink that takes two bytes at a time, so many times.
fn slow(alloc: Global, left: u64) -> SlowSink {
    SlowSink {
        bytes: Vec::new(alloc),
        spare: 0,
        left,
        faults: 0,
    }
}

#[test]
fn over_slow_sinks(rt: HostRuntime) -> Result<(), Fail> {
    let alloc = rt.alloc();
    let plan = plan_of(alloc, "seven", "end")?;
    let (mut out, mut notes) = (slow(alloc, 3), slow(alloc, 2));
    assert_eq!(rt; carry_out(&plan, &mut out, &mut notes), 1);
    assert!(rt; out.bytes.as_slice() == b"seven".as_slice());
    assert!(rt; notes.bytes.as_slice() == b"end".as_slice());
    let (mut out, mut notes) = (slow(alloc, 2), slow(alloc, 3));
    assert_eq!(rt; carry_out(&plan, &mut out, &mut notes), 72);
    assert!(rt; out.bytes.as_slice() == b"seve".as_slice());
    assert!(rt; notes.bytes.as_slice() == b"fault ".as_slice());
    Ok(())
}

#[test]
fn without_room(rt: HostRuntime) -> Result<(), Fail> {
    let alloc = rt.alloc();
    let plan = plan_of(alloc, "seven", "")?;
    let mut other = MemorySink::new(alloc, CallList::new(alloc));
    assert_eq!(rt; carry_out(&plan, &mut FullSink, &mut other), 70);
    assert_eq!(rt; carry_out(&plan, &mut other, &mut FullSink), 70);
    assert!(rt; other.bytes().is_empty());
    Ok(())
}
