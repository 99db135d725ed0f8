//! A sink in memory.

use crate::failing::next_fails;
use crate::sink::{Sink, WriteFailed};
use cc_meaning::fault::Memory;
use cc_meaning::lists::CallList;
use std::alloc::Global;
use std::marker::Model;

/// What was written, of which some calls fail: those that are listed by their numbers, from 0. Calls for room aren't counted.
#[derive(Drop)]
pub struct MemorySink {
    bytes: Vec<u8>,
    spare: usize,
    fails: CallList,
    calls: u64,
    faults: u64,
}

impl Model for MemorySink {
    ghost use Rattle.std.specs.Prelude.{◌≡◌, ◌≤◌, ◌+◌, [], vec_len, vec_capacity};
    ghost use Rattle.cc_outside.specs.TextInMemory.{MemoryText};

    ghost Value = { MemoryText };

    ghost view = { λ s. record { bytes = s.bytes.items; fails = s.fails; calls = s.calls; faults = s.faults; spare = s.spare } };

    ghost invariant = { λ s. (vec_len s.bytes + s.spare ≤ vec_capacity s.bytes) × (s.fails ≡ [] → s.faults ≡ 0) };
}

impl MemorySink {
    ghost use Rattle.std.specs.Prelude.{◌≡◌, []};

    /// A sink on which nothing was written. The listed calls will fail, and no others.
    pub fn new(alloc: Global, fails: CallList) -> MemorySink
        ensures { result ≡ record { bytes = []; fails = fails; calls = 0; faults = 0; spare = 0 } }
    {
        MemorySink {
            bytes: Vec::new(alloc),
            spare: 0,
            fails,
            calls: 0,
            faults: 0,
        }
    }

    /// What was written.
    pub fn bytes(&self) -> &[u8]
        ensures { result.now ≡ self.now.bytes }
    {
        &self.bytes
    }
}

impl Sink for MemorySink {
    ghost use Rattle.std.specs.Prelude.{◌≡◌, ◌≤◌, length, max, OnOk, OnErr};
    ghost use Rattle.cc_outside.specs.Sinks.{Pipe, Takes};
    ghost use Rattle.cc_outside.specs.TextInMemory.{pipe_of, TakesInMemory, IsCalm};

    ghost pipe = { pipe_of };

    fn reserve(&mut self, bytes: usize) -> Result<(), Memory>
        ensures room { OnOk result (bytes ≤ self.new.spare) }
        ensures text { (pipe_of self.new).text ≡ (pipe_of self.old).text }
        ensures faults { self.old.faults ≤ self.new.faults }
        ensures ok { OnOk result (self.new ≡ record self.old { spare = max self.old.spare bytes }) }
        ensures err { OnErr result (self.new ≡ self.old) }
        ensures calm { IsCalm self.new }
    {
        let Ok(()) = self.bytes.reserve(bytes) else {
            return Err(Memory);
        };
        self.spare = self.spare.max(bytes);
        Ok(())
    }

    fn write(&mut self, bytes: &[u8]) -> Result<usize, WriteFailed>
        requires { length bytes.now ≤ self.old.spare }
        ensures takes { Takes (pipe_of self.old) bytes.now result (pipe_of self.new) }
        ensures faults { self.old.faults ≤ self.new.faults }
        ensures exact { TakesInMemory self.old bytes.now result self.new }
        ensures calm { IsCalm self.new }
    {
        if next_fails(&self.fails, &mut self.calls) {
            self.faults = self.faults.saturating_add(1);
            return Err(WriteFailed);
        }
        self.bytes.extend_from_slice(bytes).unwrap();
        self.spare -= bytes.len();
        Ok(bytes.len())
    }
}
