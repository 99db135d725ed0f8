//! A standard stream as a sink.

use cc_meaning::fault::Memory;
use cc_outside::{Sink, WriteFailed};
use std::io::Write;

/// A stream that is written to. It counts what fails, and tells no content.
#[derive(Drop)]
pub struct StreamSink<W> {
    stream: W,
    spare: usize,
    faults: u64,
}

impl<W: Write> StreamSink<W> {
    pub fn new(stream: W) -> StreamSink<W> {
        StreamSink {
            stream,
            spare: 0,
            faults: 0,
        }
    }
}

impl<W: Write> Sink for StreamSink<W> {
    ghost use Rattle.std.specs.Prelude.{None};
    ghost use Rattle.cc_outside.specs.Sinks.{Pipe, Takes};

    ghost pipe = { λ s. record { text = None; faults = s.faults; spare = s.spare } };

    fn reserve(&mut self, bytes: usize) -> Result<(), Memory> {
        self.spare = self.spare.max(bytes);
        Ok(())
    }

    fn write(&mut self, bytes: &[u8]) -> Result<usize, WriteFailed> {
        match self.stream.write(bytes) {
            Ok(count) if count > 0 || bytes.is_empty() => {
                self.spare -= count;
                Ok(count)
            }
            _ => {
                self.faults = self.faults.saturating_add(1);
                Err(WriteFailed)
            }
        }
    }
}
