//! Bytes on one way.

use std::alloc::{AllocError, Global};
use std::marker::Model;

/// The bytes that went through, and behind them those that are on the way. All of them are kept.
#[derive(Drop)]
pub(crate) struct Pipe {
    bytes: Vec<u8>,
    at: usize,
}

impl Model for Pipe {
    ghost use Rattle.std.specs.Prelude.{◌≤◌, length, take, drop};
    ghost use Rattle.cc_pair.specs.Pairs.{Piped};

    ghost Value = { Piped };

    ghost view = { λ s. record { passed = take s.at s.bytes.items; waiting = drop s.at s.bytes.items } };

    ghost invariant = { λ s. s.at ≤ length s.bytes.items };
}

impl Pipe {
    ghost use Rattle.std.specs.Prelude.{◌≡◌, ◌≤◌, length, OnOk, OnErr};
    ghost use Rattle.cc_pair.specs.Pairs.{empty_pipe, put_behind, passed_on};

    /// No byte. Takes no memory.
    pub(crate) fn new(alloc: Global) -> Pipe
        ensures { result ≡ empty_pipe }
    {
        Pipe {
            bytes: Vec::new(alloc),
            at: 0,
        }
    }

    /// The bytes on the way.
    pub(crate) fn waiting(&self) -> &[u8]
        ensures { result.now ≡ self.now.waiting }
    {
        self.bytes.split_at(self.at).1
    }

    /// Puts bytes behind those on the way.
    pub(crate) fn put(&mut self, more: &[u8]) -> Result<(), AllocError>
        ensures ok { OnOk result (self.new ≡ put_behind more.now self.old) }
        ensures err { OnErr result (self.new ≡ self.old) }
    {
        self.bytes.extend_from_slice(more)
    }

    /// The first bytes on the way went through.
    pub(crate) fn pass(&mut self, count: usize)
        requires { count ≤ length self.old.waiting }
        ensures { self.new ≡ passed_on count self.old }
    {
        self.at += count;
    }
}
