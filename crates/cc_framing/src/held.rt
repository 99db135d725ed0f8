//! The bytes of the present frame.

ghost use Rattle.std.specs.Prelude.{◌≡◌, ◌<◌, ◌≤◌, ◌+◌, ◌^◌, ◌++◌, [], length, take, drop, slice_index, OnOk, OnErr};

use arrayvec::ArrayVec;
use std::alloc::{AllocError, Global};
use std::marker::Model;
use std::mem;

/// How many bytes stand before a frame's payload.
pub(crate) const PRELUDE: usize = 25;

/// The bytes of a frame that came. The payload stands apart, so that it can be taken without a copy.
#[derive(Drop)]
pub(crate) struct Held {
    prelude: ArrayVec<u8, 25>,
    payload: Vec<u8>,
}

impl Model for Held {
    ghost use Rattle.std.specs.Prelude.{◌≡◌, ◌<◌, ◌≤◌, ℕ, List, [], ◌++◌, length};

    ghost Value = { List ℕ };

    ghost view = { λ a. a.prelude.items ++ a.payload.items };

    ghost invariant = { λ a. (length a.prelude.items ≤ 25) × (length a.prelude.items < 25 → a.payload.items ≡ []) };
}

impl Held {
    pub(crate) fn new(alloc: Global) -> Held
        ensures { result ≡ [] }
    {
        Held {
            prelude: ArrayVec::new(),
            payload: Vec::new(alloc),
        }
    }

    pub(crate) fn len(&self) -> usize
        ensures value { result ≡ length self.now }
        ensures fits { length self.now < 2 ^ 63 + 25 }
    {
        self.prelude.len() + self.payload.len()
    }

    /// A byte before the payload.
    pub(crate) fn byte(&self, place: usize) -> u8
        requires within { place < length self.now }
        requires front { place < PRELUDE }
        ensures { result ≡ slice_index self.now place }
    {
        self.prelude.as_slice()[place]
    }

    /// Adds bytes at the end.
    pub(crate) fn append(&mut self, piece: &[u8]) -> Result<(), AllocError>
        ensures ok { OnOk result (self.new ≡ self.old ++ piece.now) }
        ensures err { OnErr result (self.new ≡ self.old) }
    {
        let room = PRELUDE - self.prelude.len();
        if piece.len() <= room {
            let _ = self.prelude.try_extend_from_slice(piece);
            return Ok(());
        }
        let (front, back) = piece.split_at(room);
        self.payload.extend_from_slice(back)?;
        let _ = self.prelude.try_extend_from_slice(front);
        Ok(())
    }

    /// The bytes before the payload.
    pub(crate) fn prelude(&self) -> &[u8]
        requires { PRELUDE ≤ length self.now }
        ensures { result.now ≡ take PRELUDE self.now }
    {
        self.prelude.as_slice()
    }

    /// The payload, as far as it came.
    pub(crate) fn payload(&self) -> &[u8]
        requires { PRELUDE ≤ length self.now }
        ensures { result.now ≡ drop PRELUDE self.now }
    {
        self.payload.as_slice()
    }

    /// Takes the payload. No byte is left.
    pub(crate) fn take_payload(&mut self) -> Vec<u8>
        requires { PRELUDE ≤ length self.old }
        ensures payload { result.items ≡ drop PRELUDE self.old }
        ensures rest { self.new ≡ [] }
    {
        let empty = Vec::new(*self.payload.allocator());
        self.prelude.clear();
        mem::replace(&mut self.payload, empty)
    }

    /// Gives all bytes up.
    pub(crate) fn clear(&mut self)
        ensures { self.new ≡ [] }
    {
        self.prelude.clear();
        self.payload = Vec::new(*self.payload.allocator());
    }
}
