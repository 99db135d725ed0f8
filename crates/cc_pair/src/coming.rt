//! What befalls a link, one after the other.

use cc_meaning::travel::{Happening, Happenings};
use std::marker::Model;

/// The happenings that are still to come.
#[derive(Drop)]
pub(crate) struct Coming {
    list: Vec<Happening>,
    next: usize,
}

impl Model for Coming {
    ghost use Rattle.std.specs.Prelude.{◌≤◌, List, length, drop};
    ghost use Rattle.cc_meaning.specs.declared.travel.Happening.{Happening};

    ghost Value = { List Happening };

    ghost view = { λ s. drop s.next s.list.items };

    ghost invariant = { λ s. s.next ≤ length s.list.items };
}

impl Coming {
    ghost use Rattle.std.specs.Prelude.{◌≡◌, ◌<◌, length, drop, slice_get};

    /// These, the next first.
    pub(crate) fn new(list: Happenings) -> Coming
        ensures { result ≡ list }
    {
        Coming {
            list: list.into_vec(),
            next: 0,
        }
    }

    /// The next one.
    pub(crate) fn first(&self) -> Option<Happening>
        ensures { result ≡ slice_get self.now 0 }
    {
        self.list.get(self.next).copied()
    }

    /// Takes it off.
    pub(crate) fn take_first(&mut self)
        requires { 0 < length self.old }
        ensures { self.new ≡ drop 1 self.old }
    {
        self.next += 1;
    }
}
