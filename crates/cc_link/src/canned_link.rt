//! A link that gives stated bytes.

use crate::link::{Dialed, Got, Link, Sent};
use cc_meaning::lists::Bytes;
use std::alloc::Global;
use std::marker::Model;

/// What a link answers for good, once it has given its bytes.
#[derive(Clone, Copy, PartialEq, Eq, Debug)]
pub enum CannedEnd {
    NotYet,
    End,
}

/// A link that is up at each place, takes all that is sent, and gives stated bytes and then a stated end. It keeps what was sent, tells its bytes, and
/// tells nothing of its far side.
#[derive(Drop)]
pub struct CannedLink {
    alloc: Global,
    bytes: Bytes,
    at: usize,
    end: CannedEnd,
    sent: Vec<u8>,
    waits: u64,
    ends: u64,
    carried: u64,
}

impl Model for CannedLink {
    ghost use Rattle.std.specs.Prelude.{◌≤◌, length, take, drop};
    ghost use Rattle.cc_link.specs.CannedBytes.{Canned};

    ghost Value = { Canned };

    ghost view = { λ s. record {
      given = take s.at s.bytes;
      rest = drop s.at s.bytes;
      end = s.end;
      sent = s.sent.items;
      waits = s.waits;
      ends = s.ends;
      carried = s.carried;
    } };

    ghost invariant = { λ s. s.at ≤ length s.bytes };
}

impl CannedLink {
    ghost use Rattle.std.specs.Prelude.{◌≡◌, []};

    /// A link that will give these bytes and then this end.
    pub fn new(alloc: Global, bytes: Bytes, end: CannedEnd) -> CannedLink
        ensures { result ≡ record { given = []; rest = bytes; end = end; sent = []; waits = 0; ends = 0; carried = 0 } }
    {
        CannedLink {
            alloc,
            bytes,
            at: 0,
            end,
            sent: Vec::new(alloc),
            waits: 0,
            ends: 0,
            carried: 0,
        }
    }
}

impl Link for CannedLink {
    ghost use Rattle.std.specs.Prelude.{◌≡◌, ◌≢◌, ◌↔◌, ◌≤◌, ◌<◌, length};
    ghost use Rattle.cc_link.specs.Links.{Known, Counts, always_goes, any_answer, to_dial, to_send, to_receive, GoesOn, NeverFall, Dials, Sends, Gets};
    ghost use Rattle.cc_link.specs.Honest.{LinkOwes, IsUp, TakesSome, GivesSome};
    ghost use Rattle.cc_link.specs.CannedBytes.{known_of, counts_of, IsNever, SendsCanned, GetsCanned, never_tells, never_trusts};

    ghost known = { known_of };

    ghost counts = { counts_of };

    ghost honest = { IsNever };

    ghost prompt = { IsNever };

    ghost going = { always_goes };

    ghost last = { any_answer };

    ghost tells = { never_tells };

    ghost trusts = { never_trusts };

    fn dial(&mut self, _place: &str) -> Dialed
        ensures dials { Dials (counts_of self.old) result (counts_of self.new) }
        ensures known { known_of self.new ≡ known_of self.old }
        ensures counts { NeverFall (counts_of self.old) (counts_of self.new) }
        ensures honest { IsNever self.old ↔ IsNever self.new }
        ensures last { always_goes self.old → any_answer self.new (to_dial result) }
        ensures going { always_goes self.old → GoesOn (to_dial result) → always_goes self.new }
        ensures up { IsNever self.old → IsUp result }
        ensures prompt { IsNever self.old → result ≢ Dialed.Memory → IsNever self.new }
        ensures exact { (result ≡ Dialed.Up) × (self.new ≡ self.old) }
    {
        Dialed::Up
    }

    fn send(&mut self, bytes: &[u8]) -> Sent
        requires { 0 < length bytes.now }
        ensures sends { Sends (known_of self.old) (counts_of self.old) bytes.now result (known_of self.new) (counts_of self.new) }
        ensures counts { NeverFall (counts_of self.old) (counts_of self.new) }
        ensures honest { IsNever self.old ↔ IsNever self.new }
        ensures last { always_goes self.old → any_answer self.new (to_send result) }
        ensures going { always_goes self.old → GoesOn (to_send result) → always_goes self.new }
        ensures some { IsNever self.old → TakesSome result }
        ensures prompt { IsNever self.old → result ≢ Sent.Memory → IsNever self.new }
        ensures exact { SendsCanned self.old bytes.now result self.new }
    {
        if self.sent.extend_from_slice(bytes).is_err() {
            return Sent::Memory;
        }
        self.carried = self.carried.saturating_add(bytes.len() as u64);
        Sent::Took(bytes.len())
    }

    fn receive(&mut self, room: usize) -> Got
        requires some { 0 < room }
        requires within { room ≤ 65536 }
        ensures gets { Gets (known_of self.old) (counts_of self.old) room result (known_of self.new) (counts_of self.new) }
        ensures counts { NeverFall (counts_of self.old) (counts_of self.new) }
        ensures honest { IsNever self.old ↔ IsNever self.new }
        ensures last { always_goes self.old → any_answer self.new (to_receive result) }
        ensures going { always_goes self.old → GoesOn (to_receive result) → always_goes self.new }
        ensures owed { IsNever self.old → LinkOwes (known_of self.old) → GivesSome result }
        ensures prompt { IsNever self.old → result ≢ Got.Memory → IsNever self.new }
        ensures exact { GetsCanned self.old room result self.new }
    {
        let rest = self.bytes.as_slice().split_at(self.at).1;
        if rest.is_empty() {
            return match self.end {
                CannedEnd::NotYet => {
                    self.waits = self.waits.saturating_add(1);
                    Got::NotYet
                }
                CannedEnd::End => {
                    self.ends = self.ends.saturating_add(1);
                    Got::End
                }
            };
        }
        let count = rest.len().min(room);
        let Ok(bytes) = Bytes::from_slice(self.alloc, rest.split_at(count).0) else {
            return Got::Memory;
        };
        self.at += count;
        self.carried = self.carried.saturating_add(count as u64);
        Got::Bytes(bytes)
    }
}
