//! A link to a clone in memory.

use crate::coming::Coming;
use crate::pipe::Pipe;
use crate::tally::Tally;
use cc_clone::CloneNode;
use cc_link::{Dialed, Got, Link, Sent};
use cc_meaning::fault::Memory;
use cc_meaning::lists::Bytes;
use cc_meaning::travel::{Happening, Happenings};
use cc_meaning_clone::plain_laws;
use cc_meaning_nodes::frame_laws;
use std::alloc::Global;
use std::marker::Model;

/// A link whose far side is a clone of plain files, which a list of happenings delays, cuts and fails. It keeps the bytes sent and got, and tells them.
#[derive(Drop)]
pub struct PairLink {
    alloc: Global,
    coming: Coming,
    up: Pipe,
    clone: CloneNode,
    deaf: bool,
    down: Pipe,
    tally: Tally,
}

impl Model for PairLink {
    ghost use Rattle.cc_pair.specs.Pairs.{Pair};
    ghost use Rattle.cc_pair.specs.Fair.{Stands};

    ghost Value = { Pair };

    ghost view = { λ s. record {
      list = s.coming;
      up = s.up;
      clone = s.clone;
      deaf = s.deaf;
      down = s.down;
      counts = s.tally;
    } };

    ghost invariant = { λ s. Stands s.up s.clone s.deaf s.down };
}

impl PairLink {
    ghost use Rattle.std.specs.Prelude.{◌≡◌, ◌<◌, Ok, Some, slice_get, length, drop, OnOk, OnErr};
    ghost use Rattle.cc_pair.specs.Pairs.{at_first, with_list, deafened, brought_down};
    ghost use Rattle.cc_pair.specs.Clones.{GoesUp, IsRefused};
    ghost use Rattle.cc_pair.specs.Calls.{TakesAll, SendsPair, Gives, Befalls, Finds, Carries, GetsPair};
    ghost use Rattle.cc_pair.specs.Fair.{IsFair};

    /// A link on which nothing was sent, to a new clone, with what will befall it. It takes no memory.
    pub fn new(alloc: Global, happenings: Happenings) -> Result<PairLink, Memory>
        ensures new { result ≡ Ok (at_first happenings) }
        ensures fair { IsFair (at_first happenings) }
    {
        frame_laws::nothing_more();
        plain_laws::talk_steps();
        plain_laws::talk_goes_on();
        plain_laws::verdict_goes_on();
        Ok(PairLink {
            alloc,
            coming: Coming::new(happenings),
            up: Pipe::new(alloc),
            clone: CloneNode::new(alloc),
            deaf: false,
            down: Pipe::new(alloc),
            tally: Tally::new(),
        })
    }

    /// So many of the bytes on the way up go to the clone, which is deaf from then on where it has no memory. A deaf clone takes none.
    fn go_up(&mut self, count: usize) -> Result<(), Memory>
        ensures ok { OnOk result (GoesUp self.old.deaf count self.old self.new) }
        ensures err { OnErr result (IsRefused self.old.deaf count self.old self.new) }
    {
        if self.deaf {
            return Ok(());
        }
        plain_laws::talk_goes_on();
        plain_laws::verdict_goes_on();
        let waiting = self.up.waiting();
        let count = waiting.len().min(count);
        match self.clone.feed(waiting.split_at(count).0) {
            Ok(()) => {
                self.up.pass(count);
                Ok(())
            }
            Err(Memory) => {
                self.up.pass(count);
                self.deaf = true;
                Err(Memory)
            }
        }
    }

    /// So many of the bytes that the clone said come down.
    fn come_down(&mut self, count: usize) -> Result<(), Memory>
        ensures ok { OnOk result (self.new ≡ brought_down count self.old) }
        ensures err { OnErr result (self.new ≡ self.old) }
    {
        let said = self.clone.replies();
        let count = said.len().min(count);
        self.down.put(said.split_at(count).0)?;
        self.clone.drop_replies(count);
        Ok(())
    }

    /// Gives bytes that came down, as many as there is room for.
    fn give(&mut self, room: usize) -> Got
        ensures { Gives room self.old result self.new }
    {
        plain_laws::talk_goes_on();
        plain_laws::verdict_goes_on();
        let waiting = self.down.waiting();
        let count = waiting.len().min(room);
        let Ok(bytes) = Bytes::from_slice(self.alloc, waiting.split_at(count).0) else {
            return Got::Memory;
        };
        self.down.pass(count);
        self.tally.carry(count);
        Got::Bytes(bytes)
    }

    /// The clone is deaf from now on, as the next happening says.
    fn stop_clone(&mut self)
        requires { 0 < length self.old.list }
        ensures { self.new ≡ deafened (with_list (drop 1 self.old.list) self.old) }
    {
        self.coming.take_first();
        self.deaf = true;
    }

    /// What befalls the link next, and what is answered where an answer is due.
    fn follow(&mut self, happening: Happening) -> Option<Got>
        requires { slice_get self.old.list 0 ≡ Some happening }
        ensures { Befalls happening (drop 1 self.old.list) self.old result self.new }
    {
        match happening {
            Happening::Up(count) => {
                self.coming.take_first();
                match self.go_up(count as usize) {
                    Ok(()) => None,
                    Err(Memory) => Some(Got::Memory),
                }
            }
            Happening::Down(count) => {
                let Ok(()) = self.come_down(count as usize) else {
                    return Some(Got::Memory);
                };
                self.coming.take_first();
                None
            }
            Happening::NotYet => {
                self.coming.take_first();
                self.tally.wait();
                Some(Got::NotYet)
            }
            Happening::Fail => {
                self.coming.take_first();
                self.tally.fault();
                Some(Got::Failed)
            }
            Happening::Cut => {
                self.tally.end();
                Some(Got::End)
            }
            Happening::CloneStops => {
                self.stop_clone();
                None
            }
        }
    }

    /// Gives bytes that came down, or nothing yet where there are none.
    fn find(&mut self, room: usize) -> Got
        ensures { Finds room self.old result self.new }
    {
        if self.down.waiting().is_empty() {
            self.tally.wait();
            return Got::NotYet;
        }
        self.give(room)
    }

    /// All is carried both ways.
    fn carry(&mut self, room: usize) -> Got
        ensures { Carries room self.old result self.new }
    {
        let waiting = self.up.waiting().len();
        let Ok(()) = self.go_up(waiting) else {
            return Got::Memory;
        };
        let said = self.clone.replies().len();
        let Ok(()) = self.come_down(said) else {
            return Got::Memory;
        };
        self.find(room)
    }

    /// Follows the list until bytes came down or an answer is due.
    fn get(&mut self, room: usize) -> Got
        ensures { GetsPair self.old room result self.new }
    {
        while self.down.waiting().is_empty() {
            let Some(happening) = self.coming.first() else {
                return self.carry(room);
            };
            if let Some(answer) = self.follow(happening) {
                return answer;
            }
        }
        self.give(room)
    }

    /// All bytes are on the way up.
    fn take(&mut self, bytes: &[u8]) -> Sent
        ensures { TakesAll self.old bytes.now result self.new }
    {
        plain_laws::talk_goes_on();
        plain_laws::verdict_goes_on();
        let Ok(()) = self.up.put(bytes) else {
            return Sent::Memory;
        };
        self.tally.carry(bytes.len());
        Sent::Took(bytes.len())
    }

    /// Takes all bytes, but where the next happening is that nothing is taken.
    fn put(&mut self, bytes: &[u8]) -> Sent
        ensures { SendsPair self.old bytes.now result self.new }
    {
        while let Some(happening) = self.coming.first() {
            match happening {
                Happening::CloneStops => self.stop_clone(),
                Happening::NotYet => {
                    self.coming.take_first();
                    self.tally.stall();
                    return Sent::NotYet;
                }
                Happening::Fail => {
                    self.coming.take_first();
                    self.tally.fault();
                    return Sent::Failed;
                }
                Happening::Cut => {
                    self.tally.fault();
                    return Sent::Failed;
                }
                Happening::Up(_) | Happening::Down(_) => return self.take(bytes),
            }
        }
        self.take(bytes)
    }

    /// Whatever befalls it, what it gives is a front of what a clone says.
    pub fn law_fair(&self)
        ensures { IsFair self.now }
    {
        let _ = &self.deaf;
    }
}

impl Link for PairLink {
    ghost use Rattle.std.specs.Prelude.{◌≡◌, ◌≢◌, ◌↔◌, ◌≤◌, ◌<◌, length};
    ghost use Rattle.cc_link.specs.Links.{always_goes, any_answer, to_dial, to_send, to_receive, GoesOn, NeverFall, Dials, Sends, Gets};
    ghost use Rattle.cc_link.specs.Honest.{LinkOwes, IsUp, TakesSome, GivesSome};
    ghost use Rattle.cc_pair.specs.Pairs.{known_of, counts_of};
    ghost use Rattle.cc_pair.specs.Calls.{DialsPair, SendsPair, GetsPair};
    ghost use Rattle.cc_pair.specs.Fair.{IsFair, IsPrompt, fair_tells, prompt_trusts};

    ghost known = { known_of };

    ghost counts = { counts_of };

    ghost honest = { IsFair };

    ghost prompt = { IsPrompt };

    ghost going = { always_goes };

    ghost last = { any_answer };

    ghost tells = { fair_tells };

    ghost trusts = { prompt_trusts };

    /// Fails where that is the next happening, and nowhere else.
    fn dial(&mut self, _place: &str) -> Dialed
        ensures dials { Dials (counts_of self.old) result (counts_of self.new) }
        ensures known { known_of self.new ≡ known_of self.old }
        ensures counts { NeverFall (counts_of self.old) (counts_of self.new) }
        ensures honest { IsFair self.old ↔ IsFair self.new }
        ensures last { always_goes self.old → any_answer self.new (to_dial result) }
        ensures going { always_goes self.old → GoesOn (to_dial result) → always_goes self.new }
        ensures up { IsPrompt self.old → IsUp result }
        ensures prompt { IsPrompt self.old → result ≢ Dialed.Memory → IsPrompt self.new }
        ensures exact { DialsPair self.old result self.new }
    {
        match self.coming.first() {
            Some(Happening::Fail) => {
                self.tally.law_fit();
                self.coming.take_first();
                self.tally.fault();
                Dialed::Failed
            }
            _ => Dialed::Up,
        }
    }

    /// Takes all bytes, or answers as the next happening says.
    fn send(&mut self, bytes: &[u8]) -> Sent
        requires { 0 < length bytes.now }
        ensures sends { Sends (known_of self.old) (counts_of self.old) bytes.now result (known_of self.new) (counts_of self.new) }
        ensures counts { NeverFall (counts_of self.old) (counts_of self.new) }
        ensures honest { IsFair self.old ↔ IsFair self.new }
        ensures last { always_goes self.old → any_answer self.new (to_send result) }
        ensures going { always_goes self.old → GoesOn (to_send result) → always_goes self.new }
        ensures some { IsPrompt self.old → TakesSome result }
        ensures prompt { IsPrompt self.old → result ≢ Sent.Memory → IsPrompt self.new }
        ensures exact { SendsPair self.old bytes.now result self.new }
    {
        self.law_fair();
        self.tally.law_fit();
        let sent = self.put(bytes);
        self.law_fair();
        sent
    }

    /// Gives bytes that came down, and follows the list until there are some or an answer is due.
    fn receive(&mut self, room: usize) -> Got
        requires some { 0 < room }
        requires within { room ≤ 65536 }
        ensures gets { Gets (known_of self.old) (counts_of self.old) room result (known_of self.new) (counts_of self.new) }
        ensures counts { NeverFall (counts_of self.old) (counts_of self.new) }
        ensures honest { IsFair self.old ↔ IsFair self.new }
        ensures last { always_goes self.old → any_answer self.new (to_receive result) }
        ensures going { always_goes self.old → GoesOn (to_receive result) → always_goes self.new }
        ensures owed { IsPrompt self.old → LinkOwes (known_of self.old) → GivesSome result }
        ensures prompt { IsPrompt self.old → result ≢ Got.Memory → IsPrompt self.new }
        ensures exact { GetsPair self.old room result self.new }
    {
        self.law_fair();
        self.tally.law_fit();
        let got = self.get(room);
        self.law_fair();
        got
    }
}
