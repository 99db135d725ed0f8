//! What a link is.

ghost use Rattle.std.specs.Prelude.{◌≡◌, ◌≢◌, ◌↔◌, ◌<◌, ◌≤◌, length};
ghost use Rattle.cc_link.specs.Links.{Known, Counts, Answer, to_dial, to_send, to_receive, GoesOn, NeverFall, Dials, Sends, Gets};
ghost use Rattle.cc_link.specs.Honest.{IsHonestLink, LinkOwes, IsUp, TakesSome, GivesSome};

use cc_meaning::lists::Bytes;

/// What came of dialing.
#[derive(Clone, Copy, PartialEq, Eq, Debug)]
pub enum Dialed {
    Up,
    Failed,
    Memory,
}

/// What came of sending.
#[derive(Clone, Copy, PartialEq, Eq, Debug)]
pub enum Sent {
    /// So many of the bytes were sent, the first.
    Took(usize),
    NotYet,
    Failed,
    Memory,
}

/// What came of receiving.
#[derive(Drop)]
pub enum Got {
    Bytes(Bytes),
    NotYet,
    End,
    Failed,
    Memory,
}

/// A link to a far side, which is to be a clone. It may tell the bytes that it took and gave, and that its far side is a clone; its counts are told always.
pub trait Link {
    /// The bytes sent and got, where these are told.
    ghost known: { Self → Known };

    /// How often it failed, took or gave nothing yet and was at its end, and how many bytes it carried.
    ghost counts: { Self → Counts };

    /// Holds of a link that tells that it gives a front of a clone's answers, whatever it delays, cuts or fails.
    ghost honest: { Self → Type 0 };

    /// Holds of an honest link that tells that it delays, cuts and fails nothing.
    ghost prompt: { Self → Type 0 };

    /// Holds as long as each call on it went on: none failed, gave the end or wanted memory. A link that doesn't keep its answers may let this and `last` hold
    /// always: who calls links of any kind knows no more of them than its own calls say.
    ghost going: { Self → Type 0 };

    /// Holds of what the last call on it answered, where each before it went on.
    ghost last: { Self → Answer → Type 0 };

    /// Makes the link to the far side at a place. The bytes sent and got stay as they are.
    fn dial(&mut self, place: &str) -> Dialed
        ensures dials { Dials (counts self.old) result (counts self.new) }
        ensures known { known self.new ≡ known self.old }
        ensures counts { NeverFall (counts self.old) (counts self.new) }
        ensures honest { honest self.old ↔ honest self.new }
        ensures last { going self.old → last self.new (to_dial result) }
        ensures going { going self.old → GoesOn (to_dial result) → going self.new }
        ensures up { prompt self.old → IsUp result }
        ensures prompt { prompt self.old → result ≢ Dialed.Memory → prompt self.new };

    /// Sends the first of the bytes, and says how many.
    fn send(&mut self, bytes: &[u8]) -> Sent
        requires { 0 < length bytes.now }
        ensures sends { Sends (known self.old) (counts self.old) bytes.now result (known self.new) (counts self.new) }
        ensures counts { NeverFall (counts self.old) (counts self.new) }
        ensures honest { honest self.old ↔ honest self.new }
        ensures last { going self.old → last self.new (to_send result) }
        ensures going { going self.old → GoesOn (to_send result) → going self.new }
        ensures some { prompt self.old → TakesSome result }
        ensures prompt { prompt self.old → result ≢ Sent.Memory → prompt self.new };

    /// Bytes from the far side, at least one and at most so many.
    fn receive(&mut self, room: usize) -> Got
        requires some { 0 < room }
        requires within { room ≤ 65536 }
        ensures gets { Gets (known self.old) (counts self.old) room result (known self.new) (counts self.new) }
        ensures counts { NeverFall (counts self.old) (counts self.new) }
        ensures honest { honest self.old ↔ honest self.new }
        ensures last { going self.old → last self.new (to_receive result) }
        ensures going { going self.old → GoesOn (to_receive result) → going self.new }
        // While a clone says more to what was sent than was got, there is some of it.
        ensures owed { prompt self.old → LinkOwes (known self.old) → GivesSome result }
        ensures prompt { prompt self.old → result ≢ Got.Memory → prompt self.new };

    /// The bytes got over an honest link are a front of what a clone says to those sent, where both are told.
    ghost tells: { (l : Self) → honest l → IsHonestLink (known l) };

    /// A prompt link is honest.
    ghost trusts: { (l : Self) → prompt l → honest l };
}
