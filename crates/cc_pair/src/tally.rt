//! How often a link failed, waited and ended, and how much it carried.

use std::marker::Model;

/// The counts of a link. Each stands still at the end of its type.
#[derive(Drop)]
pub(crate) struct Tally {
    faults: u64,
    stalls: u64,
    waits: u64,
    ends: u64,
    carried: u64,
}

impl Model for Tally {
    ghost use Rattle.cc_link.specs.Links.{Counts};
    ghost use Rattle.cc_pair.specs.Counting.{Fit};

    ghost Value = { Counts };

    ghost view = { λ s. record { faults = s.faults; stalls = s.stalls; waits = s.waits; ends = s.ends; carried = s.carried } };

    ghost invariant = { λ s. Fit (record { faults = s.faults; stalls = s.stalls; waits = s.waits; ends = s.ends; carried = s.carried }) };
}

impl Tally {
    ghost use Rattle.std.specs.Prelude.{◌≡◌};
    ghost use Rattle.cc_pair.specs.Counting.{Fit, no_counts, one_fault, one_stall, one_wait, one_end, more_carried};

    /// Nothing was counted.
    pub(crate) fn new() -> Tally
        ensures { result ≡ no_counts }
    {
        Tally {
            faults: 0,
            stalls: 0,
            waits: 0,
            ends: 0,
            carried: 0,
        }
    }

    /// A call failed.
    pub(crate) fn fault(&mut self)
        ensures { self.new ≡ one_fault self.old }
    {
        self.faults = self.faults.saturating_add(1);
    }

    /// A call took nothing yet.
    pub(crate) fn stall(&mut self)
        ensures { self.new ≡ one_stall self.old }
    {
        self.stalls = self.stalls.saturating_add(1);
    }

    /// A call gave nothing yet.
    pub(crate) fn wait(&mut self)
        ensures { self.new ≡ one_wait self.old }
    {
        self.waits = self.waits.saturating_add(1);
    }

    /// A call found the end.
    pub(crate) fn end(&mut self)
        ensures { self.new ≡ one_end self.old }
    {
        self.ends = self.ends.saturating_add(1);
    }

    /// So many bytes were carried.
    pub(crate) fn carry(&mut self, bytes: usize)
        ensures { self.new ≡ more_carried bytes self.old }
    {
        self.carried = self.carried.saturating_add(bytes as u64);
    }

    /// Each count fits its type.
    pub(crate) fn law_fit(&self)
        ensures { Fit self.now }
    {
        let _ = &self.faults;
    }
}
