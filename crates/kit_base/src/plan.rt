//! Which calls of a source, a sink or a shelf in memory fail.

ghost use Rattle.std.specs.Prelude.{◌≡◌, true, false};
ghost use Rattle.kit_base.specs.Memory.{fails_next, called, faulted, fresh};

use crate::Words;
use crate::decimal::is_listed;
use std::marker::Model;

/// The numbers of the calls that fail, from 1, and the counts of calls and faults so far.
#[derive(Drop)]
pub struct Plan {
    fails: Words,
    calls: u64,
    faults: u64,
}

impl Model for Plan {
    ghost use Rattle.kit_base.specs.Memory.{Planned};

    ghost Value = { Planned };

    ghost view = { λ p. record { fails = p.fails; calls = p.calls; faults = p.faults } };
}

impl Plan {
    /// A plan before the first call.
    pub fn new(fails: Words) -> Plan
        ensures { result ≡ fresh fails }
    {
        Plan {
            fails,
            calls: 0,
            faults: 0,
        }
    }

    /// Counts a call, and says whether it is one that fails.
    pub fn fails_now(&mut self) -> bool
        ensures listed { result ≡ fails_next self.old }
        ensures after { self.new ≡ called self.old result }
    {
        self.calls = self.calls.saturating_add(1);
        if is_listed(self.calls, &self.fails) {
            self.faults = self.faults.saturating_add(1);
            return true;
        }
        false
    }

    /// Counts a fault at a call that is not listed, as of a sink without room.
    pub fn fault(&mut self)
        ensures { self.new ≡ faulted self.old }
    {
        self.faults = self.faults.saturating_add(1);
    }
}
