//! Which calls of a source or a sink in memory fail. Calls are numbered from 1, and each failed
//! call is counted.
ghost use Rattle.std.specs.Prelude.{◌≡◌, ◌≤◌, ◌↔◌, OnOk, OnErr, IsErr, Contains};
ghost use Rattle.me_io.specs.Memory.{one_more};

use crate::Failed;
use std::marker::Model;

/// The numbers of the calls that fail, and how many calls and faults there were.
#[derive(Drop)]
pub(crate) struct Schedule {
    fails: Vec<u64>,
    calls: u64,
    faults: u64,
}

impl Model for Schedule {
    ghost use Rattle.me_io.specs.Memory.{Plan};

    ghost Value = { Plan };

    ghost view = { λ s. record { fails = s.fails.items; calls = s.calls; faults = s.faults } };
}

impl Schedule {
    /// No call was made yet.
    pub(crate) fn new(fails: Vec<u64>) -> Self
        ensures fails { result.fails ≡ fails.items }
        ensures calls { result.calls ≡ 0 }
        ensures faults { result.faults ≡ 0 }
    {
        Schedule {
            fails,
            calls: 0,
            faults: 0,
        }
    }

    /// Counts a call, and a fault where this call fails.
    pub(crate) fn call(&mut self) -> Result<(), Failed>
        ensures planned { IsErr result ↔ Contains self.old.fails (one_more self.old.calls) }
        ensures ok { OnOk result (self.new ≡ record self.old { calls = one_more self.old.calls }) }
        ensures err { OnErr result (self.new ≡ record self.old {
          calls = one_more self.old.calls;
          faults = one_more self.old.faults;
        }) }
        ensures later { self.old.faults ≤ self.new.faults }
    {
        self.calls = self.calls.saturating_add(1);
        if self.fails.contains(&self.calls) {
            return Err(self.fail());
        }
        Ok(())
    }

    /// Counts a fault.
    pub(crate) fn fail(&mut self) -> Failed
        ensures counted { self.new ≡ record self.old { faults = one_more self.old.faults } }
        ensures later { self.old.faults ≤ self.new.faults }
    {
        self.faults = self.faults.saturating_add(1);
        Failed
    }
}
