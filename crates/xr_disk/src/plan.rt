//! The plan that objects in memory share: each call is counted, and some calls are to fail.
ghost use Rattle.std.specs.Prelude.{◌≡◌, ◌≤◌, ◌↔◌, IsTrue, IsErr, OnOk, OnErr, Contains};
ghost use Rattle.xr_disk.specs.Plan.{CallPlan, next_count, fresh_plan, FailsNext, plan_after_call, plan_after_fault};

use std::marker::Model;
use xr_base::Fault;

/// The numbers of the calls that fail, and the counts so far. A count stays at `u64::MAX`.
#[derive(Drop)]
pub(crate) struct Plan {
    fails: Vec<u64>,
    calls: u64,
    faults: u64,
}

impl Model for Plan {
    ghost Value = { CallPlan };

    ghost view = { λ p. record { fails = p.fails.items; calls = p.calls; faults = p.faults } };
}

impl Plan {
    pub(crate) fn new(fails: Vec<u64>) -> Plan
        ensures { result ≡ fresh_plan fails.items }
    {
        Plan {
            fails,
            calls: 0,
            faults: 0,
        }
    }

    /// Counts a call, and a fault if the call is one that fails.
    pub(crate) fn begin(&mut self) -> Result<(), Fault>
        ensures fault { IsErr result ↔ FailsNext self.old }
        ensures ok { OnOk result (self.new ≡ plan_after_call self.old) }
        ensures err { OnErr result (self.new ≡ plan_after_fault self.old) }
        ensures kept { self.old.faults ≤ self.new.faults }
    {
        self.calls = self.calls.saturating_add(1);
        if is_listed(&self.fails, self.calls) {
            return Err(self.fault());
        }
        Ok(())
    }

    /// Counts a fault of a call that is counted already.
    pub(crate) fn fault(&mut self) -> Fault
        ensures fault { self.new ≡ record self.old { faults = next_count self.old.faults } }
        ensures kept { self.old.faults ≤ self.new.faults }
    {
        self.faults = self.faults.saturating_add(1);
        Fault
    }
}

fn is_listed(numbers: &[u64], number: u64) -> bool
    ensures { IsTrue result ↔ Contains numbers.now number }
{
    numbers.contains(&number)
}
