//! Which calls of a disk in memory fail, and what was counted.
ghost use Rattle.std.specs.Prelude.{◌≡◌, ◌↔◌, [], None, IsTrue};
ghost use Rattle.disk_mem.specs.Plan.{IsDue, IsPlanned, IsStarved, IsFault};

use disk_core::Failed;
use std::alloc::Global;

/// Counts calls from 1, and fails those whose numbers stand in `fails`, and each from `stop` on.
#[derive(Drop)]
pub(crate) struct Plan {
    fails: Vec<u64>,
    stop: Option<u64>,
    calls: u64,
    faults: u64,
    /// How many calls failed for want of memory.
    starved: u64,
}

impl Plan {
    ghost use Rattle.disk_mem.specs.Plan.{IsFresh};

    pub(crate) fn new(fails: Vec<u64>, stop: Option<u64>) -> Plan
        ensures { IsFresh fails.items stop result }
    {
        Plan {
            fails,
            stop,
            calls: 0,
            faults: 0,
            starved: 0,
        }
    }

    pub(crate) fn faults(&self) -> u64
        ensures { result ≡ self.now.faults }
    {
        self.faults
    }

    pub(crate) fn starved(&self) -> u64
        ensures { result ≡ self.now.starved }
    {
        self.starved
    }

    /// Counts a call, and fails where it is to.
    pub(crate) fn call(&mut self) -> Result<(), Failed>
        ensures { IsPlanned self.old self.new result }
    {
        self.calls = self.calls.saturating_add(1);
        if self.is_due() {
            return Err(self.fault());
        }
        Ok(())
    }

    /// A call that has begun fails for want of memory.
    pub(crate) fn starve(&mut self) -> Failed
        ensures { IsStarved self.old self.new }
    {
        self.starved = self.starved.saturating_add(1);
        self.fault()
    }

    /// Whether the call that was counted last is to fail.
    fn is_due(&self) -> bool
        ensures { IsTrue result ↔ IsDue self.now.fails.items self.now.stop self.now.calls }
    {
        if self.fails.contains(&self.calls) {
            return true;
        }
        match self.stop {
            Some(stop) => stop <= self.calls,
            None => false,
        }
    }

    fn fault(&mut self) -> Failed
        ensures { IsFault self.old self.new }
    {
        self.faults = self.faults.saturating_add(1);
        Failed
    }
}
