//! Which calls of a memory form fail.
ghost use Rattle.std.specs.Prelude.{◌≡◌, ◌≤◌, is_err};
ghost use Rattle.work_text.specs.Memory.{IsFresh, fails_next, after_call, after_fault, after_starving};
ghost use Rattle.base_core.specs.Faults.{IsCounted, HasRisen};

use crate::outside::Failed;

/// Counts the calls of an object from 1, lets those fail whose numbers stand in a list, and counts the faults.
#[derive(Debug, Drop)]
pub struct FaultPlan {
    fails: Vec<u64>,
    calls: u64,
    faults: u64,
    /// How many calls failed for want of memory.
    starved: u64,
}

impl FaultPlan {
    pub fn new(fails: Vec<u64>) -> FaultPlan
        ensures { IsFresh fails.items result }
    {
        FaultPlan {
            fails,
            calls: 0,
            faults: 0,
            starved: 0,
        }
    }

    pub fn faults(&self) -> u64
        ensures { result ≡ self.now.faults }
    {
        self.faults
    }

    pub fn starved(&self) -> u64
        ensures { result ≡ self.now.starved }
    {
        self.starved
    }

    /// Counts a call, and fails where it is to.
    pub fn call(&mut self) -> Result<(), Failed>
        ensures planned { is_err result ≡ fails_next self.old }
        ensures after { self.new ≡ after_call self.old }
        ensures counted { IsCounted self.old.faults self.new.faults result }
    {
        self.calls = self.calls.saturating_add(1);
        if self.fails.contains(&self.calls) {
            return Err(self.fault());
        }
        Ok(())
    }

    /// A call that has begun fails for want of memory.
    pub fn starve(&mut self) -> Failed
        ensures after { self.new ≡ after_starving self.old }
        ensures later { self.old.faults ≤ self.new.faults }
        ensures risen { HasRisen self.old.faults self.new.faults }
    {
        self.starved = self.starved.saturating_add(1);
        self.fault()
    }

    /// Counts a fault.
    fn fault(&mut self) -> Failed
        ensures after { self.new ≡ after_fault self.old }
        ensures later { self.old.faults ≤ self.new.faults }
        ensures risen { HasRisen self.old.faults self.new.faults }
    {
        self.faults = self.faults.saturating_add(1);
        Failed
    }
}
