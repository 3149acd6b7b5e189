//! A sink in memory, for tests.
ghost use Rattle.std.specs.Prelude.{◌≤◌, Some};

use crate::fault_plan::FaultPlan;
use crate::outside::{Failed, Sink};
use base_core::Want;
use std::alloc::Global;

/// Keeps what was printed. It tells it, a write takes only so many bytes, and chosen writes fail.
#[derive(Debug, Drop)]
pub struct MemorySink {
    taken: Vec<u8>,
    step: u64,
    plan: FaultPlan,
    ghost some: { 1 ≤ step },
}

impl MemorySink {
    ghost use Rattle.std.specs.Prelude.{◌≡◌, ◌≤◌, [], Some, IfOk};
    ghost use Rattle.work_text.specs.Memory.{IsFresh};
    ghost use Rattle.work_text.specs.Plans.{sink_plan, sink_step};

    /// A sink that takes up to `step` bytes in a write. The writes are counted from 1, and those with a number in
    /// `fails` fail.
    pub fn make(alloc: Global, step: u64, fails: Vec<u64>) -> Result<MemorySink, Want>
        requires { 1 ≤ step }
        ensures taken { IfOk result (λ made. ⟦<MemorySink as Sink>⟧.taken made ≡ Some []) }
        ensures faults { IfOk result (λ made. ⟦<MemorySink as Sink>⟧.fault_count made ≡ 0) }
        ensures step { IfOk result (λ made. sink_step made ≡ step) }
        ensures plan { IfOk result (λ made. IsFresh fails.items (sink_plan made)) }
    {
        Ok(MemorySink {
            taken: Vec::new(alloc),
            step,
            plan: FaultPlan::new(fails),
        })
    }

    /// How many writes failed for want of memory.
    pub fn starved(&self) -> u64
        ensures { result ≡ (sink_plan self.now).starved }
    {
        self.plan.starved()
    }

    /// What the sink took.
    pub fn bytes(&self) -> &[u8]
        ensures { ⟦<MemorySink as Sink>⟧.taken self.now ≡ Some result.now }
    {
        self.taken.as_slice()
    }
}

impl Sink for MemorySink {
    ghost use Rattle.std.specs.Prelude.{◌≡◌, ◌≤◌, ◌<◌, [], Some, length, min, take, IfOk, OnOk, OnErr, ◌⊎◌};
    ghost use Rattle.base_core.specs.Faults.{IsCounted};
    ghost use Rattle.work_text.specs.Memory.{IsPlanned, IsStarved};
    ghost use Rattle.work_text.specs.Outside.{IsTaken};
    ghost use Rattle.work_text.specs.Plans.{sink_plan, sink_step, sink_taken};

    ghost taken = { λ sink. Some (sink_taken sink) };

    ghost fault_count = { λ sink. (sink_plan sink).faults };

    fn faults(&self) -> u64 {
        self.plan.faults()
    }

    /// Takes as many bytes as there are, up to `step`. A write that finds no memory fails too.
    fn write(&mut self, bytes: &[u8]) -> Result<usize, Failed>
        requires { 0 < length bytes.now }
        ensures planned { IsPlanned (sink_plan self.old) (sink_plan self.new) result ⊎ IsStarved (sink_plan self.old) (sink_plan self.new) result }
        ensures step { sink_step self.new ≡ sink_step self.old }
        ensures least { IfOk result (λ n. n ≡ min (sink_step self.old) (length bytes.now)) }
        ensures counted { IsCounted (sink_plan self.old).faults (sink_plan self.new).faults result }
        ensures kept { OnOk result ((sink_plan self.new).faults ≡ (sink_plan self.old).faults) }
        ensures some { IfOk result (λ n. (0 < n) × (n ≤ length bytes.now)) }
        ensures ok { IfOk result (λ n. IsTaken (Some (sink_taken self.old)) (Some (sink_taken self.new)) (take n bytes.now)) }
        ensures err { OnErr result (IsTaken (Some (sink_taken self.old)) (Some (sink_taken self.new)) []) }
    {
        self.plan.call()?;
        let count = bytes.len().min(self.step as usize);
        match self.taken.extend_from_slice(&bytes[..count]) {
            Ok(()) => Ok(count),
            Err(_) => Err(self.plan.starve()),
        }
    }
}
