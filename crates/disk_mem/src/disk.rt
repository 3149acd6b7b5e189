//! A disk in memory that tells what its files hold and what a crash may leave of them.
//!
//! What it tells is replayed from the files that it began with and the calls that have changed it since, the oldest
//! first. What reads give stands in a map too, and a ghost fact ties the two. A call that fails has changed nothing.
ghost use Rattle.std.specs.Prelude.{◌≡◌, ℕ, ◌≤◌, Some, length, take, drop, OnOk, OnErr, IfOk};
ghost use Rattle.disk_mem.specs.Contents.{bytes_in};
ghost use Rattle.disk_mem.specs.Replay.{begun, replayed};
ghost use Rattle.disk_mem.specs.Sound.{replayed_is_sound};

use crate::call::Call;
use crate::contents::Contents;
use crate::plan::Plan;
use crate::stored::stored;
use base_core::Want;
use disk_core::{Disk, Failed};
use std::alloc::{AllocError, Global};

/// Files in memory. It tells them, and chosen calls fail.
#[derive(Drop)]
pub struct MemoryDisk {
    alloc: Global,
    plan: Plan,
    /// The files that it began with, of which nothing was pending.
    first: Contents,
    /// The calls that have changed it, the oldest first.
    calls: Vec<Call>,
    /// What reads give.
    contents: Contents,
    ghost tied: { (file : ℕ) → bytes_in contents.files file ≡ ((replayed (begun (bytes_in first.files)) calls.items).now file).content },
}

impl MemoryDisk {
    ghost use Rattle.std.specs.Prelude.{[], None};
    ghost use Rattle.disk_core.specs.Files.{IsStored, written};
    ghost use Rattle.disk_core.specs.Moments.{Steps};
    ghost use Rattle.disk_mem.specs.Device.{plan_of, told_of, starved_of};
    ghost use Rattle.disk_mem.specs.Image.{left, IsLeft};
    ghost use Rattle.disk_mem.specs.Plan.{IsFresh};
    ghost use Rattle.disk_mem.specs.Replay.{file_of, changed_by};

    /// A disk without files. Its calls but `faults` are counted from 1: those with a number in `fails` fail, and so does
    /// each from `stop` on.
    pub fn make(alloc: Global, fails: Vec<u64>, stop: Option<u64>) -> Result<MemoryDisk, Want>
        ensures files { IfOk result (λ disk. (file : ℕ) → IsStored ((told_of disk).now file) []) }
        ensures plan { IfOk result (λ disk. IsFresh fails.items stop (plan_of disk)) }
    {
        let first = Contents::new(alloc);
        Ok(MemoryDisk::holding(alloc, first, Plan::new(fails, stop))?)
    }

    /// What a crash leaves when all pending writes stand, or none: a disk with no calls that are to fail.
    pub fn image(&self, alloc: Global, all: bool) -> Result<MemoryDisk, Want>
        ensures left { IfOk result (λ image. IsLeft all (told_of self.now) (told_of image)) }
        ensures plan { IfOk result (λ image. IsFresh [] None (plan_of image)) }
    {
        let first = self.left(alloc, all)?;
        Ok(MemoryDisk::holding(alloc, first, Plan::new(Vec::new(alloc), None))?)
    }

    /// How many calls failed for want of memory.
    pub fn starved(&self) -> u64
        ensures { result ≡ starved_of self.now }
    {
        self.plan.starved()
    }

    /// What reads give, or what the last syncs stored.
    fn left(&self, alloc: Global, all: bool) -> Result<Contents, AllocError>
        ensures { IfOk result (λ contents. (file : ℕ) → bytes_in contents.files file ≡ left all (told_of self.now).now file) }
    {
        if all {
            return self.contents.copy();
        }
        stored(alloc, &self.first, self.calls.as_slice())
    }

    /// A disk that begins with these files.
    fn holding(alloc: Global, first: Contents, plan: Plan) -> Result<MemoryDisk, AllocError>
        ensures told { IfOk result (λ disk. told_of disk ≡ begun (bytes_in first.files)) }
        ensures plan { IfOk result (λ disk. plan_of disk ≡ plan) }
    {
        let contents = first.copy()?;
        Ok(MemoryDisk {
            alloc,
            plan,
            first,
            calls: Vec::new(alloc),
            contents,
        })
    }

    /// Does a call and notes it. After an `Err` nothing has changed.
    fn perform(&mut self, call: Call) -> Result<(), AllocError>
        ensures ok { OnOk result (Steps (file_of call) (λ old new. new ≡ changed_by call old) (told_of self.old) (told_of self.new)) }
        ensures err { OnErr result (told_of self.new ≡ told_of self.old) }
        ensures plan { self.new.plan ≡ self.old.plan }
    {
        self.calls.reserve(1)?;
        self.contents.apply(self.alloc, &call)?;
        match self.calls.push(call) {
            Ok(()) => Ok(()),
            Err(_) => unreachable!(),
        }
    }

    fn perform_write(&mut self, file: u64, at: u64, bytes: &[u8]) -> Result<(), AllocError>
        ensures ok { OnOk result (Steps file (λ old new. new ≡ written old at bytes.now) (told_of self.old) (told_of self.new)) }
        ensures err { OnErr result (told_of self.new ≡ told_of self.old) }
        ensures plan { self.new.plan ≡ self.old.plan }
    {
        let bytes = bytes.to_vec(self.alloc)?;
        self.perform(Call::Write { file, at, bytes })
    }
}

impl Disk for MemoryDisk {
    ghost use Rattle.base_core.specs.Faults.{IsCounted};
    ghost use Rattle.disk_core.specs.Disk.{IsLengthOf, IsGreatest, IsReadAt};
    ghost use Rattle.disk_core.specs.Files.{written, synced, removed};
    ghost use Rattle.disk_core.specs.Moments.{Steps};
    ghost use Rattle.disk_mem.specs.Device.{plan_of, told_of};
    ghost use Rattle.disk_mem.specs.Plan.{IsPlanned};

    ghost told = { λ disk. Some (replayed (begun (bytes_in disk.first.files)) disk.calls.items) };

    ghost fault_count = { λ disk. disk.plan.faults };

    ghost sound = { λ disk. replayed_is_sound (bytes_in disk.first.files) disk.calls.items };

    fn faults(&self) -> u64 {
        self.plan.faults()
    }

    fn length(&mut self, file: u64) -> Result<u64, Failed>
        ensures planned { IsPlanned (plan_of self.old) (plan_of self.new) result }
        ensures same { told_of self.new ≡ told_of self.old }
        ensures ok { IfOk result (IsLengthOf (Some (told_of self.old)) file) }
    {
        self.plan.call()?;
        Ok(self.contents.bytes(file).len() as u64)
    }

    fn greatest(&mut self) -> Result<u64, Failed>
        ensures planned { IsPlanned (plan_of self.old) (plan_of self.new) result }
        ensures same { told_of self.new ≡ told_of self.old }
        ensures ok { IfOk result (IsGreatest (Some (told_of self.old))) }
    {
        self.plan.call()?;
        Ok(self.contents.greatest())
    }

    fn read_at(&mut self, file: u64, at: u64, out: &mut [u8]) -> Result<usize, Failed>
        ensures planned { IsPlanned (plan_of self.old) (plan_of self.new) result }
        ensures same { told_of self.new ≡ told_of self.old }
        ensures within { IfOk result (λ n. n ≤ length out.new) }
        ensures bytes { IfOk result (λ n. IsReadAt (Some (told_of self.old)) file at (length out.new) (take n out.new)) }
    {
        self.plan.call()?;
        Ok(copy_from(self.contents.bytes(file), at as usize, out))
    }

    fn write_at(&mut self, file: u64, at: u64, bytes: &[u8]) -> Result<(), Failed>
        ensures planned { IsPlanned (plan_of self.old) (plan_of self.new) result }
        ensures ok { OnOk result (Steps file (λ old new. new ≡ written old at bytes.now) (told_of self.old) (told_of self.new)) }
        ensures err { OnErr result (told_of self.new ≡ told_of self.old) }
    {
        self.plan.call()?;
        match self.perform_write(file, at, bytes) {
            Ok(()) => Ok(()),
            Err(_) => Err(self.plan.starve()),
        }
    }

    fn sync(&mut self, file: u64) -> Result<(), Failed>
        ensures planned { IsPlanned (plan_of self.old) (plan_of self.new) result }
        ensures ok { OnOk result (Steps file (λ old new. new ≡ synced old) (told_of self.old) (told_of self.new)) }
        ensures err { OnErr result (told_of self.new ≡ told_of self.old) }
    {
        self.plan.call()?;
        match self.perform(Call::Sync { file }) {
            Ok(()) => Ok(()),
            Err(_) => Err(self.plan.starve()),
        }
    }

    fn remove(&mut self, file: u64) -> Result<(), Failed>
        ensures planned { IsPlanned (plan_of self.old) (plan_of self.new) result }
        ensures ok { OnOk result (Steps file (λ old new. new ≡ removed old) (told_of self.old) (told_of self.new)) }
        ensures err { OnErr result (told_of self.new ≡ told_of self.old) }
    {
        self.plan.call()?;
        match self.perform(Call::Remove { file }) {
            Ok(()) => Ok(()),
            Err(_) => Err(self.plan.starve()),
        }
    }
}

/// Fills the front of `out` with what stands from `at` on, and answers how many bytes that is.
fn copy_from(bytes: &[u8], at: usize, out: &mut [u8]) -> usize
    ensures within { result ≤ length out.new }
    ensures bytes { take result out.new ≡ take (length out.new) (drop at bytes.now) }
{
    if at >= bytes.len() {
        return 0;
    }
    let rest = &bytes[at..];
    let count = rest.len().min(out.len());
    out[..count].copy_from_slice(&rest[..count]);
    count
}
