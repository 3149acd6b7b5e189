//! A device with no files.
ghost use Rattle.std.specs.Prelude.{◌≡◌, ◌≤◌, None, IsErr};
ghost use Rattle.base_core.specs.Faults.{HasRisen, IsCounted};

use crate::disk::{Disk, Failed};

/// A device that tells no files, and that fails and counts every call. Windows in memory are handed it: they make no call
/// of a device.
#[derive(Drop)]
pub struct NoDisk {
    faults: u64,
}

impl NoDisk {
    pub fn new() -> NoDisk
        ensures { ⟦<NoDisk as Disk>⟧.fault_count result ≡ 0 }
    {
        NoDisk { faults: 0 }
    }

    fn fail(&mut self) -> Failed
        ensures later { self.old.faults ≤ self.new.faults }
        ensures risen { HasRisen self.old.faults self.new.faults }
    {
        self.faults = self.faults.saturating_add(1);
        Failed
    }
}

impl Disk for NoDisk {
    ghost told = { λ _. None };

    ghost fault_count = { λ disk. disk.faults };

    ghost sound = { λ _. tt };

    fn faults(&self) -> u64 {
        self.faults
    }

    fn length(&mut self, _file: u64) -> Result<u64, Failed>
        ensures fails { IsErr result }
        ensures counted { IsCounted self.old.faults self.new.faults result }
    {
        Err(self.fail())
    }

    fn greatest(&mut self) -> Result<u64, Failed>
        ensures fails { IsErr result }
        ensures counted { IsCounted self.old.faults self.new.faults result }
    {
        Err(self.fail())
    }

    fn read_at(&mut self, _file: u64, _at: u64, _out: &mut [u8]) -> Result<usize, Failed>
        ensures fails { IsErr result }
        ensures counted { IsCounted self.old.faults self.new.faults result }
    {
        Err(self.fail())
    }

    fn write_at(&mut self, _file: u64, _at: u64, _bytes: &[u8]) -> Result<(), Failed>
        ensures fails { IsErr result }
        ensures counted { IsCounted self.old.faults self.new.faults result }
    {
        Err(self.fail())
    }

    fn sync(&mut self, _file: u64) -> Result<(), Failed>
        ensures fails { IsErr result }
        ensures counted { IsCounted self.old.faults self.new.faults result }
    {
        Err(self.fail())
    }

    fn remove(&mut self, _file: u64) -> Result<(), Failed>
        ensures fails { IsErr result }
        ensures counted { IsCounted self.old.faults self.new.faults result }
    {
        Err(self.fail())
    }
}
