//! The files of a folder as a device.
ghost use Rattle.std.specs.Prelude.{◌≡◌, ◌≤◌, None, Ok, IfOk};
ghost use Rattle.base_core.specs.Faults.{IsCounted};

use crate::files::Files;
use disk_core::{Disk, Failed};
use std::io;

/// One file for each number, in a folder. It tells no content.
#[derive(Drop)]
pub struct FileDisk<'a> {
    files: Files<'a>,
    faults: u64,
}

impl<'a> FileDisk<'a> {
    /// The files of that folder, which is made where it is missing. No other device may be over it at the same time.
    pub fn open(rt: &'a HostRuntime, folder: &str) -> io::Result<FileDisk<'a>> {
        Ok(FileDisk {
            files: Files::open(rt, folder)?,
            faults: 0,
        })
    }
}

impl Disk for FileDisk<'_> {
    ghost told = { λ _. None };

    ghost fault_count = { λ disk. disk.faults };

    ghost sound = { λ _. tt };

    fn faults(&self) -> u64 {
        self.faults
    }

    fn length(&mut self, file: u64) -> Result<u64, Failed> {
        let length_of = self.files.length_of(file);
        counted(&mut self.faults, length_of)
    }

    fn greatest(&mut self) -> Result<u64, Failed> {
        let greatest = self.files.greatest();
        counted(&mut self.faults, greatest)
    }

    fn read_at(&mut self, file: u64, at: u64, out: &mut [u8]) -> Result<usize, Failed> {
        let read = self.files.read(file, at, out);
        counted(&mut self.faults, read)
    }

    fn write_at(&mut self, file: u64, at: u64, bytes: &[u8]) -> Result<(), Failed> {
        let written = self.files.write(file, at, bytes);
        counted(&mut self.faults, written)
    }

    fn sync(&mut self, file: u64) -> Result<(), Failed> {
        let synced = self.files.sync(file);
        counted(&mut self.faults, synced)
    }

    fn remove(&mut self, file: u64) -> Result<(), Failed> {
        let removed = self.files.remove(file);
        counted(&mut self.faults, removed)
    }
}

/// A fault is counted.
fn counted<T>(faults: &mut u64, outcome: io::Result<T>) -> Result<T, Failed>
    ensures counted { IsCounted faults.old faults.new result }
    ensures same { IfOk result (λ value. outcome ≡ Ok value) }
{
    match outcome {
        Ok(value) => Ok(value),
        Err(_) => {
            *faults = faults.saturating_add(1);
            Err(Failed)
        }
    }
}
