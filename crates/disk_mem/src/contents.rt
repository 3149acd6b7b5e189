//! The bytes of each file that isn't missing, by its number.
//!
//! No file in the map is empty: the greatest number there is that of a file with bytes.
ghost use Rattle.std.specs.Prelude.{◌≡◌, ◌≢◌, ◌+◌, ◌-◌, ◌<◌, ◌≤◌, ◌^◌, ℕ, [], ◌++◌, length, take, drop, replicate, OnOk, OnErr, IfOk};
ghost use Rattle.disk_core.specs.Files.{with_bytes};
ghost use Rattle.disk_mem.specs.Contents.{bytes_in, HasNoEmpty, IsPut, SameBytes};
ghost use Rattle.disk_mem.specs.Replay.{IsApplied};

use crate::call::Call;
use std::alloc::{AllocError, Global};
use std::collections::BTreeMap;

#[derive(Drop)]
pub(crate) struct Contents {
    pub(crate) files: BTreeMap<u64, Vec<u8>>,
    ghost no_empty: { HasNoEmpty files },
}

impl Contents {
    /// No files.
    pub(crate) fn new(alloc: Global) -> Contents
        ensures { (file : ℕ) → bytes_in result.files file ≡ [] }
    {
        Contents {
            files: BTreeMap::new(alloc),
        }
    }

    /// The same bytes once more.
    pub(crate) fn copy(&self) -> Result<Contents, AllocError>
        ensures { IfOk result (λ copy. SameBytes self.now.files copy.files) }
    {
        Ok(Contents {
            files: self.files.clone()?,
        })
    }

    /// The bytes of a file. A missing one has none.
    pub(crate) fn bytes(&self, file: u64) -> &[u8]
        ensures { result.now ≡ bytes_in self.now.files file }
    {
        match self.files.get(&file) {
            Some(bytes) => bytes.as_slice(),
            None => &[],
        }
    }

    /// The greatest number of a file with bytes, or 0.
    pub(crate) fn greatest(&self) -> u64
        ensures above { (file : ℕ) → file < 2 ^ 64 → result < file → bytes_in self.now.files file ≡ [] }
        ensures found { 0 < result → bytes_in self.now.files result ≢ [] }
    {
        match self.files.last_key_value() {
            Some((file, _)) => *file,
            None => 0,
        }
    }

    /// Puts the bytes into the file from `at` on. After an `Err` all is as it was.
    fn write(&mut self, alloc: Global, file: u64, at: u64, bytes: &[u8]) -> Result<(), AllocError>
        ensures ok { OnOk result (IsPut file (with_bytes (bytes_in self.old.files file) at bytes.now) self.old.files self.new.files) }
        ensures err { OnErr result (SameBytes self.old.files self.new.files) }
    {
        if bytes.is_empty() {
            return Ok(());
        }
        if let Some(held) = self.files.get_mut(&file) {
            return put(held, at, bytes);
        }
        let mut held = Vec::new(alloc);
        put(&mut held, at, bytes)?;
        self.files.insert(file, held)?;
        Ok(())
    }

    /// Does a call. After an `Err` all is as it was.
    pub(crate) fn apply(&mut self, alloc: Global, call: &Call) -> Result<(), AllocError>
        ensures ok { OnOk result (IsApplied call.now self.old.files self.new.files) }
        ensures err { OnErr result (SameBytes self.old.files self.new.files) }
    {
        match call {
            Call::Write { file, at, bytes } => self.write(alloc, *file, *at, bytes.as_slice()),
            Call::Sync { .. } => Ok(()),
            Call::Remove { file } => {
                self.remove(*file);
                Ok(())
            }
        }
    }

    /// Takes a file out.
    fn remove(&mut self, file: u64)
        ensures { IsPut file [] self.old.files self.new.files }
    {
        self.files.remove(&file);
    }
}

/// Puts bytes in from `at` on, with zeros in a gap. After an `Err` all is as it was.
fn put(held: &mut Vec<u8>, at: u64, bytes: &[u8]) -> Result<(), AllocError>
    requires { bytes.now ≢ [] }
    ensures ok { OnOk result (held.new.items ≡ with_bytes held.old.items at bytes.now) }
    ensures err { OnErr result (held.new.items ≡ held.old.items) }
{
    let Some(end) = at.checked_add(bytes.len() as u64) else {
        return Err(AllocError);
    };
    grow(held, end as usize)?;
    overwrite(held.as_mut_slice(), at as usize, bytes);
    Ok(())
}

/// Adds zeros up to that length.
fn grow(held: &mut Vec<u8>, end: usize) -> Result<(), AllocError>
    ensures ok { OnOk result (held.new.items ≡ held.old.items ++ replicate (end - length held.old.items) 0) }
    ensures err { OnErr result (held.new.items ≡ held.old.items) }
{
    if end <= held.len() {
        return Ok(());
    }
    held.resize(end, 0)
}

/// Writes over the bytes from `at` on.
fn overwrite(held: &mut [u8], at: usize, bytes: &[u8])
    requires { at + length bytes.now ≤ length held.old }
    ensures { held.new ≡ (take at held.old ++ bytes.now) ++ drop (at + length bytes.now) held.old }
{
    held[at..at + bytes.len()].copy_from_slice(bytes);
}
