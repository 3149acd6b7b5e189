//! What the tests read of a disk.
use crate::MemoryDisk;
use base_core::Want;
use disk_core::Disk;
use std::alloc::Global;

/// A disk on which no call is to fail.
pub(crate) fn disk(alloc: Global) -> Result<MemoryDisk, Want> {
    MemoryDisk::make(alloc, Vec::new(alloc), None)
}

/// Whether the file holds these bytes, which are fewer than sixteen, and no others.
pub(crate) fn holds(disk: &mut MemoryDisk, file: u64, bytes: &[u8]) -> bool {
    let mut out = [0u8; 16];
    match disk.read_at(file, 0, &mut out) {
        Ok(count) => &out[..count] == bytes,
        Err(_) => false,
    }
}
