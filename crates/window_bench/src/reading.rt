//! Reading windows by keys and by chunks.
use crate::filling::key_of;
use disk_core::NoDisk;
use fed_bytes::Key;
use row_core::Chunk;
use std::alloc::Global;
use window_core::{Window, WindowFault};

/// How many keys are read at once.
const KEYS: u32 = 512;

/// How many of the first so many numbers have a row.
pub fn count_by_keys<W: Window>(alloc: Global, window: &W, count: u64) -> Result<u64, WindowFault> {
    let mut disk = NoDisk::new();
    let mut found: u64 = 0;
    for number in 0..count {
        let key = key_of(alloc, number)?;
        if window
            .last(alloc, &mut disk, key.bytes(), window.upto())?
            .is_some()
        {
            found = found.saturating_add(1);
        }
    }
    Ok(found)
}

/// How many rows the window has, up to so many keys.
pub fn count_by_chunks<W: Window>(
    alloc: Global,
    window: &W,
    count: u64,
) -> Result<u64, WindowFault> {
    let mut disk = NoDisk::new();
    let mut key = Key::of(alloc, b"")?;
    let mut found: u64 = 0;
    for _ in 0..=count {
        let Chunk { rows, next } = window.chunk(alloc, &mut disk, key.bytes(), KEYS)?;
        found = found.saturating_add(rows.items().len() as u64);
        let Some(next) = next else {
            return Ok(found);
        };
        key = next;
    }
    Ok(found)
}
