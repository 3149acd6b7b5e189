//! What a crash leaves after each call of a short run.
use crate::MemoryDisk;
use crate::test_help::{disk, holds};
use base_core::Want;
use disk_core::{Disk, Failed};
use std::alloc::Global;
use std::test::Fail;

/// Six calls.
fn run(disk: &mut MemoryDisk) -> Result<(), Failed> {
    disk.write_at(1, 0, b"ab")?;
    disk.sync(1)?;
    disk.write_at(1, 1, b"xyz")?;
    disk.sync(1)?;
    disk.remove(1)?;
    disk.sync(1)
}

/// Whether the file holds these bytes where the disk stopped before the call with this number.
fn leaves(alloc: Global, stop: u64, all: bool, bytes: &[u8]) -> Result<bool, Want> {
    let mut disk = MemoryDisk::make(alloc, Vec::new(alloc), Some(stop))?;
    let _ = run(&mut disk);
    let mut image = disk.image(alloc, all)?;
    Ok(holds(&mut image, 1, bytes))
}

#[test]
fn pending_writes_stand_or_do_not(rt: HostRuntime) -> Result<(), Fail> {
    let alloc = rt.alloc();
    assert!(rt; leaves(alloc, 1, true, b"")?);
    assert!(rt; leaves(alloc, 2, true, b"ab")?);
    assert!(rt; leaves(alloc, 2, false, b"")?);
    assert!(rt; leaves(alloc, 3, false, b"ab")?);
    assert!(rt; leaves(alloc, 4, true, b"axyz")?);
    assert!(rt; leaves(alloc, 4, false, b"ab")?);
    assert!(rt; leaves(alloc, 5, false, b"axyz")?);
    Ok(())
}

#[test]
fn an_image_is_a_disk_from_which_a_run_goes_on(rt: HostRuntime) -> Result<(), Fail> {
    let alloc = rt.alloc();
    let mut disk = disk(alloc)?;
    disk.write_at(1, 0, b"ab")?;
    disk.sync(1)?;
    disk.write_at(1, 0, b"xy")?;
    let mut image = disk.image(alloc, false)?;
    image.write_at(1, 2, b"c")?;
    assert!(rt; holds(&mut image, 1, b"abc"));
    assert!(rt; holds(&mut image.image(alloc, false)?, 1, b"ab"));
    assert!(rt; holds(&mut disk, 1, b"xy"));
    Ok(())
}
