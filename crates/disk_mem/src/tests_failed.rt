//! Calls that are to fail.
use crate::MemoryDisk;
use crate::test_help::holds;
use disk_core::{Disk, Failed};
use std::test::Fail;

#[test]
fn the_call_of_a_number_fails_and_changes_nothing(rt: HostRuntime) -> Result<(), Fail> {
    let alloc = rt.alloc();
    let fails = vec![in alloc; 2, 3, 6]?;
    let mut disk = MemoryDisk::make(alloc, fails, None)?;
    disk.write_at(1, 0, b"ab")?;
    assert_eq!(rt; disk.write_at(1, 0, b"xy"), Err(Failed));
    assert_eq!(rt; disk.remove(1), Err(Failed));
    assert_eq!(rt; disk.faults(), 2);
    assert!(rt; holds(&mut disk, 1, b"ab"));
    disk.sync(1)?;
    assert_eq!(rt; disk.length(1), Err(Failed));
    assert_eq!(rt; disk.length(1), Ok(2));
    assert_eq!(rt; disk.faults(), 3);
    assert_eq!(rt; disk.starved(), 0);
    Ok(())
}

#[test]
fn want_of_memory_is_counted_and_changes_nothing(rt: HostRuntime) -> Result<(), Fail> {
    let alloc = rt.alloc();
    let mut disk = MemoryDisk::make(alloc, Vec::new(alloc), None)?;
    disk.write_at(1, 0, b"ab")?;
    assert_eq!(rt; disk.write_at(1, 1 << 62, b"c"), Err(Failed));
    assert_eq!(rt; disk.starved(), 1);
    assert_eq!(rt; disk.faults(), 1);
    assert!(rt; holds(&mut disk, 1, b"ab"));
    assert_eq!(rt; disk.length(1)?, 2);
    Ok(())
}
