//! What reads give after writes and removals.
use crate::test_help::{disk, holds};
use disk_core::Disk;
use std::test::Fail;

#[test]
fn a_gap_reads_as_zeros(rt: HostRuntime) -> Result<(), Fail> {
    let mut disk = disk(rt.alloc())?;
    disk.write_at(1, 0, b"ab")?;
    disk.write_at(1, 4, b"c")?;
    disk.write_at(3, 2, b"d")?;
    assert!(rt; holds(&mut disk, 1, b"ab\0\0c"));
    assert!(rt; holds(&mut disk, 3, b"\0\0d"));
    Ok(())
}

#[test]
fn a_removed_file_is_missing(rt: HostRuntime) -> Result<(), Fail> {
    let mut disk = disk(rt.alloc())?;
    assert_eq!(rt; disk.greatest()?, 0);
    disk.write_at(7, 0, b"a")?;
    disk.write_at(9, 0, b"b")?;
    assert_eq!(rt; disk.greatest()?, 9);
    disk.remove(9)?;
    assert_eq!(rt; disk.greatest()?, 7);
    assert_eq!(rt; disk.length(9)?, 0);
    disk.write_at(9, 1, b"c")?;
    assert!(rt; holds(&mut disk, 9, b"\0c"));
    Ok(())
}
