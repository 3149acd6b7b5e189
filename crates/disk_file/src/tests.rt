use crate::FileDisk;
use disk_core::{Disk, Failed};
use std::alloc::AllocError;
use std::test::Fail;
use std::{env, fs, process};

/// A folder of the test's own.
fn folder(rt: &HostRuntime, name: &str) -> Result<String, Fail> {
    let outer = env::temp_dir(rt)?;
    let id = process::id(rt.process());
    let outer = outer.to_str().ok_or("a folder's name is no text")?;
    let path: Result<String, AllocError> = format!(in rt.alloc(); "{outer}/disk_file_{name}_{id}");
    Ok(path?)
}

/// Whether the file holds these bytes, which are fewer than sixteen, and no others.
fn holds(disk: &mut FileDisk, file: u64, bytes: &[u8]) -> Result<bool, Failed> {
    let mut out = [0u8; 16];
    let count = disk.read_at(file, 0, &mut out)?;
    if count > out.len() {
        return Ok(false);
    }
    Ok(&out[..count] == bytes)
}

#[test]
fn a_file_holds_what_was_written(rt: HostRuntime) -> Result<(), Fail> {
    let folder = folder(&rt, "written")?;
    let mut disk = FileDisk::open(&rt, folder.as_str())?;
    disk.write_at(3, 0, b"abc")?;
    disk.write_at(3, 5, b"d")?;
    assert!(rt; holds(&mut disk, 3, b"abc\0\0d")?);
    disk.sync(3)?;
    disk.write_at(3, 1, b"xy")?;
    assert!(rt; holds(&mut disk, 3, b"axy\0\0d")?);
    assert_eq!(rt; disk.length(3)?, 6);
    assert_eq!(rt; disk.length(4)?, 0);
    let mut other = FileDisk::open(&rt, folder.as_str())?;
    assert!(rt; holds(&mut other, 3, b"axy\0\0d")?);
    other.sync(3)?;
    assert_eq!(rt; other.faults(), 0);
    fs::remove_dir_all(&rt, folder.as_str())?;
    Ok(())
}

#[test]
fn a_removed_file_is_missing(rt: HostRuntime) -> Result<(), Fail> {
    let folder = folder(&rt, "removed")?;
    let mut disk = FileDisk::open(&rt, folder.as_str())?;
    assert_eq!(rt; disk.greatest()?, 0);
    disk.write_at(9, 0, b"a")?;
    disk.write_at(10, 0, b"b")?;
    assert_eq!(rt; disk.greatest()?, 10);
    disk.remove(10)?;
    disk.sync(10)?;
    disk.remove(10)?;
    assert_eq!(rt; disk.greatest()?, 9);
    assert_eq!(rt; disk.length(10)?, 0);
    disk.write_at(10, 0, b"c")?;
    disk.sync(10)?;
    assert!(rt; holds(&mut disk, 10, b"c")?);
    assert_eq!(rt; disk.faults(), 0);
    fs::remove_dir_all(&rt, folder.as_str())?;
    Ok(())
}
