//! The log over a small device in memory.
ghost use Rattle.std.specs.Prelude.{◌≤◌, None, length, IfOk, OnErr};
ghost use Rattle.base_core.specs.Faults.{HasRisen, IsCounted};

use super::*;
use base_core::Want;
use disk_core::{Disk, Failed};
use std::alloc::Global;
use std::test::Fail;

/// One file in memory, whatever its number. Its calls fail from one on, for as long as is asked.
#[derive(Drop)]
struct OneFile {
    bytes: Vec<u8>,
    /// What the last sync stored.
    stored: Vec<u8>,
    calls: u32,
    fails_at: u32,
    faults: u64,
}

const NEVER: u32 = u32::MAX;

impl OneFile {
    fn of(alloc: Global, bytes: &[u8]) -> Result<OneFile, Fail> {
        Ok(OneFile {
            bytes: bytes.to_vec(alloc)?,
            stored: bytes.to_vec(alloc)?,
            calls: 0,
            fails_at: NEVER,
            faults: 0,
        })
    }

    /// From now on, the k-th call fails and all behind it.
    fn fail_at(&mut self, k: u32) {
        self.calls = 0;
        self.fails_at = k;
    }

    fn fail(&mut self) -> Failed
        ensures later { self.old.faults ≤ self.new.faults }
        ensures risen { HasRisen self.old.faults self.new.faults }
    {
        self.faults = self.faults.saturating_add(1);
        Failed
    }

    fn call(&mut self) -> Result<(), Failed>
        ensures { IsCounted self.old.faults self.new.faults result }
    {
        self.calls = self.calls.saturating_add(1);
        if self.calls > self.fails_at {
            return Err(self.fail());
        }
        Ok(())
    }
}

/// Puts the bytes into a list from a place on, and zeros before them where it ends earlier.
fn write_into(list: &mut Vec<u8>, at: usize, bytes: &[u8]) -> Result<(), Want> {
    let end = at.saturating_add(bytes.len());
    if list.len() < end {
        list.resize(end, 0)?;
    }
    'bytes: for (to, from) in list.iter_mut().skip(at).zip(bytes) {
        *to = *from;
    }
    Ok(())
}

impl Disk for OneFile {
    ghost told = { λ _. None };

    ghost fault_count = { λ disk. disk.faults };

    ghost sound = { λ _. tt };

    fn faults(&self) -> u64 {
        self.faults
    }

    fn length(&mut self, _file: u64) -> Result<u64, Failed>
        ensures counted { IsCounted self.old.faults self.new.faults result }
    {
        self.call()?;
        Ok(self.bytes.len() as u64)
    }

    fn greatest(&mut self) -> Result<u64, Failed>
        ensures counted { IsCounted self.old.faults self.new.faults result }
    {
        self.call()?;
        Ok(0)
    }

    fn read_at(&mut self, _file: u64, at: u64, out: &mut [u8]) -> Result<usize, Failed>
        ensures counted { IsCounted self.old.faults self.new.faults result }
        ensures within { IfOk result (λ n. n ≤ length out.new) }
    {
        self.call()?;
        let Some(rest) = self.bytes.get(at as usize..) else {
            return Ok(0);
        };
        let count = rest.len().min(out.len());
        'bytes: for (to, from) in out.iter_mut().zip(rest) {
            *to = *from;
        }
        Ok(count)
    }

    fn write_at(&mut self, _file: u64, at: u64, bytes: &[u8]) -> Result<(), Failed>
        ensures counted { IsCounted self.old.faults self.new.faults result }
    {
        self.call()?;
        if write_into(&mut self.bytes, at as usize, bytes).is_err() {
            return Err(self.fail());
        }
        Ok(())
    }

    fn sync(&mut self, _file: u64) -> Result<(), Failed>
        ensures counted { IsCounted self.old.faults self.new.faults result }
    {
        self.call()?;
        self.stored.clear();
        if self.stored.extend_from_slice(&self.bytes).is_err() {
            return Err(self.fail());
        }
        Ok(())
    }

    fn remove(&mut self, _file: u64) -> Result<(), Failed>
        ensures counted { IsCounted self.old.faults self.new.faults result }
    {
        self.call()?;
        self.bytes.clear();
        Ok(())
    }
}

const FILE: u64 = 7;

/// The fault of a start of a log with these bytes, or none.
fn fault_of(alloc: Global, bytes: &[u8]) -> Result<Option<LogFault>, Fail> {
    let mut disk = OneFile::of(alloc, bytes)?;
    Ok(RecordLog::start(alloc, &mut disk, FILE, 1000).err())
}

/// How many records a log with these bytes has.
fn count_of(alloc: Global, bytes: &[u8]) -> Result<u64, Fail> {
    let mut disk = OneFile::of(alloc, bytes)?;
    Ok(RecordLog::start(alloc, &mut disk, FILE, 1000)?.count())
}

/// The body of a record, if there is one.
fn body_of(
    alloc: Global,
    log: &RecordLog,
    disk: &mut OneFile,
    k: u64,
) -> Result<Option<Vec<u8>>, Fail> {
    if k < log.count() {
        return Ok(Some(log.read(alloc, disk, k)?));
    }
    Ok(None)
}

fn put_of(
    alloc: Global,
    log: &mut RecordLog,
    disk: &mut OneFile,
    body: &[u8],
) -> Result<u64, LogFault> {
    if body.len() > 1000 {
        return Err(LogFault::Full);
    }
    log.put(alloc, disk, body)
}

#[test]
fn records_are_put_and_read_again(rt: HostRuntime) -> Result<(), Fail> {
    let alloc = rt.alloc();
    let mut disk = OneFile::of(alloc, b"")?;
    let mut log = RecordLog::start(alloc, &mut disk, FILE, 1000)?;
    assert_eq!(rt; log.put(alloc, &mut disk, b"ab"), Ok(1));
    assert_eq!(rt; log.put(alloc, &mut disk, b""), Ok(2));
    assert_eq!(rt; log.put(alloc, &mut disk, b"c"), Ok(3));
    assert_eq!(rt;
        disk.stored.as_slice(),
        [
            1, 0, 0, 0, 2, b'a', b'b', 1, 0, 0, 0, 0, 1, 0, 0, 0, 1, b'c', 0
        ]
        .as_slice()
    );
    let again = RecordLog::start(alloc, &mut disk, FILE, 1000)?;
    assert_eq!(rt; again.count(), 3);
    let first = body_of(alloc, &again, &mut disk, 0)?.ok_or("no record")?;
    assert_eq!(rt; first.as_slice(), b"ab".as_slice());
    let second = body_of(alloc, &again, &mut disk, 1)?.ok_or("no record")?;
    assert_eq!(rt; second.as_slice(), b"".as_slice());
    let third = body_of(alloc, &log, &mut disk, 2)?.ok_or("no record")?;
    assert_eq!(rt; third.as_slice(), b"c".as_slice());
    Ok(())
}

#[test]
fn what_stands_behind_an_open_gate(rt: HostRuntime) -> Result<(), Fail> {
    let alloc = rt.alloc();
    let bad = Some(LogFault::BadRecord { at: 0 });
    assert_eq!(rt; fault_of(alloc, &[1, 0, 0, 0, 9, 1])?, bad);
    assert_eq!(rt; fault_of(alloc, &[1, 0])?, bad);
    assert_eq!(rt; fault_of(alloc, &[1, 0, 0, 0, 0])?, bad, "no next gate");
    assert_eq!(rt; fault_of(alloc, &[1, 0, 0, 0, 1, 7])?, bad, "no next gate");
    assert_eq!(rt; fault_of(alloc, &[1, 255, 255, 255, 255, 0])?, bad);
    let next = Some(LogFault::BadRecord { at: 6 });
    assert_eq!(rt; fault_of(alloc, &[1, 0, 0, 0, 1, 7, 1])?, next);
    assert_eq!(rt; count_of(alloc, &[1, 0, 0, 0, 1, 7, 2, 1, 1])?, 1);
    assert_eq!(rt; count_of(alloc, &[0, 1, 1, 1, 1, 1])?, 0);
    Ok(())
}

/// A put of "b" behind a record "a", whose k-th call fails, and all behind it.
fn failed_put(alloc: Global, k: u32) -> Result<(RecordLog, OneFile), Fail> {
    let mut disk = OneFile::of(alloc, &[1, 0, 0, 0, 1, b'a', 0])?;
    let mut log = RecordLog::start(alloc, &mut disk, FILE, 1000)?;
    disk.fail_at(k);
    let put = log.put(alloc, &mut disk, b"b");
    disk.fail_at(NEVER);
    if put != Err(LogFault::Failed) || disk.faults != 1 {
        return Err("the put didn't fail")?;
    }
    Ok((log, disk))
}

/// Whether a mend after that says that the record is in, and how many records a log then has.
fn mended(alloc: Global, k: u32) -> Result<(bool, u64, u64), Fail> {
    let (mut log, mut disk) = failed_put(alloc, k)?;
    if put_of(alloc, &mut log, &mut disk, b"c") != Err(LogFault::NeedsMend) {
        return Err("the log needs no mend")?;
    }
    let is_in = log.mend(&mut disk)?;
    if log.needs_mend() {
        return Err("the log needs a mend")?;
    }
    Ok((is_in, log.count(), count_of(alloc, disk.stored.as_slice())?))
}

#[test]
fn a_mend_says_what_a_failed_put_left(rt: HostRuntime) -> Result<(), Fail> {
    let alloc = rt.alloc();
    assert_eq!(rt; mended(alloc, 0)?, (false, 1, 1));
    assert_eq!(rt; mended(alloc, 1)?, (false, 1, 1));
    assert_eq!(rt; mended(alloc, 2)?, (false, 1, 1));
    assert_eq!(rt; mended(alloc, 3)?, (true, 2, 2));
    Ok(())
}

/// How many records a crash leaves at the k-th call of a put: as the last sync stored the file, and as reads give it.
fn left_at(alloc: Global, k: u32) -> Result<(u64, u64), Fail> {
    let (_, disk) = failed_put(alloc, k)?;
    Ok((
        count_of(alloc, disk.stored.as_slice())?,
        count_of(alloc, disk.bytes.as_slice())?,
    ))
}

#[test]
fn a_crash_in_a_put_leaves_the_records_or_one_more(rt: HostRuntime) -> Result<(), Fail> {
    let alloc = rt.alloc();
    assert_eq!(rt; left_at(alloc, 0)?, (1, 1));
    assert_eq!(rt; left_at(alloc, 1)?, (1, 1));
    assert_eq!(rt; left_at(alloc, 2)?, (1, 1));
    assert_eq!(rt; left_at(alloc, 3)?, (1, 2));
    Ok(())
}

/// Whether records of these two sizes fit.
fn fit(log: &RecordLog, size: u64, larger: u64) -> (bool, bool) {
    (log.fits(size), log.fits(larger))
}

#[test]
fn what_fits_within_a_limit(rt: HostRuntime) -> Result<(), Fail> {
    let alloc = rt.alloc();
    let mut disk = OneFile::of(alloc, b"")?;
    let mut log = RecordLog::start(alloc, &mut disk, FILE, 30)?;
    assert_eq!(rt; log.limit(), 30);
    assert_eq!(rt; fit(&log, 24, 25), (true, false));
    assert_eq!(rt; fit(&log, 0, u64::MAX), (true, false));
    assert_eq!(rt; log.put(alloc, &mut disk, b"abc"), Ok(1));
    assert_eq!(rt; fit(&log, 16, 17), (true, false));
    disk.fail_at(2);
    assert_eq!(rt; log.put(alloc, &mut disk, b"d"), Err(LogFault::Failed));
    assert_eq!(rt; fit(&log, 10, 11), (true, false), "as if it were in");
    disk.fail_at(NEVER);
    assert_eq!(rt; log.mend(&mut disk), Ok(false));
    assert_eq!(rt; fit(&log, 16, 17), (true, false));
    Ok(())
}

/// Prepares the record "cd" while a put is undecided, mends, and puts it. Whether the mend took the other in, and the count.
fn prepared_before_a_mend(alloc: Global, k: u32) -> Result<(bool, u64), Fail> {
    let (mut log, mut disk) = failed_put(alloc, k)?;
    let prepared = log.prepare(alloc, b"cd")?;
    let is_in = log.mend(&mut disk)?;
    let count = log.put_prepared(&mut disk, &prepared)?;
    let body = body_of(alloc, &log, &mut disk, count.saturating_sub(1))?.ok_or("no record")?;
    if body.as_slice() != b"cd".as_slice() {
        return Err("another record")?;
    }
    Ok((is_in, count))
}

#[test]
fn a_prepared_record_is_put_after_a_mend(rt: HostRuntime) -> Result<(), Fail> {
    let alloc = rt.alloc();
    assert_eq!(rt; prepared_before_a_mend(alloc, 1)?, (false, 2));
    assert_eq!(rt; prepared_before_a_mend(alloc, 3)?, (true, 3));
    Ok(())
}
