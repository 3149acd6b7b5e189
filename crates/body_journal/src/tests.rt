//! Journals over a disk in memory, whose calls are counted from 1: starting an empty journal takes three, and putting a
//! record four.
use super::*;
use body_codec::Ticket;
use disk_core::Disk;
use disk_mem::MemoryDisk;
use record_log::RecordLog;
use std::alloc::Global;
use std::test::Fail;

/// The file of journal 1.
const FILE: u64 = 2;

/// The body of the Add of `<http://e/a> <http://e/p> <http://e/b> .` has so many bytes.
const BODY_SIZE: usize = 67;

/// A disk on which this call fails, or none.
fn disk_failing(alloc: Global, call: Option<u64>) -> Result<MemoryDisk, Fail> {
    let mut fails = Vec::new(alloc);
    if let Some(call) = call {
        fails.push(call)?;
    }
    Ok(MemoryDisk::make(alloc, fails, None)?)
}

/// The journals of service 3 on an empty disk.
fn journal(alloc: Global, disk: &mut MemoryDisk, limit: u64) -> Result<BodyJournal, Fail> {
    let log = RecordLog::start(alloc, disk, FILE, limit)?;
    Ok(BodyJournal::make(alloc, 3, log, 1, 0))
}

/// A body of so many bytes that are all this one.
fn bytes(alloc: Global, byte: u8, size: usize) -> Result<Vec<u8>, Fail> {
    Ok(vec![in alloc; byte; size]?)
}

fn queue(alloc: Global, journal: &mut BodyJournal, body: Vec<u8>) -> Result<Ticket, Fail> {
    if body.len() > 1000 {
        return Err("the body is too long")?;
    }
    Ok(journal.queue_body(alloc, body)?)
}

/// The number of a body that is flushed, or the fault.
fn flush(
    alloc: Global,
    journal: &mut BodyJournal,
    disk: &mut MemoryDisk,
    ticket: Ticket,
) -> Result<u64, JournalFault> {
    if ticket.body.items().len() > 1000 {
        return Err(JournalFault::NoMemory);
    }
    let receipt = journal.flush_group(alloc, disk, ticket)?;
    Ok(receipt.body)
}

/// Whether the file holds these bytes, which are fewer than 64, and no others.
fn holds(disk: &mut MemoryDisk, bytes: &[u8]) -> bool {
    let mut out = [0u8; 64];
    match disk.read_at(FILE, 0, &mut out) {
        Ok(count) => &out[..count] == bytes,
        Err(_) => false,
    }
}

/// How many records the journal of this disk has.
fn records(alloc: Global, disk: &mut MemoryDisk) -> Result<u64, Fail> {
    Ok(RecordLog::start(alloc, disk, FILE, 1000)?.count())
}

/// The numbers of three bodies that were queued one after the other.
fn three(
    alloc: Global,
    journal: &mut BodyJournal,
    disk: &mut MemoryDisk,
) -> Result<[Result<u64, JournalFault>; 3], Fail> {
    let first = queue(alloc, journal, bytes(alloc, 1, 2)?)?;
    let second = queue(alloc, journal, bytes(alloc, 2, 1)?)?;
    let third = queue(alloc, journal, bytes(alloc, 3, 0)?)?;
    let first = flush(alloc, journal, disk, first);
    let second = flush(alloc, journal, disk, second);
    let third = flush(alloc, journal, disk, third);
    Ok([first, second, third])
}

#[test]
fn bodies_that_wait_are_one_record(rt: HostRuntime) -> Result<(), Fail> {
    let alloc = rt.alloc();
    let mut disk = disk_failing(alloc, None)?;
    let mut room = journal(alloc, &mut disk, 1000)?;
    assert_eq!(rt; three(alloc, &mut room, &mut disk)?, [Ok(1), Ok(2), Ok(3)]);
    assert_eq!(rt; room.stored(), 3);
    assert!(rt;
        holds(
            &mut disk,
            &[
                1, 0, 0, 0, 19, 0, 0, 0, 3, 0, 0, 0, 2, 1, 1, 0, 0, 0, 1, 2, 0, 0, 0, 0, 0
            ]
        )
    );
    Ok(())
}

/// What a flush gets whose k-th call fails, and how many records a crash then leaves: with what was written, and without.
fn failing_at(alloc: Global, k: u64) -> Result<(Result<u64, JournalFault>, u64, u64), Fail> {
    let mut disk = disk_failing(alloc, Some(k))?;
    let mut room = journal(alloc, &mut disk, 1000)?;
    let ticket = queue(alloc, &mut room, bytes(alloc, 7, BODY_SIZE)?)?;
    let flushed = flush(alloc, &mut room, &mut disk, ticket);
    let with = records(alloc, &mut disk.image(alloc, true)?)?;
    let without = records(alloc, &mut disk.image(alloc, false)?)?;
    Ok((flushed, with, without))
}

#[test]
fn each_call_of_a_flush_fails(rt: HostRuntime) -> Result<(), Fail> {
    let alloc = rt.alloc();
    let fault = Err(JournalFault::DiskFault { disk: 3, count: 1 });
    assert_eq!(rt; failing_at(alloc, 4)?, (fault, 0, 0));
    assert_eq!(rt; failing_at(alloc, 5)?, (fault, 0, 0));
    assert_eq!(rt; failing_at(alloc, 6)?, (fault, 0, 0));
    assert_eq!(rt; failing_at(alloc, 7)?, (fault, 1, 0));
    assert_eq!(rt; failing_at(alloc, 8)?, (Ok(1), 1, 1));
    Ok(())
}

/// A first body is stored. Of three more, the flush of the first meets a fault at this call. What the others get.
fn second_group(alloc: Global, k: u64) -> Result<[Result<u64, JournalFault>; 3], Fail> {
    let mut disk = disk_failing(alloc, Some(k))?;
    let mut room = journal(alloc, &mut disk, 1000)?;
    let ticket = queue(alloc, &mut room, bytes(alloc, 9, 9)?)?;
    if flush(alloc, &mut room, &mut disk, ticket) != Ok(1) {
        return Err("the first flush failed")?;
    }
    three(alloc, &mut room, &mut disk)
}

#[test]
fn a_second_group_goes_on_behind_the_first(rt: HostRuntime) -> Result<(), Fail> {
    let alloc = rt.alloc();
    let fault = Err(JournalFault::DiskFault { disk: 3, count: 1 });
    assert_eq!(rt; second_group(alloc, 8)?, [fault, Ok(2), Ok(3)]);
    assert_eq!(rt; second_group(alloc, 9)?, [fault, Ok(2), Ok(3)]);
    assert_eq!(rt; second_group(alloc, 10)?, [fault, Ok(2), Ok(3)]);
    assert_eq!(rt; second_group(alloc, 11)?, [fault, Ok(5), Ok(4)]);
    Ok(())
}
