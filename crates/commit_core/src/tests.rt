//! The room over a device in memory, whose calls fail where a test says so.
ghost use Rattle.std.specs.Prelude.{◌≡◌, ◌+◌, ◌<◌, [], length, IfOk, OnOk, false};
ghost use Rattle.record_log.specs.Logs.{file_of, needs_mend, count_of};
ghost use Rattle.commit_core.specs.Rooms.{BearsOrigin, IsNewRoom};

use crate::caller::{load, one_pin};
use crate::{CommitFault, CommitState};
use base_core::{List, Text, Want};
use body_codec::Receipt;
use change_model::{Change, Committed, Kind, Origin, Resolved, vocabulary_of};
use disk_mem::MemoryDisk;
use history_board::{Note, Pin};
use record_log::RecordLog;
use std::alloc::Global;
use std::sync::Arc;
use std::test::Fail;
use term_core::{Statement, Term};

/// A limit that has room for all that the tests commit.
const AMPLE: u64 = 1000;

fn iri(alloc: Global, text: &str) -> Result<Term, Want> {
    Ok(Term::Iri(Text::of(alloc, text)?))
}

/// The load of one triple with this object, resolved before the first commit.
fn resolved(alloc: Global, object: &str) -> Result<Resolved, Want> {
    resolved_triple(alloc, "http://e/a", "http://e/p", object)
}

/// The load of one triple, resolved before the first commit.
fn resolved_triple(
    alloc: Global,
    subject: &str,
    predicate: &str,
    object: &str,
) -> Result<Resolved, Want> {
    let statement = Statement {
        subject: iri(alloc, subject)?,
        predicate: iri(alloc, predicate)?,
        object: iri(alloc, object)?,
    };
    let statements = List::of(vec![in alloc; statement]?);
    let vocabulary = vocabulary_of(alloc, &statements)?;
    let ids = List::of(vec![in alloc; None; vocabulary.terms.items().len()]?);
    let change = Change {
        kind: Kind::Add,
        statements,
    };
    Ok(Resolved {
        change,
        vocabulary,
        ids,
    })
}

/// The body of every load is the first one of service 1.
fn receipt(alloc: Global) -> Result<Receipt, Want>
    ensures { IfOk result (λ receipt. (receipt.home ≡ 1) × (receipt.body ≡ 1)) }
{
    Ok(Receipt {
        home: 1,
        body: 1,
        spelling: Arc::new(alloc, List::of(Vec::new(alloc)))?,
    })
}

/// What this session's load of a triple with this object is answered.
fn load_of(
    alloc: Global,
    room: &mut CommitState<MemoryDisk>,
    note: &mut Note<Committed>,
    session: u32,
    object: &str,
) -> Result<u64, CommitFault>
    requires board { note.old.board ≡ room.old.board }
    requires one { BearsOrigin note.old (record { session = session; command = 1 }) }
    ensures board { room.new.board ≡ room.old.board }
{
    let resolved = resolved(alloc, object)?;
    let receipt = receipt(alloc)?;
    let origin = Origin {
        session,
        command: 1,
    };
    load(alloc, room, note, receipt, resolved, origin)
}

/// The log of an empty device.
fn log_of(alloc: Global, disk: &mut MemoryDisk, limit: u64) -> Result<RecordLog, Want>
    ensures { IfOk result (λ log. (file_of log ≡ 0) × (needs_mend log ≡ false)) }
{
    match RecordLog::start(alloc, disk, 0, limit) {
        Ok(log) => Ok(log),
        Err(_) => Err(Want::NoMemory),
    }
}

/// A room over an empty device, of which the calls with these numbers fail.
fn room_of(
    alloc: Global,
    fails: &[u64],
    limit: u64,
    most: u64,
) -> Result<CommitState<MemoryDisk>, Want>
    ensures { IfOk result (IsNewRoom most) }
{
    let mut disk = MemoryDisk::make(alloc, fails.to_vec(alloc)?, None)?;
    let log = log_of(alloc, &mut disk, limit)?;
    match CommitState::make(alloc, disk, log, most) {
        Ok(room) => Ok(room),
        Err((_, want)) => Err(want),
    }
}

/// What three sessions' loads are answered, the second of them with another object.
fn three_loads(
    alloc: Global,
    fails: &[u64],
    limit: u64,
    most: u64,
) -> Result<([Result<u64, CommitFault>; 3], u64), Want> {
    let mut room = room_of(alloc, fails, limit, most)?;
    let mut one = room.enrol(1);
    let mut two = room.enrol(2);
    let mut three = room.enrol(3);
    let first = load_of(alloc, &mut room, &mut one, 1, "http://e/b");
    let second = load_of(alloc, &mut room, &mut two, 2, "http://e/c");
    let third = load_of(alloc, &mut room, &mut three, 3, "http://e/b");
    Ok(([first, second, third], room.length()))
}

const MANY: u64 = 4_294_967_295;

/// The answers when this one call of the device fails. Starting the log makes three calls, and the first put the next four.
fn after(alloc: Global, call: u64) -> Result<([Result<u64, CommitFault>; 3], u64), Want> {
    three_loads(alloc, &[call], AMPLE, MANY)
}

#[test]
fn a_put_that_failed_before_its_gate_was_open_is_left_out(rt: HostRuntime) -> Result<(), Fail> {
    let left_out = ([Err(CommitFault::Unsure { count: 1 }), Ok(1), Ok(2)], 2);
    assert_eq!(rt; after(rt.alloc(), 4)?, left_out);
    assert_eq!(rt; after(rt.alloc(), 5)?, left_out);
    assert_eq!(rt; after(rt.alloc(), 6)?, left_out);
    Ok(())
}

#[test]
fn a_put_whose_last_sync_failed_is_kept(rt: HostRuntime) -> Result<(), Fail> {
    let kept = ([Err(CommitFault::Unsure { count: 1 }), Ok(2), Ok(3)], 3);
    assert_eq!(rt; after(rt.alloc(), 7)?, kept);
    Ok(())
}

/// Commits the load of a triple with this pin.
fn commit_pinned(
    alloc: Global,
    room: &mut CommitState<MemoryDisk>,
    note: &mut Note<Committed>,
    pin: Pin<Committed>,
    session: u32,
    resolved: Resolved,
) -> Result<u64, CommitFault>
    requires board { note.old.board ≡ room.old.board }
    requires pin_board { pin.board ≡ room.old.board }
    requires one { BearsOrigin note.old (record { session = session; command = 1 }) }
    ensures board { room.new.board ≡ room.old.board }
{
    let receipt = receipt(alloc)?;
    let origin = Origin {
        session,
        command: 1,
    };
    room.commit(alloc, note, pin, receipt, resolved, origin)
}

/// How many ids there are after each change of the history.
fn ids_after_each(alloc: Global, room: &mut CommitState<MemoryDisk>) -> Result<Vec<u64>, Want> {
    let length = room.length();
    let (entries, _note) = room.entries(alloc, 0, length)?;
    let mut ids = Vec::new(alloc);
    'entries: for entry in entries.items() {
        ids.push(entry.terms)?;
    }
    Ok(ids)
}

/// Two sessions pin before the first commit, and then load triples that share a term.
fn loads_of_one_time(alloc: Global) -> Result<Vec<u64>, Want> {
    let mut room = room_of(alloc, &[], AMPLE, MANY)?;
    let mut one = room.enrol(1);
    let mut two = room.enrol(2);
    let first = one_pin(alloc, &mut room, &mut one)?;
    let second = one_pin(alloc, &mut room, &mut two)?;
    let brings = resolved_triple(alloc, "http://e/a", "http://e/p", "http://e/new")?;
    let shares = resolved_triple(alloc, "http://e/new", "http://e/q", "http://e/b")?;
    let _time = commit_pinned(alloc, &mut room, &mut one, first, 1, brings);
    let _time = commit_pinned(alloc, &mut room, &mut two, second, 2, shares);
    ids_after_each(alloc, &mut room)
}

#[test]
fn a_term_that_came_after_the_pin_has_one_id(rt: HostRuntime) -> Result<(), Fail> {
    assert_eq!(rt;
        loads_of_one_time(rt.alloc())?.as_slice(),
        [3, 5].as_slice()
    );
    Ok(())
}

/// Puts the record of the first body of service 1.
fn put_record(alloc: Global, disk: &mut MemoryDisk, log: &mut RecordLog) -> Result<u64, Want> {
    match log.put(alloc, disk, &[1, 0, 0, 0, 0, 0, 0, 0, 1]) {
        Ok(count) => Ok(count),
        Err(_) => Err(Want::NoMemory),
    }
}

/// A device whose commit log has three records.
fn three_records(alloc: Global) -> Result<MemoryDisk, Want> {
    let mut disk = MemoryDisk::make(alloc, Vec::new(alloc), None)?;
    let mut log = log_of(alloc, &mut disk, AMPLE)?;
    put_record(alloc, &mut disk, &mut log)?;
    put_record(alloc, &mut disk, &mut log)?;
    put_record(alloc, &mut disk, &mut log)?;
    Ok(disk)
}

/// Takes in the next change of the log.
fn reload_one(alloc: Global, room: &mut CommitState<MemoryDisk>, object: &str) -> Result<u64, Want>
    requires none { room.old.since ≡ [] }
    requires below { length room.old.seen < count_of room.old.log }
    ensures none { OnOk result (room.new.since ≡ []) }
    ensures log { OnOk result (room.new.log ≡ room.old.log) }
    ensures longer { OnOk result (length room.new.seen ≡ length room.old.seen + 1) }
{
    let resolved = resolved(alloc, object)?;
    room.reload(alloc, resolved)
}

/// How long the history is that opening finds in the log, and how many commits it counts.
fn found(alloc: Global) -> Result<(u64, usize), Want> {
    let mut disk = three_records(alloc)?;
    let log = log_of(alloc, &mut disk, AMPLE)?;
    if log.count() != 3 {
        return Err(Want::NoMemory);
    }
    let mut room = match CommitState::make(alloc, disk, log, MANY) {
        Ok(room) => room,
        Err((_, want)) => return Err(want),
    };
    reload_one(alloc, &mut room, "http://e/b")?;
    reload_one(alloc, &mut room, "http://e/c")?;
    reload_one(alloc, &mut room, "http://e/b")?;
    Ok((room.length(), room.origins().len()))
}

#[test]
fn a_log_of_three_records_is_found(rt: HostRuntime) -> Result<(), Fail> {
    assert_eq!(rt; found(rt.alloc())?, (3, 0));
    Ok(())
}
