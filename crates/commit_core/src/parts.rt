//! The parts of the room: the ledger, the device and the log on it. What is undecided is decided here, and a change is put.
ghost use Rattle.std.specs.Prelude.{◌≡◌, ◌≢◌, ◌+◌, ◌^◌, ◌<◌, ◌≤◌, ◌++◌, ◌∷◌, ℕ, List, Option, None, Some, [], length, true, false, IfOk, OnOk, OnErr, Ok, Err};
ghost use Rattle.std.specs.Arc.{arc_value};
ghost use Rattle.change_model.specs.Entries.{IsEntry};
ghost use Rattle.record_log.specs.Items.{Decides, with_one};
ghost use Rattle.record_log.specs.Logs.{file_of, needs_mend, HasRoom};
ghost use Rattle.record_log.specs.Devices.{ChangesOnly};
ghost use Rattle.commit_core.specs.Rooms.{BearsOrigin};
ghost use Rattle.commit_core.specs.Steps.{SettleStep, RECORD_SIZE};
ghost use Rattle.commit_core.specs.Records.{Recorded, IsCommitOf, SettleCarries, LogLeaves, record_bytes, committed_in};
ghost use Rattle.commit_core.specs.Ledgers.{IsLedger, AreTied, room_of, ledger_decided};
ghost use Rattle.commit_core.specs.Puts.{PutStep, PutCarries, PutWaits};

use crate::fault::CommitFault;
use crate::ledger::Ledger;
use change_model::{Committed, Entry};
use disk_core::Disk;
use history_board::Note;
use record_log::{LogFault, Prepared, RecordLog};
use std::sync::Arc;

#[derive(Drop)]
pub struct Parts<D> {
    pub ledger: Ledger,
    pub disk: D,
    pub log: RecordLog,
}

impl<D: Disk> Parts<D> {
    /// Decides what is undecided, and answers whether it came in.
    pub fn decide(&mut self) -> Result<bool, CommitFault>
        requires tied { AreTied D.fault_count self.old.ledger self.old.disk self.old.log }
        requires sound { IsLedger self.old.ledger }
        ensures step { (most : ℕ) → SettleStep D.fault_count (room_of self.old.ledger self.old.disk self.old.log most) (room_of self.new.ledger self.new.disk self.new.log most) result }
        ensures tied { AreTied D.fault_count self.new.ledger self.new.disk self.new.log }
        ensures room { self.old.ledger.room ≤ self.new.ledger.room + 1 }
        ensures log_room { HasRoom self.old.log → HasRoom self.new.log }
        ensures sound { IsLedger self.new.ledger }
        ensures none { self.old.ledger.waiting ≡ None → result ≡ Ok false }
        ensures decided { IfOk result (λ kept. self.new.ledger ≡ record (ledger_decided kept self.old.ledger) { room = self.new.ledger.room; keeper = record (ledger_decided kept self.old.ledger).keeper { posted = self.new.ledger.keeper.posted } }) }
        ensures carries { (most : ℕ) (entries : List Recorded) (waiting : Option Recorded) → IsCommitOf (D.told self.old.disk) (room_of self.old.ledger self.old.disk self.old.log most) entries waiting
            → SettleCarries (D.told self.new.disk) (room_of self.new.ledger self.new.disk self.new.log most) entries waiting result }
        ensures leaves { (most : ℕ) (entries : List Recorded) (waiting : Option Recorded) → IsCommitOf (D.told self.old.disk) (room_of self.old.ledger self.old.disk self.old.log most) entries waiting
            → LogLeaves (Decides entries waiting) (D.told self.old.disk) (D.told self.new.disk) }
        ensures others { ChangesOnly 0 (D.told self.old.disk) (D.told self.new.disk) }
    {
        let mended = self.log.mend(&mut self.disk);
        self.ledger.post(self.disk.faults());
        match mended {
            Ok(kept) => {
                self.ledger.decide(kept);
                Ok(kept)
            }
            Err(_) => Err(CommitFault::DiskFault {
                count: self.disk.faults(),
            }),
        }
    }

    /// Puts the record of a change, whose memory is taken. The change comes in, or it is undecided, or the log is full.
    pub fn put(
        &mut self,
        seen: &mut Note<Committed>,
        committed: Committed,
        entry: Arc<Entry>,
        prepared: &Prepared,
    ) -> Result<u64, CommitFault>
        requires tied { AreTied D.fault_count self.old.ledger self.old.disk self.old.log }
        requires sound { IsLedger self.old.ledger }
        requires settled { self.old.ledger.waiting ≡ None }
        requires room { 0 < self.old.ledger.room }
        requires log_room { HasRoom self.old.log }
        requires size { length prepared.now ≡ RECORD_SIZE }
        requires board { seen.old.board ≡ self.old.ledger.keeper.board }
        requires most { length self.old.ledger.keeper.seen + 1 < 2 ^ 64 }
        requires one { BearsOrigin seen.old committed.origin }
        requires entry { IsEntry (length self.old.ledger.keeper.seen + 1) (arc_value entry) }
        ensures step { (most : ℕ) → length self.old.ledger.keeper.seen < most
            → PutStep D.fault_count (room_of self.old.ledger self.old.disk self.old.log most) (room_of self.new.ledger self.new.disk self.new.log most) seen.old seen.new committed result }
        ensures entered { OnOk result (self.new.ledger.entries ≡ self.old.ledger.entries ++ arc_value entry ∷ []) }
        ensures waits { OnErr result (PutWaits self.old.ledger self.new.ledger committed (arc_value entry)) }
        ensures tied { AreTied D.fault_count self.new.ledger self.new.disk self.new.log }
        ensures sound { IsLedger self.new.ledger }
        ensures carries { (most : ℕ) (entries : List Recorded) (coming : Recorded) → prepared.now ≡ record_bytes coming → committed ≡ coming.committed
            → IsCommitOf (D.told self.old.disk) (room_of self.old.ledger self.old.disk self.old.log most) entries None
            → PutCarries (D.told self.new.disk) (room_of self.new.ledger self.new.disk self.new.log most) entries coming result }
        ensures leaves { (most : ℕ) (entries : List Recorded) (coming : Recorded) → prepared.now ≡ record_bytes coming
            → IsCommitOf (D.told self.old.disk) (room_of self.old.ledger self.old.disk self.old.log most) entries None
            → LogLeaves (Decides entries (Some coming)) (D.told self.old.disk) (D.told self.new.disk) }
        ensures others { ChangesOnly 0 (D.told self.old.disk) (D.told self.new.disk) }
    {
        let put = self.log.put_prepared(&mut self.disk, prepared);
        self.ledger.post(self.disk.faults());
        match put {
            Ok(_) => Ok(self.ledger.enter(seen, committed, entry)),
            Err(LogFault::Full) => Err(CommitFault::LogFull),
            Err(LogFault::Failed) => {
                self.ledger.doubt(seen, committed, entry);
                Err(CommitFault::Unsure {
                    count: self.disk.faults(),
                })
            }
            Err(LogFault::NoMemory | LogFault::NeedsMend | LogFault::BadRecord { .. }) => {
                unreachable!()
            }
        }
    }
}
