// A change that is planned comes to its place: behind what is decided first.
ghost use Rattle.std.specs.Prelude.{◌≡◌, ◌≢◌, ◌+◌, ◌≤◌, ℕ, List, Option, Some, length, option_map, IfErr};
ghost use Rattle.std.specs.Arc.{arc_value};
ghost use Rattle.change_model.specs.Entries.{IsEntry};
ghost use Rattle.record_log.specs.Items.{IsMidway};
ghost use Rattle.record_log.specs.Logs.{HasRoom};
ghost use Rattle.record_log.specs.Devices.{ChangesOnly};
ghost use Rattle.commit_core.specs.Rooms.{BearsOrigin, BearsSession};
ghost use Rattle.commit_core.specs.Records.{Recorded, IsCommitOf, CommitCarries, LogLeaves, record_bytes};
ghost use Rattle.commit_core.specs.Steps.{CommitStep, Stays, RECORD_SIZE};
ghost use Rattle.commit_core.specs.Ledgers.{IsLedger, AreTied, room_of};
ghost use Rattle.commit_core.specs.Resolving.{HaveRows};
ghost use Rattle.commit_core.specs.Puts.{IsBehind, HavePlannedRows};

use crate::fault::CommitFault;
use crate::parts::Parts;
use crate::plan::Planned;
use change_model::{Committed, grown_entries_law};
use disk_core::Disk;
use history_board::Note;

impl<D: Disk> Parts<D> {
    /// Decides what is undecided, and puts the change behind it. It takes no memory.
    pub fn place(
        &mut self,
        seen: &mut Note<Committed>,
        committed: Committed,
        planned: Planned,
        most: u64,
    ) -> Result<u64, CommitFault>
        requires tied { AreTied D.fault_count self.old.ledger self.old.disk self.old.log }
        requires sound { IsLedger self.old.ledger }
        requires room { 2 ≤ self.old.ledger.room }
        requires log_room { HasRoom self.old.log }
        requires size { length planned.prepared ≡ RECORD_SIZE }
        requires board { seen.old.board ≡ self.old.ledger.keeper.board }
        requires one { BearsOrigin seen.old committed.origin }
        requires alone { IsEntry (length self.old.ledger.keeper.seen + 1) (arc_value planned.entries.alone) }
        requires behind { IsBehind self.old.ledger.waiting (length self.old.ledger.keeper.seen + 2) (option_map arc_value planned.entries.behind) }
        ensures step { CommitStep D.fault_count (room_of self.old.ledger self.old.disk self.old.log most) (room_of self.new.ledger self.new.disk self.new.log most) seen.old seen.new committed result }
        ensures rows { HaveRows self.old.ledger.keeper.seen self.old.ledger.entries self.old.ledger.waiting
            → HavePlannedRows self.old.ledger.keeper.seen self.old.ledger.waiting committed (arc_value planned.entries.alone) (option_map arc_value planned.entries.behind)
            → HaveRows self.new.ledger.keeper.seen self.new.ledger.entries self.new.ledger.waiting }
        ensures memory { IfErr result (λ fault. fault ≢ CommitFault.NoMemory) }
        ensures tied { AreTied D.fault_count self.new.ledger self.new.disk self.new.log }
        ensures sound { IsLedger self.new.ledger }
        ensures carries { (entries : List Recorded) (waiting : Option Recorded) (coming : Recorded) → planned.prepared ≡ record_bytes coming → committed ≡ coming.committed
            → IsCommitOf (D.told self.old.disk) (room_of self.old.ledger self.old.disk self.old.log most) entries waiting
            → CommitCarries (D.told self.new.disk) (room_of self.new.ledger self.new.disk self.new.log most) entries waiting coming result }
        ensures leaves { (entries : List Recorded) (waiting : Option Recorded) (coming : Recorded) → planned.prepared ≡ record_bytes coming
            → IsCommitOf (D.told self.old.disk) (room_of self.old.ledger self.old.disk self.old.log most) entries waiting
            → LogLeaves (IsMidway entries waiting (Some coming)) (D.told self.old.disk) (D.told self.new.disk) }
        ensures others { ChangesOnly 0 (D.told self.old.disk) (D.told self.new.disk) }
    {
        grown_entries_law();
        let kept = match self.decide() {
            Ok(kept) => kept,
            Err(fault) => return Err(fault),
        };
        if self.ledger.length() >= most {
            return Err(CommitFault::HistoryFull);
        }
        let Planned { prepared, entries } = planned;
        self.put(seen, committed, entries.choose(kept), &prepared)
    }
}
