//! The commit of a change.
ghost use Rattle.std.specs.Prelude.{◌≡◌, ◌≤◌, ℕ, List, Option, length};
ghost use Rattle.record_log.specs.Items.{IsMidway};
ghost use Rattle.record_log.specs.Devices.{ChangesOnly};
ghost use Rattle.commit_core.specs.Rooms.{IsSoundRoom, BearsOrigin, BearsSession};
ghost use Rattle.commit_core.specs.Records.{Recorded, IsCommitOf, CommitCarries, LogLeaves};
ghost use Rattle.commit_core.specs.Resolving.{HasRows, IsResolvedFor};
ghost use Rattle.commit_core.specs.Steps.{CommitStep, Stays, pin_back};

use crate::fault::CommitFault;
use crate::state::CommitState;
use body_codec::Receipt;
use change_model::{Committed, Origin, Resolved};
use disk_core::Disk;
use history_board::{Note, Pin};
use std::alloc::Global;

impl<D: Disk> CommitState<D> {
    /// Commits a change whose body is at its home, and answers its time. The pin is taken back, whatever is answered.
    ///
    /// All memory is taken first. Then what is undecided is decided, the change's record is put, and the history grows.
    pub fn commit(
        &mut self,
        alloc: Global,
        seen: &mut Note<Committed>,
        pin: Pin<Committed>,
        receipt: Receipt,
        resolved: Resolved,
        origin: Origin,
    ) -> Result<u64, CommitFault>
        requires board { seen.old.board ≡ self.old.board }
        requires pin_board { pin.board ≡ self.old.board }
        requires one { BearsOrigin seen.old origin }
        requires from_home { 1 ≤ receipt.home }
        requires to_home { receipt.home ≤ 16 }
        requires body { 1 ≤ receipt.body }
        ensures step { CommitStep D.fault_count (pin_back pin.number self.old) self.new seen.old seen.new (record { change = resolved.change; origin = origin }) result }
        ensures rows { HasRows self.old → IsResolvedFor self.old.seen pin.time resolved → HasRows self.new }
        ensures sound { IsSoundRoom D.fault_count self.new }
        ensures stays { Stays (pin_back pin.number self.old) self.new }
        ensures still { BearsSession seen.new origin.session }
        ensures note_board { seen.new.board ≡ seen.old.board }
        ensures carries { (entries : List Recorded) (waiting : Option Recorded) → IsCommitOf (D.told self.old.disk) self.old entries waiting
            → CommitCarries (D.told self.new.disk) self.new entries waiting (record { home = receipt.home; number = receipt.body; committed = record { change = resolved.change; origin = origin } }) result }
        ensures leaves { (entries : List Recorded) (waiting : Option Recorded) → IsCommitOf (D.told self.old.disk) self.old entries waiting
            → LogLeaves (IsMidway entries waiting (Some (record { home = receipt.home; number = receipt.body; committed = record { change = resolved.change; origin = origin } }))) (D.told self.old.disk) (D.told self.new.disk) }
        ensures others { ChangesOnly 0 (D.told self.old.disk) (D.told self.new.disk) }
    {
        let pinned = pin.time();
        self.parts.ledger.release(pin);
        let planned = self.parts.plan(alloc, &receipt, &resolved, pinned)?;
        let committed = Committed {
            change: resolved.change,
            origin,
        };
        self.parts.place(seen, committed, planned, self.most)
    }
}
