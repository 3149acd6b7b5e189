//! The commit room: one history on a log that may stop at any moment.
ghost use Rattle.std.specs.Prelude.{◌≡◌, ◌≢◌, ◌≤◌, ◌<◌, ◌++◌, ◌∷◌, ℕ, List, Option, None, Some, false, [], length, map, max, option_map, slice_range, IfOk, OnOk, OnErr, MatchResult};
ghost use Rattle.std.specs.Arc.{arc_value};
ghost use mathlib.Core.List.{IsPrefix};
ghost use Rattle.history_board.specs.Bearings.{others, newcomer, without};
ghost use Rattle.history_board.specs.Tokens.{MayEnrol};
ghost use Rattle.history_board.specs.declared.view.Bearing.{Bearing};
ghost use Rattle.history_board.specs.declared.view.Enrolment.{Enrolment};
ghost use Rattle.record_log.specs.Items.{Decides};
ghost use Rattle.record_log.specs.Logs.{file_of, needs_mend};
ghost use Rattle.record_log.specs.Devices.{ChangesOnly};
ghost use Rattle.commit_core.specs.Rooms.{IsSoundRoom, IsNewRoom, IsDecidedFor, session_of, kept_of};
ghost use Rattle.commit_core.specs.Records.{Recorded, IsCommitOf, SettleCarries, LogLeaves};
ghost use Rattle.commit_core.specs.Resolving.{HasRows};
ghost use Rattle.commit_core.specs.Steps.{SettleStep, origin_of_waited};

use crate::fault::CommitFault;
use crate::ledger::Ledger;
use crate::parts::Parts;
use base_core::Want;
use change_model::{Committed, Origin, grown_entries_law};
use disk_core::Disk;
use history_board::{HistoryBoard, Note, Pin};
use record_log::RecordLog;
use std::alloc::Global;
use std::marker::Model;
use std::sync::Arc;

/// The commit room. It owns the device of the commit log, and the one keeper of the board.
#[derive(Drop)]
pub struct CommitState<D: Disk> {
    pub(crate) parts: Parts<D>,
    pub(crate) most: u64,
}

impl<D: Disk> Model for CommitState<D> {
    ghost use Rattle.commit_core.specs.Rooms.{Room};

    ghost Value = { Room D };

    ghost use Rattle.commit_core.specs.Ledgers.{room_of, IsLedger, AreTied};

    ghost view = { λ s. room_of s.parts.ledger s.parts.disk s.parts.log s.most };

    ghost invariant = { λ s. IsLedger s.parts.ledger × AreTied D.fault_count s.parts.ledger s.parts.disk s.parts.log };
}

impl<D: Disk> CommitState<D> {
    /// A room with an empty history, which may have as many commits as `most`. A log with records is read by `reload`.
    pub fn make(
        alloc: Global,
        disk: D,
        log: RecordLog,
        most: u64,
    ) -> Result<CommitState<D>, (D, Want)>
        requires file { file_of log ≡ 0 }
        requires settled { needs_mend log ≡ false }
        ensures new { IfOk result (IsNewRoom most) }
        ensures disk { MatchResult result (λ room. room.disk ≡ disk) (λ refused. refused.0 ≡ disk) }
        ensures log { IfOk result (λ room. room.log ≡ log) }
        ensures rows { IfOk result HasRows }
        ensures sound { IfOk result (IsSoundRoom D.fault_count) }
    {
        match Ledger::make(alloc) {
            Ok(mut ledger) => {
                ledger.post(disk.faults());
                let parts = Parts { ledger, disk, log };
                Ok(CommitState { parts, most })
            }
            Err(want) => Err((disk, want)),
        }
    }

    /// Gives the device back.
    pub fn into_disk(self) -> D
        ensures { result ≡ self.disk }
    {
        let CommitState { parts, most: _ } = self;
        let Parts {
            ledger: _,
            disk,
            log: _,
        } = parts;
        disk
    }

    /// The board, for those who keep notes and pins of it.
    pub fn share(&self) -> Result<Arc<HistoryBoard<Committed>>, Want>
        ensures { IfOk result (λ board. arc_value board ≡ self.now.board) }
    {
        self.parts.ledger.share()
    }

    /// How many changes the history has.
    pub fn length(&self) -> u64
        ensures length { result ≡ length self.now.seen }
        ensures sound { IsSoundRoom D.fault_count self.now }
    {
        self.parts.ledger.length()
    }

    /// Who made each of the commits since opening.
    pub fn origins(&self) -> &[Origin]
        ensures { result.now ≡ self.now.origins }
    {
        self.parts.ledger.origins()
    }

    /// Who made the change whose record is undecided.
    pub fn undecided(&self) -> Option<Origin>
        ensures { result ≡ origin_of_waited self.now.undecided }
    {
        self.parts.ledger.undecided()
    }

    /// Decides what is undecided, if anything is. It takes no memory.
    pub fn settle(&mut self) -> Result<(), CommitFault>
        ensures step { SettleStep D.fault_count self.old self.new result }
        ensures rows { HasRows self.old → HasRows self.new }
        ensures sound { IsSoundRoom D.fault_count self.new }
        ensures carries { (entries : List Recorded) (waiting : Option Recorded) → IsCommitOf (D.told self.old.disk) self.old entries waiting
            → SettleCarries (D.told self.new.disk) self.new entries waiting result }
        ensures leaves { (entries : List Recorded) (waiting : Option Recorded) → IsCommitOf (D.told self.old.disk) self.old entries waiting
            → LogLeaves (Decides entries waiting) (D.told self.old.disk) (D.told self.new.disk) }
        ensures others { ChangesOnly 0 (D.told self.old.disk) (D.told self.new.disk) }
    {
        grown_entries_law();
        match self.parts.decide() {
            Ok(_) => {}
            Err(fault) => return Err(fault),
        }
        Ok(())
    }
}
