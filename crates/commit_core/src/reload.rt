// The changes that opening found in the log.
ghost use Rattle.std.specs.Prelude.{◌≡◌, ◌+◌, ◌<◌, ◌++◌, ◌∷◌, [], length, min, None, IfOk, OnErr};
ghost use Rattle.std.specs.List.{AllByRecursion};
ghost use Rattle.term_core.specs.Term.{IsStatement};
ghost use Rattle.record_log.specs.Logs.{count_of};
ghost use Rattle.change_model.specs.Entries.{IsResolved};
ghost use Rattle.commit_core.specs.Rooms.{IsSoundRoom};
ghost use Rattle.commit_core.specs.Resolving.{HasRows};
ghost use Rattle.commit_core.specs.Steps.{Reloads};

use crate::plan::plan_next;
use crate::state::CommitState;
use base_core::Want;
use change_model::{Committed, Origin, Resolved, grown_entries_law};
use disk_core::Disk;
use std::alloc::Global;

impl<D: Disk> CommitState<D> {
    /// Takes in the next change of the log, which opening has read, and answers its time. It makes no call of the device, and
    /// `origins` stays as it is: the change has the session 0 and its time as its command.
    pub fn reload(&mut self, alloc: Global, resolved: Resolved) -> Result<u64, Want>
        requires none { self.old.since ≡ [] }
        requires below { length self.old.seen < count_of self.old.log }
        ensures step { IfOk result (Reloads self.old self.new resolved.change) }
        ensures rows { HasRows self.old → self.old.undecided ≡ None → IsResolved self.old.seen resolved
            → AllByRecursion IsStatement resolved.change.statements → HasRows self.new }
        ensures err { OnErr result (self.new ≡ self.old) }
        ensures sound { IsSoundRoom D.fault_count self.new }
    {
        grown_entries_law();
        let Some(time) = self.parts.ledger.length().checked_add(1) else {
            return Err(Want::NoMemory);
        };
        let entry = plan_next(alloc, &self.parts.ledger, &resolved, time)?;
        self.parts.ledger.reserve()?;
        let origin = Origin {
            session: 0,
            command: command_at(time),
        };
        let committed = Committed {
            change: resolved.change,
            origin,
        };
        self.parts.ledger.found(&committed, entry);
        Ok(time)
    }
}

/// The command of a change that was found: its time, or the last number where that is greater.
fn command_at(time: u64) -> u32
    ensures { result ≡ min time 4294967295 }
{
    if time < u64::from(u32::MAX) {
        return time as u32;
    }
    u32::MAX
}
