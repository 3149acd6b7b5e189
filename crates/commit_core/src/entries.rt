// The entries of the history.
ghost use Rattle.std.specs.Prelude.{◌≡◌, ◌≤◌, [], length, map, slice_range, IfOk};
ghost use Rattle.std.specs.Arc.{arc_value};
ghost use Rattle.change_model.specs.Entries.{AreEntriesBetween, AreTimed};
ghost use Rattle.commit_core.specs.Rooms.{IsSoundRoom};
ghost use Rattle.commit_core.specs.Resolving.{HasRows};

use crate::plan::shared;
use crate::state::CommitState;
use base_core::{List, Want};
use change_model::{Committed, Entry, some_entries_law};
use disk_core::Disk;
use history_board::Note;
use std::alloc::Global;
use std::sync::Arc;

impl<D: Disk> CommitState<D> {
    /// The entries after one time and up to another, and a note that has seen them. No row is copied.
    pub fn entries(
        &mut self,
        alloc: Global,
        from: u64,
        upto: u64,
    ) -> Result<(List<Arc<Entry>>, Note<Committed>), Want>
        requires order { from ≤ upto }
        requires known { upto ≤ length self.old.seen }
        ensures entries { IfOk result (λ found. map arc_value found.0 ≡ slice_range self.old.entries from upto) }
        ensures timed { IfOk result (λ found. AreTimed from (map arc_value found.0)) }
        ensures rows { HasRows self.old → IfOk result (λ found. AreEntriesBetween self.old.seen from upto (map arc_value found.0)) }
        ensures note { IfOk result (λ found. found.1 ≡ record { board = self.old.board; seen = self.old.seen; floor = self.old.floor_seen; count = self.old.posted; bears = [] }) }
        ensures same { self.new ≡ self.old }
        ensures sound { IsSoundRoom D.fault_count self.new }
    {
        some_entries_law();
        let entries = self.parts.ledger.entries();
        let found = shared(alloc, &entries[from as usize..upto as usize])?;
        Ok((List::of(found), self.parts.ledger.note()))
    }
}
