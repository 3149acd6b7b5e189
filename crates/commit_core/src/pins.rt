// The room's pins. Each is at the whole history.
ghost use Rattle.std.specs.Prelude.{◌≡◌, None, [], length, slice_set, IfOk, OnOk, OnErr};
ghost use Rattle.std.specs.List.{AllByRecursion};
ghost use mathlib.Core.List.{IsPrefix};
ghost use Rattle.commit_core.specs.Rooms.{IsSoundRoom};
ghost use Rattle.commit_core.specs.Steps.{pin_back};
ghost use Rattle.commit_core.specs.Pins.{IsPinAt, ArePutOut, IsSameOut};

use crate::state::CommitState;
use base_core::{List, Want};
use change_model::Committed;
use disk_core::Disk;
use history_board::{Note, Pin};
use std::alloc::Global;

impl<D: Disk> CommitState<D> {
    /// So many pins, each at the whole history, which the lent note sees too. After an `Err` no pin more is out.
    pub fn pin(
        &mut self,
        alloc: Global,
        seen: &mut Note<Committed>,
        count: u32,
    ) -> Result<List<Pin<Committed>>, Want>
        requires { seen.old.board ≡ self.old.board }
        ensures count { IfOk result (λ pins. length pins ≡ count) }
        ensures each { IfOk result (AllByRecursion (IsPinAt self.old)) }
        ensures out { IfOk result (λ pins. ArePutOut self.old.out pins self.new.out) }
        ensures room { self.new ≡ record self.old { out = self.new.out; floor_seen = self.new.floor_seen; count = self.new.count } }
        ensures refused { OnErr result (IsSameOut self.old.out self.new.out) }
        ensures known { OnOk result (IsPrefix seen.old.seen self.old.seen) }
        ensures whole { OnOk result (seen.new.seen ≡ self.old.seen) }
        ensures bears { seen.new.bears ≡ seen.old.bears }
        ensures board { seen.new.board ≡ seen.old.board }
        ensures note { OnErr result (seen.new ≡ seen.old) }
        ensures sound { IsSoundRoom D.fault_count self.new }
    {
        match self.parts.ledger.pins(alloc, count) {
            Ok(pins) => {
                self.parts.ledger.show(seen);
                Ok(List::of(pins))
            }
            Err(want) => Err(want),
        }
    }

    /// Takes a pin back.
    pub fn release(&mut self, pin: Pin<Committed>)
        requires { pin.board ≡ self.old.board }
        ensures room { self.new ≡ pin_back pin.number self.old }
        ensures sound { IsSoundRoom D.fault_count self.new }
    {
        self.parts.ledger.release(pin);
    }
}
