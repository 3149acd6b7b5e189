// A caller of the room, as its page shows it. It is proved with the tests.
ghost use Rattle.std.specs.Prelude.{◌≡◌, ◌≤◌, ◌∷◌, [], length, IfOk};
ghost use Rattle.history_board.specs.Tokens.{MayEnrol};
ghost use Rattle.commit_core.specs.Rooms.{BearsOrigin, BearsSession, IsDecidedFor, kept_of};
ghost use Rattle.commit_core.specs.Steps.{Stays};

use crate::{CommitFault, CommitState};
use base_core::Want;
use body_codec::Receipt;
use change_model::{Committed, Origin, Resolved};
use disk_core::Disk;
use history_board::{Note, Pin};
use std::alloc::Global;

/// One pin at the whole history.
pub fn one_pin<D: Disk>(
    alloc: Global,
    room: &mut CommitState<D>,
    note: &mut Note<Committed>,
) -> Result<Pin<Committed>, Want>
    requires { note.old.board ≡ room.old.board }
    ensures pin { IfOk result (λ pin. pin.board ≡ room.new.board) }
    ensures board { room.new.board ≡ room.old.board }
    ensures undecided { room.new.undecided ≡ room.old.undecided }
    ensures note { note.new.board ≡ note.old.board }
    ensures bears { note.new.bears ≡ note.old.bears }
{
    let mut pins = room.pin(alloc, note, 1)?.into_items();
    match pins.pop() {
        Some(pin) => Ok(pin),
        None => Err(Want::NoMemory),
    }
}

/// A session pins, and commits its change.
pub fn load<D: Disk>(
    alloc: Global,
    room: &mut CommitState<D>,
    note: &mut Note<Committed>,
    receipt: Receipt,
    resolved: Resolved,
    origin: Origin,
) -> Result<u64, CommitFault>
    requires board { note.old.board ≡ room.old.board }
    requires one { BearsOrigin note.old origin }
    requires from_home { 1 ≤ receipt.home }
    requires to_home { receipt.home ≤ 16 }
    requires body { 1 ≤ receipt.body }
    ensures time { IfOk result (λ time. time ≡ length room.new.seen) }
    ensures whole { IfOk result (λ time. note.new.seen ≡ room.new.seen) }
    ensures board { room.new.board ≡ room.old.board }
    ensures note { note.new.board ≡ note.old.board }
    ensures still { BearsSession note.new origin.session }
{
    let pin = one_pin(alloc, room, note)?;
    room.commit(alloc, note, pin, receipt, resolved, origin)
}
