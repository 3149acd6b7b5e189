// Callers of the board, as its page shows them. They are proved with the tests.
ghost use Rattle.std.specs.Prelude.{◌≡◌, ◌+◌, ◌^◌, ◌<◌, ◌≤◌, ◌++◌, ◌∷◌, [], length, Contains, Some, slice_get, IfOk, IfSome, option_copied, option_to_list};
ghost use mathlib.Core.List.{IsPrefix};
ghost use Rattle.history_board.specs.declared.view.Bearing.{Bearing};
ghost use Rattle.history_board.specs.Bearings.{placed, IsAbove};

use crate::{HistoryBoard, Keeper, Made, Note, Pin};
use base_core::Want;

/// Commits two entries, and pins the time of the second. A note from between them meets one that saw both.
pub fn commit_twice<E: Made>(
    keeper: &mut Keeper<E>,
    board: &HistoryBoard<E>,
    first: &E,
    second: &E,
) -> Result<(Note<E>, Pin<E>), Want>
    requires board { board.now ≡ keeper.old.board }
    requires room { length keeper.old.seen + 2 < 2 ^ 64 }
    requires alone { keeper.old.since ≡ [] }
    requires nobodys { (E.session_of first.now ≡ 0) × (E.session_of second.now ≡ 0) }
    ensures history { IfOk result (λ r. keeper.new.seen ≡ (keeper.old.seen ++ first.now ∷ []) ++ second.now ∷ []) }
    ensures note { IfOk result (λ r. IsPrefix keeper.new.seen r.0.seen) }
    ensures boards { IfOk result (λ r. (keeper.new.board ≡ keeper.old.board) × (r.0.board ≡ keeper.old.board) × (r.1.board ≡ keeper.old.board)) }
    ensures pin { IfOk result (λ r. (r.1.time ≡ length keeper.new.seen) × (r.1.seen ≡ keeper.new.seen)) }
{
    keeper.commit(first);
    let mut early = keeper.note();
    let time = keeper.commit(second);
    let pin = keeper.pin(time)?;
    let late = keeper.note();
    let mut copy = early.copy(board);
    copy.meet(board, late);
    early.meet(board, copy);
    Ok((early, pin))
}

/// Pins the newest time for the holder of a note, who lends a copy of it. That time is not below what the note had seen.
pub fn pin_for<E: Made>(
    keeper: &mut Keeper<E>,
    board: &HistoryBoard<E>,
    note: &mut Note<E>,
    newest: u64,
) -> Result<Pin<E>, Want>
    requires boards { (board.now ≡ keeper.old.board) × (note.old.board ≡ board.now) }
    requires newest { newest ≡ length keeper.old.seen }
    ensures above { IfOk result (λ p. length note.old.seen ≤ p.time) }
    ensures onward { IfOk result (λ p. IsPrefix note.old.seen p.seen) }
    ensures note { note.new ≡ note.old }
    ensures history { keeper.new.seen ≡ keeper.old.seen }
    ensures board { keeper.new.board ≡ keeper.old.board }
    ensures pin { IfOk result (λ p. p.board ≡ keeper.old.board) }
{
    keeper.meet(note.copy(board));
    keeper.pin(newest)
}

/// The keeper meets what a pin has seen. The pin stays out.
pub fn meet_pin<E: Made>(keeper: &mut Keeper<E>, board: &HistoryBoard<E>, pin: &mut Pin<E>)
    requires boards { (board.now ≡ keeper.old.board) × (pin.old.board ≡ board.now) }
    ensures known { IsPrefix pin.old.seen keeper.old.seen }
    ensures stays { (pin.new ≡ pin.old) × (keeper.new.out ≡ keeper.old.out) }
    ensures history { keeper.new.seen ≡ keeper.old.seen }
    ensures board { keeper.new.board ≡ keeper.old.board }
{
    keeper.meet(pin.copy_note(board));
}

/// A session's note goes to the keeper for a commit and comes back. The entry is the session's own then, and where there is
/// another, the session is unsure of that.
pub fn commit_as<E: Made>(
    keeper: &mut Keeper<E>,
    note: &mut Note<E>,
    entry: &E,
    unsure: Option<&E>,
) -> u64
    requires board { note.old.board ≡ keeper.old.board }
    requires room { length keeper.old.seen + 1 < 2 ^ 64 }
    requires one { (b : Bearing E) × (note.old.bears ≡ b ∷ []) × (b.session ≡ E.session_of entry.now) × IsAbove E.session_of E.command_of b (E.command_of entry.now) }
    requires unsure { IfSome (option_copied unsure) (λ e. (E.session_of e ≡ E.session_of entry.now) × (E.command_of entry.now < E.command_of e) × ((b : Bearing E) → note.old.bears ≡ b ∷ [] → IsAbove E.session_of E.command_of b (E.command_of e))) }
    ensures length { result ≡ length keeper.new.seen }
    ensures appended { keeper.new.seen ≡ keeper.old.seen ++ entry.now ∷ [] }
    ensures own { (b : Bearing E) → note.old.bears ≡ b ∷ [] → note.new.bears ≡ record b { mine = b.mine ++ placed (length keeper.old.seen) entry.now ∷ []; unsure = b.unsure ++ option_to_list (option_copied unsure.entry) } ∷ [] }
    ensures doubt { keeper.new.doubt ≡ keeper.old.doubt ++ option_to_list (option_copied unsure.entry) }
    ensures since { keeper.new.since ≡ keeper.old.since }
    ensures floor { keeper.new.floor ≡ keeper.old.floor }
    ensures boards { (keeper.new.board ≡ keeper.old.board) × (note.new.board ≡ note.old.board) }
    ensures whole { note.new.seen ≡ keeper.new.seen }
{
    keeper.take(note);
    let length = keeper.commit(entry);
    keeper.hand(note, entry.session(), unsure);
    length
}
