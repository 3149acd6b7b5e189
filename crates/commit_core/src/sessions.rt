// The room's calls that enrol sessions, let them leave, and show them the history.
ghost use Rattle.std.specs.Prelude.{◌≡◌, ◌≤◌, ◌++◌, ◌∷◌, [], length, max};
ghost use mathlib.Core.List.{IsPrefix};
ghost use Rattle.history_board.specs.Bearings.{others, newcomer, without};
ghost use Rattle.history_board.specs.Tokens.{MayEnrol};
ghost use Rattle.history_board.specs.declared.view.Bearing.{Bearing};
ghost use Rattle.history_board.specs.declared.view.Enrolment.{Enrolment};
ghost use Rattle.commit_core.specs.Rooms.{IsSoundRoom, IsDecidedFor, session_of, kept_of};

use crate::state::CommitState;
use change_model::Committed;
use disk_core::Disk;
use history_board::Note;

impl<D: Disk> CommitState<D> {
    /// A note that has seen the whole history, and bears the session, which has made nothing yet.
    pub fn enrol(&mut self, session: u32) -> Note<Committed>
        requires from_one { 1 ≤ session }
        requires most { session ≤ 16 }
        requires may { MayEnrol (kept_of self.old) session }
        requires decided { IsDecidedFor self.old.undecided session }
        ensures note { result ≡ record { board = self.old.board; seen = self.old.seen; floor = self.old.floor_seen; count = self.old.posted; bears = newcomer session ∷ [] } }
        ensures room { self.new ≡ record self.old { bears = others session self.old.bears; since = record { session = session; length = length self.old.seen } ∷ self.old.since; doubt = without session_of session self.old.doubt } }
        ensures sound { IsSoundRoom D.fault_count self.new }
    {
        self.parts.ledger.enrol(session)
    }

    /// The session has left, and the room's keeper bears what it made.
    pub fn leave(&mut self, seen: Note<Committed>)
        requires board { seen.board ≡ self.old.board }
        requires one { (b : Bearing Committed) × (seen.bears ≡ b ∷ []) }
        ensures room { self.new ≡ record self.old { bears = self.old.bears ++ seen.bears; floor_seen = max self.old.floor_seen seen.floor; count = max self.old.count seen.count } }
        ensures known { IsPrefix seen.seen self.old.seen }
        ensures sound { IsSoundRoom D.fault_count self.new }
    {
        self.parts.ledger.leave(seen);
    }

    /// The lent note sees the whole history. What it bears stays with it.
    pub fn show(&mut self, seen: &mut Note<Committed>)
        requires { seen.old.board ≡ self.old.board }
        ensures room { self.new ≡ record self.old { floor_seen = self.new.floor_seen; count = self.new.count } }
        ensures known { IsPrefix seen.old.seen self.old.seen }
        ensures whole { seen.new.seen ≡ self.old.seen }
        ensures bears { seen.new.bears ≡ seen.old.bears }
        ensures board { seen.new.board ≡ seen.old.board }
        ensures posted { seen.new.count ≡ self.old.posted }
        ensures sound { IsSoundRoom D.fault_count self.new }
    {
        self.parts.ledger.show(seen);
    }
}
