// The keeper's calls that enrol sessions and move them between it and their notes.
ghost use Rattle.std.specs.Prelude.{◌≡◌, ◌≤◌, ◌++◌, ◌∷◌, [], length, max, map, IfSome, option_copied, option_to_list};
ghost use mathlib.Core.List.{IsPrefix};
ghost use Rattle.history_board.specs.declared.view.Bearing.{Bearing};
ghost use Rattle.history_board.specs.declared.view.Enrolment.{Enrolment};
ghost use Rattle.history_board.specs.Bearings.{borne, others, Bears, newcomer, unsure_of, without};
ghost use Rattle.history_board.specs.Tokens.{IsSound, MayEnrol, MayDoubt};

use crate::keeper::Keeper;
use crate::made::Made;
use crate::note::Note;
use std::marker::Brand;

impl<E: Made> Keeper<E> {
    /// A note that has seen the whole history, and bears the session, which has made nothing yet. What the session made at
    /// an earlier enrolment is forgotten, and its entries are in doubt no more.
    pub fn enrol(&mut self, session: u32) -> Note<E>
        requires from_one { 1 ≤ session }
        requires most { session ≤ 16 }
        requires may { MayEnrol self.old session }
        ensures note { result ≡ record { board = self.old.board; seen = self.old.seen; floor = self.old.floor_seen; count = self.old.posted; bears = newcomer session ∷ [] } }
        ensures kept { self.new ≡ record self.old { bears = others session self.old.bears; since = record { session = session; length = length self.old.seen } ∷ self.old.since; doubt = without E.session_of session self.old.doubt } }
        ensures sound { IsSound E.session_of E.command_of self.new }
    {
        let seat = self.board.enrol::<Brand>(&mut self.seat, session);
        self.board.look(&mut self.seat);
        Note {
            floor: self.floor_seen,
            seat,
        }
    }

    /// Bears the session that the note bore.
    pub fn take(&mut self, seen: &mut Note<E>)
        requires board { seen.old.board ≡ self.old.board }
        requires one { (b : Bearing E) × (seen.old.bears ≡ b ∷ []) }
        ensures kept { self.new ≡ record self.old { bears = self.old.bears ++ seen.old.bears; floor_seen = max self.old.floor_seen seen.old.floor; count = max self.old.count seen.old.count } }
        ensures note { seen.new ≡ record seen.old { bears = [] } }
        ensures known { IsPrefix seen.old.seen self.old.seen }
        ensures sound { IsSound E.session_of E.command_of self.new }
    {
        let bearer = self.board.unburden(&mut seen.seat);
        self.board.join(&mut self.seat, bearer);
        self.board.look(&mut self.seat);
        self.floor_seen = self.floor_seen.max(seen.floor);
    }

    /// The note bears the session again, and has seen the whole history and the posted count. Where there is an entry of
    /// which the session is unsure, it is in doubt from then on.
    pub fn hand(&mut self, seen: &mut Note<E>, session: u32, unsure: Option<&E>)
        requires board { seen.old.board ≡ self.old.board }
        requires bears { Bears self.old.bears session }
        requires unsure { IfSome (option_copied unsure) (MayDoubt E.session_of E.command_of self.old session) }
        ensures kept { self.new ≡ record self.old { bears = others session self.old.bears; doubt = self.old.doubt ++ option_to_list (option_copied unsure.entry); floor_seen = max self.old.floor_seen seen.old.floor; count = max self.old.count seen.old.count } }
        ensures bears { seen.new.bears ≡ seen.old.bears ++ map (unsure_of (option_to_list (option_copied unsure.entry))) (borne session self.old.bears) }
        ensures whole { seen.new.seen ≡ self.old.seen }
        ensures count { seen.new.count ≡ self.old.posted }
        ensures floor { seen.new.floor ≡ max seen.old.floor self.old.floor_seen }
        ensures board { seen.new.board ≡ seen.old.board }
        ensures sound { IsSound E.session_of E.command_of self.new }
    {
        let bearer = self.board.hand::<Brand>(&mut self.seat, session, unsure);
        let floor = self.floor_seen;
        let known = self.board.tell(&mut seen.seat);
        self.board.join(&mut self.seat, known);
        self.board.look(&mut self.seat);
        self.floor_seen = self.floor_seen.max(seen.floor);
        self.board.join(&mut seen.seat, bearer);
        self.board.look(&mut seen.seat);
        seen.floor = seen.floor.max(floor);
    }

    /// The session has left, and the keeper bears what it made.
    pub fn leave(&mut self, seen: Note<E>)
        requires board { seen.board ≡ self.old.board }
        requires one { (b : Bearing E) × (seen.bears ≡ b ∷ []) }
        ensures kept { self.new ≡ record self.old { bears = self.old.bears ++ seen.bears; floor_seen = max self.old.floor_seen seen.floor; count = max self.old.count seen.count } }
        ensures known { IsPrefix seen.seen self.old.seen }
        ensures sound { IsSound E.session_of E.command_of self.new }
    {
        self.take_in(seen);
    }
}
