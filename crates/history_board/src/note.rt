ghost use Rattle.std.specs.Prelude.{◌≡◌, ◌++◌, [], max};
ghost use mathlib.Core.List.{IsPrefix};
ghost use Rattle.history_board.specs.Bearings.{longer};

use crate::board::{HistoryBoard, Place};
use crate::made::Made;
use std::marker::Model;

/// A token that shows a beginning of the board's history. Each call takes the board that the note is of.
#[derive(Drop)]
pub struct Note<E> {
    pub(crate) floor: u64,
    pub(crate) seat: Place<E>,
}

impl<E> Model for Note<E> {
    ghost use Rattle.std.specs.Prelude.{◌≡◌, []};
    ghost use Rattle.history_board.specs.Tokens.{Seen};

    ghost Value = { Seen E };

    ghost use Rattle.history_board.specs.Tokens.{seen_of};
    ghost use Rattle.history_board.specs.Views.{IsNoting};

    ghost view = { λ n. seen_of n.seat.table_id n.seat.me.0 };

    ghost invariant = { λ n. (n.seat.me.1 ≡ []) × IsNoting n.seat.me.0 × (n.floor ≡ n.seat.me.0.floor_seen) };
}

impl<E: Made> Note<E> {
    /// A note that has seen as much, and bears no session.
    pub fn copy(&mut self, board: &HistoryBoard<E>) -> Note<E>
        requires { self.old.board ≡ board.now }
        ensures copy { result ≡ record self.old { bears = [] } }
        ensures same { self.new ≡ self.old }
    {
        Note {
            floor: self.floor,
            seat: board.tell(&mut self.seat),
        }
    }

    /// Takes in another note of the board: both had seen beginnings of one history, and it has now seen the longer.
    pub fn meet(&mut self, board: &HistoryBoard<E>, other: Note<E>)
        requires here { self.old.board ≡ board.now }
        requires there { other.board ≡ board.now }
        ensures longer { self.new.seen ≡ longer self.old.seen other.seen }
        ensures this { IsPrefix self.old.seen self.new.seen }
        ensures that { IsPrefix other.seen self.new.seen }
        ensures floor { self.new.floor ≡ max self.old.floor other.floor }
        ensures count { self.new.count ≡ max self.old.count other.count }
        ensures bears { self.new.bears ≡ self.old.bears ++ other.bears }
        ensures board { self.new.board ≡ self.old.board }
    {
        let Note { floor, seat } = other;
        board.join(&mut self.seat, seat);
        board.look(&mut self.seat);
        self.floor = self.floor.max(floor);
    }

    /// The greatest floor that it has seen. It makes no step.
    pub fn floor(&self) -> u64
        ensures { result ≡ self.now.floor }
    {
        self.floor
    }
}
