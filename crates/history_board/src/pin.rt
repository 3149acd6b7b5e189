ghost use Rattle.std.specs.Prelude.{◌≡◌, ◌≤◌, [], length, max};
ghost use mathlib.Core.List.{IsPrefix};
ghost use Rattle.history_board.specs.Bearings.{longer};

use crate::board::{HistoryBoard, Place};
use crate::made::Made;
use crate::note::Note;
use std::marker::Model;

/// A token that holds the history at a time: while it is out, the floor does not pass that time. It goes back by
/// `Keeper::release`. One that is dropped counts as live for good.
#[derive(Drop)]
pub struct Pin<E> {
    pub(crate) time: u64,
    pub(crate) number: u64,
    pub(crate) floor: u64,
    pub(crate) seat: Place<E>,
}

impl<E> Model for Pin<E> {
    ghost use Rattle.std.specs.Prelude.{◌≡◌, ◌≤◌, [], length};
    ghost use Rattle.history_board.specs.Tokens.{Pinned};

    ghost Value = { Pinned E };

    ghost use Rattle.history_board.specs.Tokens.{pinned_of};
    ghost use Rattle.history_board.specs.Views.{IsPinning};

    ghost view = { λ p. pinned_of p.seat.table_id p.seat.me.0 };

    ghost invariant = { λ p. (p.seat.me.1 ≡ []) × IsPinning p.seat.me.0 × (p.time ≡ p.seat.me.0.time) × (p.number ≡ p.seat.me.0.number) × (p.floor ≡ p.seat.me.0.floor_seen) × (p.seat.me.0.time ≤ length p.seat.me.0.seen) × (p.seat.me.0.floor_seen ≤ p.seat.me.0.time) };
}

impl<E: Made> Pin<E> {
    /// The time that it holds. Its history has at least as many entries, and no floor that it saw is above it.
    pub fn time(&self) -> u64
        ensures time { result ≡ self.now.time }
        ensures seen { self.now.time ≤ length self.now.seen }
        ensures floor { self.now.floor ≤ self.now.time }
    {
        self.time
    }

    /// Takes in a note of the board that bears no session: both had seen beginnings of one history, and the pin has now
    /// seen the longer. The floor that the note saw is at most the pin's time.
    pub fn meet(&mut self, board: &HistoryBoard<E>, note: Note<E>)
        requires here { self.old.board ≡ board.now }
        requires there { note.board ≡ board.now }
        requires free { note.bears ≡ [] }
        ensures longer { self.new.seen ≡ longer self.old.seen note.seen }
        ensures this { IsPrefix self.old.seen self.new.seen }
        ensures that { IsPrefix note.seen self.new.seen }
        ensures floor { note.floor ≤ self.new.time }
        ensures floors { self.new.floor ≡ max self.old.floor note.floor }
        ensures count { self.new.count ≡ max self.old.count note.count }
        ensures pin { (self.new.board ≡ self.old.board) × (self.new.number ≡ self.old.number) × (self.new.time ≡ self.old.time) }
    {
        let Note { floor, seat } = note;
        board.join(&mut self.seat, seat);
        board.look(&mut self.seat);
        self.floor = self.floor.max(floor);
    }

    /// A note that has seen as much.
    pub fn copy_note(&mut self, board: &HistoryBoard<E>) -> Note<E>
        requires { self.old.board ≡ board.now }
        ensures note { result ≡ record { board = self.old.board; seen = self.old.seen; floor = self.old.floor; count = self.old.count; bears = [] } }
        ensures same { self.new ≡ self.old }
    {
        Note {
            floor: self.floor,
            seat: board.tell(&mut self.seat),
        }
    }
}
