ghost use Rattle.std.specs.Prelude.{◌≡◌, ◌+◌, ◌^◌, ◌<◌, ◌≤◌, ◌++◌, ◌∷◌, None, [], length, map, max, slice_set, Contains, IfOk, OnErr};
ghost use Rattle.std.specs.Arc.{arc_value};
ghost use mathlib.Core.List.{IsPrefix};
ghost use Rattle.history_board.specs.Bearings.{makes};
ghost use Rattle.history_board.specs.Pins.{IsFree, put_out};
ghost use Rattle.history_board.specs.Tokens.{IsSound, IsNew, MayCommit};

use crate::board::{HistoryBoard, Place};
use crate::made::Made;
use crate::note::Note;
use crate::out;
use crate::pin::Pin;
use atomic_table::Table;
use base_core::Want;
use std::alloc::Global;
use std::marker::{Brand, Model};
use std::sync::Arc;

/// The one token that commits, pins and enrols. It knows the whole history of its board.
#[derive(Drop)]
pub struct Keeper<E: Made> {
    pub(crate) board: Arc<HistoryBoard<E>>,
    pub(crate) seat: Place<E>,
    out: Vec<Option<u64>>,
    pub(crate) floor_seen: u64,
}

impl<E: Made> Model for Keeper<E> {
    ghost use Rattle.std.specs.Prelude.{◌≡◌, []};
    ghost use Rattle.std.specs.Arc.{arc_value};
    ghost use Rattle.history_board.specs.Tokens.{Kept};

    ghost Value = { Kept E };

    ghost use Rattle.history_board.specs.Tokens.{kept_of, IsSound};
    ghost use Rattle.history_board.specs.Views.{IsKeeping};

    ghost view = { λ k. kept_of k.seat.table_id k.seat.me.0 };

    ghost invariant = { λ k. (k.seat.table_id ≡ arc_value k.board) × (k.seat.me.1 ≡ []) × IsKeeping k.seat.me.0 × (k.out.items ≡ k.seat.me.0.out) × (k.floor_seen ≡ k.seat.me.0.floor_seen) × IsSound E.session_of E.command_of (kept_of k.seat.table_id k.seat.me.0) };
}

/// A new board, with an empty history.
pub fn make<E: Made>(alloc: Global) -> Result<Keeper<E>, Want>
    ensures { IfOk result IsNew }
{
    let (table, seat) = Table::of_words(alloc, &[0, 0, 0], &0)?;
    let board = Arc::new(alloc, HistoryBoard { table })?;
    Ok(Keeper {
        board,
        seat,
        out: Vec::new(alloc),
        floor_seen: 0,
    })
}

impl<E: Made> Keeper<E> {
    /// The board, for those who keep notes and pins of it.
    pub fn share(&self) -> Result<Arc<HistoryBoard<E>>, Want>
        ensures { IfOk result (λ b. arc_value b ≡ self.now.board) }
    {
        Ok(Arc::try_clone(&self.board)?)
    }

    /// Appends the entry, and answers the new length of the history. The entry is its session's own from then on, unless it
    /// was in doubt.
    pub fn commit(&mut self, entry: &E) -> u64
        requires room { length self.old.seen + 1 < 2 ^ 64 }
        requires may { MayCommit E.session_of E.command_of self.old entry.now }
        ensures length { result ≡ length self.new.seen }
        ensures appended { self.new.seen ≡ self.old.seen ++ entry.now ∷ [] }
        ensures own { ¬ Contains self.old.doubt entry.now → self.new.bears ≡ map (makes E.session_of (length self.old.seen) entry.now) self.old.bears }
        ensures doubted { Contains self.old.doubt entry.now → self.new.bears ≡ self.old.bears }
        ensures rest { self.new ≡ record self.old { seen = self.new.seen; bears = self.new.bears } }
        ensures sound { IsSound E.session_of E.command_of self.new }
    {
        self.board.append::<Brand>(&mut self.seat, entry) + 1
    }

    /// A note that has seen the whole history and what was posted.
    pub fn note(&mut self) -> Note<E>
        ensures note { result ≡ record { board = self.old.board; seen = self.old.seen; floor = self.old.floor_seen; count = self.old.posted; bears = [] } }
        ensures same { self.new ≡ self.old }
    {
        Note {
            floor: self.floor_seen,
            seat: self.board.tell(&mut self.seat),
        }
    }

    /// A pin at a time from the floor to the length. It has seen the whole history.
    pub fn pin(&mut self, t: u64) -> Result<Pin<E>, Want>
        requires floor { self.old.floor ≤ t }
        requires length { t ≤ length self.old.seen }
        ensures free { IfOk result (λ p. IsFree self.old.out p.number) }
        ensures pin { IfOk result (λ p. p ≡ record { board = self.old.board; seen = self.old.seen; floor = self.old.floor_seen; count = self.old.posted; number = p.number; time = t }) }
        ensures out { IfOk result (λ p. self.new ≡ record self.old { out = put_out self.old.out p.number t }) }
        ensures sound { IsSound E.session_of E.command_of self.new }
        ensures err { OnErr result (self.new ≡ self.old) }
    {
        let number = out::put(&mut self.out, t)?;
        let seat = self.board.give_pin::<Brand>(&mut self.seat, number, t);
        self.board.look(&mut self.seat);
        Ok(Pin {
            time: t,
            number,
            floor: self.floor_seen,
            seat,
        })
    }

    /// Takes a pin back.
    pub fn release(&mut self, pin: Pin<E>)
        requires { pin.board ≡ self.old.board }
        ensures out { self.new ≡ record self.old { out = slice_set self.old.out pin.number None } }
        ensures sound { IsSound E.session_of E.command_of self.new }
    {
        let Pin { number, seat, .. } = pin;
        self.board.take_pin(&mut self.seat, seat);
        self.board.look(&mut self.seat);
        out::take(&mut self.out, number);
    }

    /// Takes in a note that bears no session. What the note had seen is a beginning of the history.
    pub fn meet(&mut self, note: Note<E>)
        requires board { note.board ≡ self.old.board }
        requires free { note.bears ≡ [] }
        ensures kept { self.new ≡ record self.old { floor_seen = max self.old.floor_seen note.floor; count = max self.old.count note.count } }
        ensures known { IsPrefix note.seen self.old.seen }
        ensures sound { IsSound E.session_of E.command_of self.new }
    {
        self.take_in(note);
    }

    // Takes in a note with what it bears.
    pub(crate) fn take_in(&mut self, note: Note<E>)
        requires board { note.board ≡ self.old.board }
        ensures kept { self.new ≡ record self.old { bears = self.old.bears ++ note.bears; floor_seen = max self.old.floor_seen note.floor; count = max self.old.count note.count } }
        ensures known { IsPrefix note.seen self.old.seen }
        ensures sound { IsSound E.session_of E.command_of self.new }
    {
        let Note { floor, seat } = note;
        self.board.join(&mut self.seat, seat);
        self.board.look(&mut self.seat);
        self.floor_seen = self.floor_seen.max(floor);
    }

    /// Posts the commit disk's count of faults.
    pub fn post(&mut self, count: u64)
        requires { self.old.posted ≤ count }
        ensures posted { self.new ≡ record self.old { posted = count } }
        ensures seen { self.old.count ≤ self.old.posted }
    {
        self.board.post(&mut self.seat, count);
    }
}
