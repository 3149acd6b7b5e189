//! The history of the room without its device and its log: the keeper of the board, and the book.
ghost use Rattle.std.specs.Prelude.{◌≡◌, ◌+◌, ◌^◌, ◌<◌, ◌≤◌, ◌++◌, ◌∷◌, None, Some, [], length, map, max, slice_set, option_map, IfOk, OnOk, OnErr};
ghost use Rattle.std.specs.Arc.{arc_value};
ghost use mathlib.Core.List.{IsPrefix};
ghost use Rattle.history_board.specs.Bearings.{others, newcomer, placed, without};
ghost use Rattle.history_board.specs.Tokens.{MayEnrol};
ghost use Rattle.history_board.specs.declared.view.Bearing.{Bearing};
ghost use Rattle.history_board.specs.declared.view.Enrolment.{Enrolment};
ghost use Rattle.change_model.specs.Entries.{IsEntry};
ghost use Rattle.commit_core.specs.Rooms.{session_of, command_of, BearsOrigin, IsDecidedFor, IsSoundHistory};
ghost use Rattle.commit_core.specs.Steps.{origin_of_waited, entry_of_waited};
ghost use Rattle.commit_core.specs.Ledgers.{IsLedger, IsNewLedger, ledger_decided};

use crate::book::{Book, Waiting};
use crate::turn::{doubt, enter};
use base_core::Want;
use change_model::{Committed, Entry, Origin};
use history_board::{HistoryBoard, Keeper, Note, Pin};
use std::alloc::Global;
use std::marker::Model;
use std::sync::Arc;

#[derive(Drop)]
pub struct Ledger {
    pub(crate) keeper: Keeper<Committed>,
    pub(crate) board: Arc<HistoryBoard<Committed>>,
    book: Book,
}

impl Model for Ledger {
    ghost use Rattle.std.specs.Prelude.{◌≡◌};
    ghost use Rattle.std.specs.Arc.{arc_value};
    ghost use Rattle.commit_core.specs.Ledgers.{Ledgered, ledgered, IsLedger};

    ghost Value = { Ledgered };

    ghost view = { λ l. ledgered l.keeper l.book };

    ghost invariant = { λ l. (l.keeper.board ≡ arc_value l.board) × IsLedger (ledgered l.keeper l.book) };
}

impl Ledger {
    pub fn make(alloc: Global) -> Result<Ledger, Want>
        ensures new { IfOk result IsNewLedger }
        ensures sound { IfOk result IsLedger }
    {
        let keeper = history_board::make(alloc)?;
        let board = keeper.share()?;
        Ok(Ledger {
            keeper,
            board,
            book: Book::new(alloc),
        })
    }

    pub fn share(&self) -> Result<Arc<HistoryBoard<Committed>>, Want>
        ensures { IfOk result (λ board. arc_value board ≡ self.now.keeper.board) }
    {
        self.keeper.share()
    }

    pub fn length(&self) -> u64
        ensures length { result ≡ length self.now.keeper.seen }
        ensures sound { IsLedger self.now }
    {
        self.book.entries().len() as u64
    }

    pub fn entries(&self) -> &[Arc<Entry>]
        ensures { map arc_value result.now ≡ self.now.entries }
    {
        self.book.entries()
    }

    pub fn origins(&self) -> &[Origin]
        ensures { result.now ≡ self.now.origins }
    {
        self.book.origins()
    }

    pub fn undecided(&self) -> Option<Origin>
        ensures { result ≡ origin_of_waited self.now.waiting }
    {
        self.book.undecided()
    }

    pub fn undecided_entry(&self) -> Result<Option<Arc<Entry>>, Want>
        ensures { IfOk result (λ entry. option_map arc_value entry ≡ entry_of_waited self.now.waiting) }
    {
        self.book.undecided_entry()
    }

    /// Posts the device's count of faults.
    pub fn post(&mut self, count: u64)
        requires { self.old.keeper.posted ≤ count }
        ensures posted { self.new ≡ record self.old { keeper = record self.old.keeper { posted = count } } }
        ensures sound { IsLedger self.new }
    {
        self.keeper.post(count);
    }

    /// Takes the memory for two changes more: one that is undecided, and one behind it.
    pub fn reserve(&mut self) -> Result<(), Want>
        ensures same { self.new ≡ record self.old { room = self.new.room } }
        ensures ok { OnOk result (2 ≤ self.new.room) }
        ensures sound { IsLedger self.new }
    {
        self.book.reserve()
    }

    /// What is undecided comes in, or is left out.
    pub fn decide(&mut self, kept: bool)
        ensures decided { self.new ≡ record (ledger_decided kept self.old) { room = self.new.room } }
        ensures room { self.old.room ≤ self.new.room + 1 }
        ensures sound { IsLedger self.new }
    {
        let Some(Waiting { committed, entry }) = self.book.decide() else {
            return;
        };
        if kept {
            self.keeper.commit(&committed);
            self.book.add(committed.origin, entry);
        }
    }

    /// The change comes in, and its time is answered. The note has seen it.
    pub fn enter(
        &mut self,
        seen: &mut Note<Committed>,
        committed: Committed,
        entry: Arc<Entry>,
    ) -> u64
        requires board { seen.old.board ≡ self.old.keeper.board }
        requires settled { self.old.waiting ≡ None }
        requires room { 0 < self.old.room }
        requires most { length self.old.keeper.seen + 1 < 2 ^ 64 }
        requires one { BearsOrigin seen.old committed.origin }
        requires entry { IsEntry (length self.old.keeper.seen + 1) (arc_value entry) }
        ensures length { result ≡ length self.new.keeper.seen }
        ensures is { self.new ≡ record self.old {
          keeper = record self.old.keeper { seen = self.old.keeper.seen ++ committed ∷ []; floor_seen = self.new.keeper.floor_seen; count = self.new.keeper.count };
          entries = self.old.entries ++ arc_value entry ∷ [];
          origins = self.old.origins ++ committed.origin ∷ [];
          room = self.new.room;
        } }
        ensures own { (b : Bearing Committed) → seen.old.bears ≡ b ∷ [] → seen.new.bears ≡ record b { mine = b.mine ++ placed (length self.old.keeper.seen) committed ∷ [] } ∷ [] }
        ensures whole { seen.new.seen ≡ self.new.keeper.seen }
        ensures board { seen.new.board ≡ seen.old.board }
        ensures sound { IsLedger self.new }
    {
        let time = enter(&mut self.keeper, seen, &committed);
        self.book.add(committed.origin, entry);
        time
    }

    /// The change is undecided, and its session is unsure of it.
    pub fn doubt(&mut self, seen: &mut Note<Committed>, committed: Committed, entry: Arc<Entry>)
        requires board { seen.old.board ≡ self.old.keeper.board }
        requires room { 0 < self.old.room }
        requires most { length self.old.keeper.seen + 1 < 2 ^ 64 }
        requires one { BearsOrigin seen.old committed.origin }
        requires entry { IsEntry (length self.old.keeper.seen + 1) (arc_value entry) }
        ensures is { self.new ≡ record self.old {
          keeper = record self.old.keeper { doubt = self.old.keeper.doubt ++ committed ∷ []; floor_seen = self.new.keeper.floor_seen; count = self.new.keeper.count };
          waiting = Some (record { committed = committed; entry = arc_value entry });
        } }
        ensures own { (b : Bearing Committed) → seen.old.bears ≡ b ∷ [] → seen.new.bears ≡ record b { unsure = b.unsure ++ committed ∷ [] } ∷ [] }
        ensures whole { seen.new.seen ≡ self.new.keeper.seen }
        ensures board { seen.new.board ≡ seen.old.board }
        ensures sound { IsLedger self.new }
    {
        doubt(&mut self.keeper, seen, &committed);
        self.book.wait(Waiting { committed, entry });
    }

    /// A change that was found at opening, with its session 0.
    pub fn found(&mut self, committed: &Committed, entry: Arc<Entry>)
        requires none { self.old.keeper.since ≡ [] }
        requires session { session_of committed.now ≡ 0 }
        requires room { 0 < self.old.room }
        requires most { length self.old.keeper.seen + 1 < 2 ^ 64 }
        requires entry { IsEntry (length self.old.keeper.seen + 1) (arc_value entry) }
        ensures is { self.new ≡ record self.old {
          keeper = record self.old.keeper { seen = self.old.keeper.seen ++ committed.now ∷ [] };
          entries = self.old.entries ++ arc_value entry ∷ [];
          room = self.new.room;
        } }
        ensures sound { IsLedger self.new }
    {
        self.keeper.commit(committed);
        self.book.add_found(entry);
    }
}
