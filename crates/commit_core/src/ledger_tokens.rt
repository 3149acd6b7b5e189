// The ledger's notes and pins.
ghost use Rattle.std.specs.Prelude.{◌≡◌, ◌≤◌, ◌++◌, ◌∷◌, List, Option, ℕ, None, [], length, max, slice_set, IfOk, OnErr};
ghost use Rattle.std.specs.List.{AllByRecursion};
ghost use mathlib.Core.List.{IsPrefix};
ghost use Rattle.history_board.specs.Bearings.{others, newcomer, without};
ghost use Rattle.history_board.specs.Pins.{IsFree, put_out};
ghost use Rattle.history_board.specs.Tokens.{MayEnrol};
ghost use Rattle.history_board.specs.declared.view.Bearing.{Bearing};
ghost use Rattle.history_board.specs.declared.view.Enrolment.{Enrolment};
ghost use Rattle.commit_core.specs.Rooms.{session_of, IsDecidedFor};
ghost use Rattle.commit_core.specs.Ledgers.{IsLedger};
ghost use Rattle.commit_core.specs.Pins.{IsPinOf, IsOfBoard, ArePutOut, IsSameOut};

use crate::ledger::Ledger;
use base_core::Want;
use change_model::Committed;
use history_board::{Note, Pin};
use std::alloc::Global;

impl Ledger {
    pub fn enrol(&mut self, session: u32) -> Note<Committed>
        requires from_one { 1 ≤ session }
        requires most { session ≤ 16 }
        requires may { MayEnrol self.old.keeper session }
        requires decided { IsDecidedFor self.old.waiting session }
        ensures note { result ≡ record { board = self.old.keeper.board; seen = self.old.keeper.seen; floor = self.old.keeper.floor_seen; count = self.old.keeper.posted; bears = newcomer session ∷ [] } }
        ensures is { self.new ≡ record self.old { keeper = record self.old.keeper { bears = others session self.old.keeper.bears; since = record { session = session; length = length self.old.keeper.seen } ∷ self.old.keeper.since; doubt = without session_of session self.old.keeper.doubt } } }
        ensures sound { IsLedger self.new }
    {
        self.keeper.enrol(session)
    }

    pub fn leave(&mut self, seen: Note<Committed>)
        requires board { seen.board ≡ self.old.keeper.board }
        requires one { (b : Bearing Committed) × (seen.bears ≡ b ∷ []) }
        ensures is { self.new ≡ record self.old { keeper = record self.old.keeper { bears = self.old.keeper.bears ++ seen.bears; floor_seen = max self.old.keeper.floor_seen seen.floor; count = max self.old.keeper.count seen.count } } }
        ensures known { IsPrefix seen.seen self.old.keeper.seen }
        ensures sound { IsLedger self.new }
    {
        self.keeper.leave(seen);
    }

    /// A note that has seen the whole history and what was posted.
    pub fn note(&mut self) -> Note<Committed>
        ensures note { result ≡ record { board = self.old.keeper.board; seen = self.old.keeper.seen; floor = self.old.keeper.floor_seen; count = self.old.keeper.posted; bears = [] } }
        ensures is { self.new ≡ self.old }
        ensures sound { IsLedger self.new }
    {
        self.keeper.note()
    }

    /// The lent note sees the whole history. What it bears stays with it.
    pub fn show(&mut self, seen: &mut Note<Committed>)
        requires { seen.old.board ≡ self.old.keeper.board }
        ensures is { self.new ≡ record self.old { keeper = record self.old.keeper { floor_seen = self.new.keeper.floor_seen; count = self.new.keeper.count } } }
        ensures known { IsPrefix seen.old.seen self.old.keeper.seen }
        ensures whole { seen.new.seen ≡ self.old.keeper.seen }
        ensures bears { seen.new.bears ≡ seen.old.bears }
        ensures board { seen.new.board ≡ seen.old.board }
        ensures posted { seen.new.count ≡ self.old.keeper.posted }
        ensures sound { IsLedger self.new }
    {
        let copy = seen.copy(&self.board);
        self.keeper.meet(copy);
        let note = self.keeper.note();
        seen.meet(&self.board, note);
    }

    /// A pin at the whole history.
    pub fn pin(&mut self) -> Result<Pin<Committed>, Want>
        ensures free { IfOk result (λ p. IsFree self.old.keeper.out p.number) }
        ensures pin { IfOk result (λ p. p ≡ record { board = self.old.keeper.board; seen = self.old.keeper.seen; floor = self.old.keeper.floor_seen; count = self.old.keeper.posted; number = p.number; time = length self.old.keeper.seen }) }
        ensures out { IfOk result (λ p. self.new ≡ record self.old { keeper = record self.old.keeper { out = put_out self.old.keeper.out p.number (length self.old.keeper.seen) } }) }
        ensures err { OnErr result (self.new ≡ self.old) }
        ensures sound { IsLedger self.new }
    {
        let time = self.length();
        self.keeper.pin(time)
    }

    pub fn release(&mut self, pin: Pin<Committed>)
        requires { pin.board ≡ self.old.keeper.board }
        ensures is { self.new ≡ record self.old { keeper = record self.old.keeper { out = slice_set self.old.keeper.out pin.number None } } }
        ensures sound { IsLedger self.new }
    {
        self.keeper.release(pin);
    }

    /// So many pins at the whole history. After an `Err` no pin more is out.
    pub fn pins(&mut self, alloc: Global, count: u32) -> Result<Vec<Pin<Committed>>, Want>
        requires { IsLedger self.old }
        ensures count { IfOk result (λ pins. length pins.items ≡ count) }
        ensures each { IfOk result (λ pins. AllByRecursion (IsPinOf self.old.keeper) pins.items) }
        ensures out { IfOk result (λ pins. ArePutOut self.old.keeper.out pins.items self.new.keeper.out) }
        ensures is { self.new ≡ record self.old { keeper = record self.old.keeper { out = self.new.keeper.out } } }
        ensures refused { OnErr result (IsSameOut self.old.keeper.out self.new.keeper.out) }
        ensures sound { IsLedger self.new }
    {
        let mut pins = Vec::with_capacity(alloc, count as usize)?;
        'pins: while pins.len() < count as usize {
            match self.pin() {
                Ok(pin) => pins.push_reserved(pin),
                Err(want) => {
                    self.release_all(pins);
                    return Err(want);
                }
            }
        }
        Ok(pins)
    }

    /// Takes pins back that were put out one after the other, the last one first.
    fn release_all(&mut self, mut pins: Vec<Pin<Committed>>)
        requires each { AllByRecursion (IsOfBoard self.old.keeper.board) pins.items }
        requires sound { IsLedger self.old }
        ensures is { self.new ≡ record self.old { keeper = record self.old.keeper { out = self.new.keeper.out } } }
        ensures same { (start : List (Option ℕ)) → ArePutOut start pins.items self.old.keeper.out → IsSameOut start self.new.keeper.out }
        ensures sound { IsLedger self.new }
    {
        'pins: while let Some(pin) = pins.pop() {
            self.release(pin);
        }
    }
}
