ghost use Rattle.std.specs.Prelude.{◌≡◌, ◌+◌, ◌*◌, ◌<◌, ◌≤◌, IfOk, OnErr};
ghost use Rattle.std.specs.Arc.{arc_value};
ghost use Rattle.base_core.specs.Lists.{Has};
ghost use Rattle.place_board.specs.declared.fault.Look.TheVariants.{Live, Retired};
ghost use Rattle.place_board.specs.Tokens.{IsSoundSeat, HasBorne, service_bore, fresh_note, service_saw, service_dropped, service_met, service_note};

use crate::board::{Place, PlaceBoard};
use crate::fault::{Look, PlaceFault};
use crate::note::PlaceNote;
use fed_bytes::Span;
use std::marker::{Brand, Model};
use std::sync::Arc;

/// The seat of one service. It bears the numbers from `(service - 1) * 2048` on, in order, and there is one for a service.
#[derive(Drop)]
pub struct ServiceSeat {
    pub(crate) board: Arc<PlaceBoard>,
    pub(crate) seat: Place,
    pub(crate) service: u32,
    pub(crate) next: u32,
}

impl Model for ServiceSeat {
    ghost use Rattle.std.specs.Prelude.{◌≡◌, []};
    ghost use Rattle.std.specs.Arc.{arc_value};
    ghost use Rattle.place_board.specs.Tokens.{Serving};

    ghost Value = { Serving };

    ghost use Rattle.place_board.specs.Tokens.{serving_of, IsSoundSeat};
    ghost use Rattle.place_board.specs.Views.{IsServing};

    ghost view = { λ s. serving_of s.seat.table_id s.seat.me.0 };

    ghost invariant = { λ s. (s.seat.table_id ≡ arc_value s.board) × (s.seat.me.1 ≡ []) × IsServing s.seat.me.0 × (s.service ≡ s.seat.me.0.service) × (s.next ≡ s.seat.me.0.next) × IsSoundSeat (serving_of s.seat.table_id s.seat.me.0) };
}

impl ServiceSeat {
    /// Bears the next number for this span of this index, whose place among all indexes counts from 0. The note alone may
    /// have the number listed.
    pub fn birth(&mut self, index: u8, span: &Span) -> Result<(u32, PlaceNote), PlaceFault>
        ensures number { IfOk result (λ r. r.0 ≡ self.old.next) }
        ensures room { IfOk result (λ r. self.old.next < self.old.service * 2048) }
        ensures born { IfOk result (λ r. self.new ≡ service_bore index span.now self.old) }
        ensures note { IfOk result (λ r. r.1 ≡ fresh_note self.old.next self.new) }
        ensures spent { OnErr result (self.old.next ≡ self.old.service * 2048) }
        ensures same { OnErr result (self.new ≡ self.old) }
        ensures sound { IsSoundSeat self.new }
    {
        if self.next == self.service * 2048 {
            return Err(PlaceFault::Spent);
        }
        let number = self.next;
        Ok((number, self.bear(index, span)))
    }

    // The next number, which is one of this service's, is born.
    fn bear(&mut self, index: u8, span: &Span) -> PlaceNote
        requires room { self.old.next < self.old.service * 2048 }
        ensures born { self.new ≡ service_bore index span.now self.old }
        ensures note { result ≡ fresh_note self.old.next self.new }
        ensures sound { IsSoundSeat self.new }
    {
        let number = self.next;
        self.board
            .bear::<Brand>(&mut self.seat, number, index, span);
        self.next = number + 1;
        PlaceNote {
            seat: self.board.release::<Brand>(&mut self.seat, number),
        }
    }

    /// Whether the number is live. One that is found retired is dead to this seat from then on.
    pub fn look(&mut self, n: u32) -> Look
        requires { HasBorne self.old n }
        ensures live { result ≡ Live → (self.new ≡ self.old) × Has self.old.mine n × ¬ Has self.old.noted.dead n }
        ensures retired { result ≡ Retired → self.new ≡ service_saw n self.old }
        ensures sound { IsSoundSeat self.new }
    {
        match self.board.watch(&mut self.seat, n) {
            2 => Look::Retired,
            _ => Look::Live,
        }
    }

    /// Lets a number go that was found retired.
    pub fn drop_retired(&mut self, n: u32)
        requires { Has self.old.noted.dead n }
        ensures dropped { self.new ≡ service_dropped n self.old }
        ensures sound { IsSoundSeat self.new }
    {
        self.board.give_up(&mut self.seat, n);
    }

    /// Posts the count of faults of this service's disk.
    pub fn post(&mut self, count: u64)
        requires { self.old.posted ≤ count }
        ensures posted { self.new ≡ record self.old { posted = count } }
        ensures sound { IsSoundSeat self.new }
    {
        self.board.post(&mut self.seat, self.service, count);
    }

    /// Takes in what a note of this board knows.
    pub fn meet(&mut self, note: PlaceNote)
        requires { note.board ≡ self.old.noted.board }
        ensures met { self.new ≡ service_met self.old note }
        ensures sound { IsSoundSeat self.new }
    {
        self.board.join(&mut self.seat, note.seat);
        self.board.agree(&mut self.seat);
    }

    /// A note of all that this seat knows, and of the count that it posted.
    pub fn know(&mut self) -> PlaceNote
        ensures note { result ≡ service_note self.old }
        ensures same { self.new ≡ self.old }
    {
        PlaceNote {
            seat: self.board.tell(&mut self.seat),
        }
    }

    /// For proofs: what is so of every service seat. It makes no step.
    pub fn is_sound(&self)
        ensures { IsSoundSeat self.now }
    {
        let _seat = &self.seat;
    }
}
