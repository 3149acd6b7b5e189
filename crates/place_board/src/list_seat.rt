ghost use Rattle.std.specs.Prelude.{◌≡◌, ◌+◌, ◌<◌, IfOk, OnErr};
ghost use Rattle.std.specs.Arc.{arc_value};
ghost use Rattle.base_core.specs.Lists.{Has};
ghost use Rattle.place_board.specs.Tokens.{IsSoundList, list_listed, list_retired, list_met, copied, new_service};

use crate::board::{Place, PlaceBoard};
use crate::note::PlaceNote;
use crate::service_seat::ServiceSeat;
use base_core::Want;
use std::marker::Model;
use std::sync::Arc;

/// The one seat of a board that lists numbers and retires them.
#[derive(Drop)]
pub struct ListSeat {
    pub(crate) board: Arc<PlaceBoard>,
    pub(crate) seat: Place,
    pub(crate) services: u32,
}

impl Model for ListSeat {
    ghost use Rattle.std.specs.Prelude.{◌≡◌, []};
    ghost use Rattle.std.specs.Arc.{arc_value};
    ghost use Rattle.place_board.specs.Tokens.{Listing};

    ghost Value = { Listing };

    ghost use Rattle.place_board.specs.Tokens.{listing_of, IsSoundList};
    ghost use Rattle.place_board.specs.Views.{IsListing};

    ghost view = { λ l. listing_of l.seat.table_id l.seat.me.0 };

    ghost invariant = { λ l. (l.seat.table_id ≡ arc_value l.board) × (l.seat.me.1 ≡ []) × IsListing l.seat.me.0 × (l.services ≡ l.seat.me.0.services) × IsSoundList (listing_of l.seat.table_id l.seat.me.0) };
}

impl ListSeat {
    /// Takes in the note, and lists a number that is fresh in it.
    pub fn list(&mut self, n: u32, note: PlaceNote)
        requires board { note.board ≡ self.old.noted.board }
        requires fresh { Has note.fresh n }
        ensures listed { self.new ≡ list_listed n (list_met self.old note) }
        ensures first { ¬ Has self.old.ever n }
        ensures sound { IsSoundList self.new }
    {
        self.meet(note);
        self.board.enlist(&mut self.seat, n);
    }

    /// Retires a listed number. It can't be listed again.
    pub fn retire(&mut self, n: u32)
        requires { Has self.old.listed n }
        ensures retired { self.new ≡ list_retired n self.old }
        ensures sound { IsSoundList self.new }
    {
        self.board.retire(&mut self.seat, n);
    }

    /// Takes in what a note of this board knows.
    pub fn meet(&mut self, note: PlaceNote)
        requires { note.board ≡ self.old.noted.board }
        ensures met { self.new ≡ list_met self.old note }
        ensures sound { IsSoundList self.new }
    {
        self.board.join(&mut self.seat, note.seat);
        self.board.agree(&mut self.seat);
    }

    /// A note of all that this seat knows.
    pub fn know(&mut self) -> PlaceNote
        ensures note { result ≡ copied self.old.noted }
        ensures same { self.new ≡ self.old }
    {
        PlaceNote {
            seat: self.board.tell(&mut self.seat),
        }
    }

    /// The board, for those who keep notes of it.
    pub fn share(&self) -> Result<Arc<PlaceBoard>, Want>
        ensures { IfOk result (λ b. arc_value b ≡ self.now.noted.board) }
    {
        Ok(Arc::try_clone(&self.board)?)
    }

    /// How many services the board has.
    pub fn services(&self) -> u32
        ensures { result ≡ self.now.services }
    {
        self.services
    }

    /// For proofs: what is so of the list seat. It makes no step.
    pub fn is_sound(&self)
        ensures { IsSoundList self.now }
    {
        let _seat = &self.seat;
    }

    // The seat of one more service, while the board is made.
    pub(crate) fn seat_one(&mut self, before: u32) -> Result<ServiceSeat, Want>
        requires before { before ≡ self.old.services }
        requires room { before < 16 }
        ensures seat { IfOk result (λ s. s ≡ new_service self.old.noted.board before) }
        ensures list { IfOk result (λ s. self.new ≡ record self.old { services = before + 1 }) }
        ensures board { self.new.noted.board ≡ self.old.noted.board }
    {
        let board = Arc::try_clone(&self.board)?;
        let seat = self.board.seat_one(&mut self.seat);
        self.services = before + 1;
        Ok(ServiceSeat {
            board,
            seat,
            service: before + 1,
            next: before * 2048,
        })
    }
}
