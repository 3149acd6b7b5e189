ghost use Rattle.std.specs.Prelude.{◌≡◌};
ghost use Rattle.place_board.specs.Tokens.{IsSound, met, copied};

use crate::board::{Place, PlaceBoard};
use std::marker::Model;

/// What a token knew of a board. Each call takes the board that the note is of.
#[derive(Drop)]
pub struct PlaceNote {
    pub(crate) seat: Place,
}

impl Model for PlaceNote {
    ghost use Rattle.std.specs.Prelude.{◌≡◌, []};
    ghost use Rattle.place_board.specs.Tokens.{Noted};

    ghost Value = { Noted };

    ghost use Rattle.place_board.specs.Tokens.{noted_of, IsSound};
    ghost use Rattle.place_board.specs.Views.{IsNoting};

    ghost view = { λ n. noted_of n.seat.table_id n.seat.me.0 };

    ghost invariant = { λ n. (n.seat.me.1 ≡ []) × IsNoting n.seat.me.0 × IsSound (noted_of n.seat.table_id n.seat.me.0) };
}

impl PlaceNote {
    /// A note that knows as much, and has nothing fresh.
    pub fn copy(&mut self, board: &PlaceBoard) -> PlaceNote
        requires { self.old.board ≡ board.now }
        ensures copy { result ≡ copied self.old }
        ensures same { self.new ≡ self.old }
    {
        PlaceNote {
            seat: board.tell(&mut self.seat),
        }
    }

    /// Takes in what another note of the board knows.
    pub fn meet(&mut self, board: &PlaceBoard, other: PlaceNote)
        requires here { self.old.board ≡ board.now }
        requires there { other.board ≡ board.now }
        ensures met { self.new ≡ met self.old other }
        ensures sound { IsSound self.new }
    {
        board.join(&mut self.seat, other.seat);
        board.agree(&mut self.seat);
    }

    /// For proofs: what is so of every note. It makes no step.
    pub fn is_sound(&self)
        ensures { IsSound self.now }
    {
        let _seat = &self.seat;
    }
}
