// The rule that the table keeps, and what each step on a word does to the views.
use crate::told::Told;
use crate::view::View;
use atomic_table::{Join, Play, Split, TableRule};
use std::marker::PhantomData;

pub struct Law;

impl TableRule<u8, View, u8> for Law {
    ghost use Rattle.place_board.specs.Views.{first_list};
    ghost use Rattle.place_board.specs.PlaceRule.{PlaceRule};

    ghost holds = { λ _ s. PlaceRule s.words s.views };

    ghost first = { λ _. first_list };
}

// The store to a service's next number that makes it live.
pub struct Bear<B> {
    told: PhantomData<B>,
}

impl<B: Told> Play<u8, View> for Bear<B> {
    ghost use Rattle.place_board.specs.Steps.{Bears};

    ghost then = { λ _ me _ after. Bears B.known me after };
}

// A load of word 0, by which a seat learns that all that it took in agrees.
pub struct Agree;

impl Play<u8, View> for Agree {
    ghost use Rattle.place_board.specs.Steps.{Agrees};

    ghost then = { λ _ me _ after. Agrees me after };
}

// A load of a fresh number, by which the list lists it.
pub struct Enlist;

impl Play<u8, View> for Enlist {
    ghost use Rattle.place_board.specs.Steps.{Enlists};

    ghost then = { λ step me _ after. Enlists step.word me after };
}

// The store to a listed number by which it retires.
pub struct Retire;

impl Play<u8, View> for Retire {
    ghost use Rattle.place_board.specs.Steps.{Retires};

    ghost then = { λ step me _ after. Retires step.word me after };
}

// A load of a number by the service that bore it.
pub struct Watch;

impl Play<u8, View> for Watch {
    ghost use Rattle.place_board.specs.Steps.{Watches};

    ghost then = { λ step me found after. Watches step.word me found after };
}

// A load of a dead number, by which its service drops it.
pub struct GiveUp;

impl Play<u8, View> for GiveUp {
    ghost use Rattle.place_board.specs.Steps.{GivesUp};

    ghost then = { λ step me _ after. GivesUp step.word me after };
}

// The swap on a service's count word that posts a count.
pub struct Post;

impl Play<u8, View> for Post {
    ghost use Rattle.place_board.specs.Steps.{Posts};

    ghost then = { λ step me _ after. Posts step.first me after };
}

// A note that knows as much.
pub struct Tell;

impl Split<View> for Tell {
    ghost use Rattle.place_board.specs.Views.{told};

    ghost left = { λ v. v };

    ghost right = { told };
}

// A note that knows as much and takes a fresh number over.
pub struct Release<B> {
    told: PhantomData<B>,
}

impl<B: Told> Split<View> for Release<B> {
    ghost use Rattle.place_board.specs.Views.{releases, released};

    ghost left = { releases B.known.number };

    ghost right = { released B.known.number };
}

// The seat of one more service, which the list gives out while the board is made.
pub struct Seating;

impl Split<View> for Seating {
    ghost use Rattle.place_board.specs.Views.{seats_one, seated};

    ghost left = { seats_one };

    ghost right = { seated };
}

// Two views put together.
pub struct Meet;

impl Join<View> for Meet {
    ghost use Rattle.place_board.specs.Views.{joined, spent};

    ghost both = { joined };

    ghost spent = { spent };
}
