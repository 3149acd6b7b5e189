// The rule that the table keeps, and what each step on a word does to the views.
use crate::made::Made;
use crate::told::Told;
use crate::view::View;
use atomic_table::{Join, Play, Split, TableRule};
use std::marker::PhantomData;

pub struct Law;

impl<E: Made> TableRule<u8, View<E>, u8> for Law {
    ghost use Rattle.history_board.specs.Views.{first_keeper};
    ghost use Rattle.history_board.specs.HistoryRule.{HistoryRule};

    ghost holds = { λ _ s. HistoryRule E.session_of E.command_of s.words s.views };

    ghost first = { λ _. first_keeper };
}

// A load of word 0, by which a seat learns that all that it took in is of one history.
pub struct Look;

impl<E: Made> Play<u8, View<E>> for Look {
    ghost use Rattle.history_board.specs.Steps.{Looks};

    ghost then = { λ _ me found after. Looks E.session_of E.command_of me found after };
}

// The add to word 0 that commits an entry.
pub struct Commit<B> {
    told: PhantomData<B>,
}

impl<E: Made, B: Told<E>> Play<u8, View<E>> for Commit<B> {
    ghost use Rattle.history_board.specs.Steps.{Commits};

    ghost then = { λ _ me found after. Commits E.session_of E.command_of B.entries me found after };
}

// The swap on word 2 that posts a count.
pub struct Post;

impl<E: Made> Play<u8, View<E>> for Post {
    ghost use Rattle.history_board.specs.Steps.{Posts};

    ghost then = { λ step me found after. Posts E.session_of E.command_of step.first me found after };
}

// A note that knows as much and bears nothing.
pub struct Tell;

impl<E> Split<View<E>> for Tell {
    ghost use Rattle.history_board.specs.Views.{told};

    ghost left = { λ v. v };

    ghost right = { told };
}

// Two views put together.
pub struct Meet;

impl<E> Join<View<E>> for Meet {
    ghost use Rattle.history_board.specs.Views.{joined, spent};

    ghost both = { joined };

    ghost spent = { spent };
}

// A pin that the keeper gives out.
pub struct GivePin<B> {
    told: PhantomData<B>,
}

impl<E, B: Told<E>> Split<View<E>> for GivePin<B> {
    ghost use Rattle.history_board.specs.Views.{gives_pin, pinned};

    ghost left = { gives_pin B.number B.time };

    ghost right = { pinned B.number B.time };
}

// A pin that the keeper takes back.
pub struct TakePin;

impl<E> Join<View<E>> for TakePin {
    ghost use Rattle.history_board.specs.Views.{released, spent};

    ghost both = { released };

    ghost spent = { spent };
}

// A note gives the sessions that it bears to a new one.
pub struct Unburden;

impl<E> Split<View<E>> for Unburden {
    ghost use Rattle.history_board.specs.Views.{unburdened, bearer};

    ghost left = { unburdened };

    ghost right = { bearer };
}

// The keeper enrols a session, which a new note bears.
pub struct Enrol<B> {
    told: PhantomData<B>,
}

impl<E: Made, B: Told<E>> Split<View<E>> for Enrol<B> {
    ghost use Rattle.history_board.specs.Views.{enrols, enrolled};

    ghost left = { enrols E.session_of B.session };

    ghost right = { enrolled B.session };
}

// The keeper hands a session to a new note, with the entries of which it is unsure.
pub struct Hand<B> {
    told: PhantomData<B>,
}

impl<E, B: Told<E>> Split<View<E>> for Hand<B> {
    ghost use Rattle.history_board.specs.Views.{hands, handed};

    ghost left = { hands B.session B.entries };

    ghost right = { handed B.session B.entries };
}
