//! The route of a session.
ghost use Rattle.std.specs.Prelude.{◌≡◌, [], None, IfOk, OnOk, OnErr, IfSome};
ghost use Rattle.std.specs.Arc.{arc_value};
ghost use Rattle.base_core.specs.Lists.{Has};
ghost use Rattle.place_board.specs.Tokens.{met, copied};
ghost use Rattle.place_core.specs.declared.shards.Locator.{Locator};
ghost use Rattle.place_core.specs.Shown.{IsShown};
ghost use Rattle.place_core.specs.Places.{HasKey, located};
ghost use Rattle.route_core.specs.Routes.{IsRoute, AreLearned, AreForgotten};

use crate::locators::{
    drop_number, drop_overlapping, first_behind, has_key, has_left_end, put_locator,
};
use base_core::Want;
use place_board::{PlaceBoard, PlaceNote};
use place_core::Locator;
use row_core::Index;
use std::alloc::Global;
use std::marker::Model;
use std::sync::Arc;

/// Where a session knows keys to be: locators, no two of which have a key of one index, and a note that knows them all.
#[derive(Drop)]
pub struct Route {
    board: Arc<PlaceBoard>,
    note: PlaceNote,
    // By index, and by left end within an index.
    locators: Vec<Locator>,
}

impl Model for Route {
    ghost use Rattle.std.specs.Prelude.{◌≡◌};
    ghost use Rattle.std.specs.Arc.{arc_value};
    ghost use Rattle.route_core.specs.Routes.{Routing, IsRoute};

    ghost Value = { Routing };

    ghost view = { λ r. record { note = r.note; locators = r.locators.items } };

    ghost invariant = { λ r. (r.note.board ≡ arc_value r.board) × IsRoute (record { note = r.note; locators = r.locators.items }) };
}

impl Route {
    /// A route that holds no locator yet. It takes no memory.
    pub fn start(alloc: Global, board: Arc<PlaceBoard>, note: PlaceNote) -> Route
        requires { note.board ≡ arc_value board }
        ensures { result ≡ record { note = note; locators = [] } }
    {
        Route {
            board,
            note,
            locators: Vec::new(alloc),
        }
    }

    /// The locator that has the key, if the route holds one.
    pub fn known(&self, index: Index, key: &[u8]) -> Option<&Locator>
        ensures some { IfSome result (λ l. Has self.now.locators l.now × HasKey (located l.now) index key.now) }
        ensures none { result ≡ None → (l : Locator) → Has self.now.locators l → ¬ HasKey (located l) index key.now }
        ensures route { IsRoute self.now }
    {
        let behind = first_behind(self.locators.as_slice(), index, key);
        if behind == 0 {
            return None;
        }
        let found = &self.locators[behind - 1];
        if has_key(found, index, key) {
            Some(found)
        } else {
            None
        }
    }

    /// Holds the locator from now on, in place of those that it overlaps, and takes in what its note knows.
    pub fn learn(&mut self, locator: Locator) -> Result<(), Want>
        requires board { locator.note.board ≡ self.old.note.board }
        requires shown { IsShown locator }
        ensures note { OnOk result (self.new.note ≡ met self.old.note (copied locator.note)) }
        ensures learned { OnOk result (AreLearned locator self.old.locators self.new.locators) }
        ensures same { OnErr result (self.new ≡ self.old) }
        ensures route { IsRoute self.new }
    {
        self.locators.reserve(1)?;
        let mut locator = locator;
        let shown = locator.note.copy(&self.board);
        self.note.meet(&self.board, shown);
        if !has_left_end(&locator.span) {
            return Ok(());
        }
        drop_overlapping(&mut self.locators, &locator);
        put_locator(&mut self.locators, locator);
        Ok(())
    }

    /// Lets go of the locators of this number.
    pub fn forget(&mut self, number: u32)
        ensures note { self.new.note ≡ self.old.note }
        ensures forgotten { AreForgotten number self.old.locators self.new.locators }
        ensures route { IsRoute self.new }
    {
        drop_number(&mut self.locators, number);
    }

    /// Takes in what a note of the route's board knows.
    pub fn meet(&mut self, note: PlaceNote)
        requires { note.board ≡ self.old.note.board }
        ensures met { self.new ≡ record self.old { note = met self.old.note note } }
        ensures route { IsRoute self.new }
    {
        self.note.meet(&self.board, note);
    }

    /// A note of all that the route's note knows.
    pub fn know(&mut self) -> PlaceNote
        ensures note { result ≡ copied self.old.note }
        ensures same { self.new ≡ self.old }
    {
        self.note.copy(&self.board)
    }

    /// The route's board, for those who keep notes of it.
    pub fn share(&self) -> Result<Arc<PlaceBoard>, Want>
        ensures { IfOk result (λ b. arc_value b ≡ self.now.note.board) }
    {
        Ok(Arc::try_clone(&self.board)?)
    }

    /// For proofs: what is so of every route. It makes no step.
    pub fn is_route(&self)
        ensures { IsRoute self.now }
    {
        let _note = &self.note;
    }
}
