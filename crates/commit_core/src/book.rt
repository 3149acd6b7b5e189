//! The room's book: the entries of the history, the origins of what was committed since opening, and the change whose record
//! is undecided, if one is.
ghost use Rattle.std.specs.Prelude.{◌≡◌, ◌+◌, ◌<◌, ◌≤◌, ◌++◌, ◌∷◌, [], length, map, Option, Some, None, option_map, IfOk, OnOk};
ghost use Rattle.std.specs.Arc.{arc_value};
ghost use Rattle.change_model.specs.declared.entry.Entry.{Entry as AnyEntry};
ghost use Rattle.change_model.specs.declared.history.Origin.{Origin as AnyOrigin};
ghost use Rattle.commit_core.specs.Books.{waited};
ghost use Rattle.commit_core.specs.Steps.{origin_of_waited, entry_of_waited};

use base_core::Want;
use change_model::{Committed, Entry, Origin};
use std::alloc::Global;
use std::marker::Model;
use std::sync::Arc;

/// A change whose record is undecided, and the entry that it gives if it comes in.
#[derive(Drop)]
pub struct Waiting {
    pub committed: Committed,
    pub entry: Arc<Entry>,
}

#[derive(Drop)]
pub struct Book {
    entries: Vec<Arc<Entry>>,
    origins: Vec<Origin>,
    waiting: Option<Waiting>,
}

impl Model for Book {
    ghost use Rattle.std.specs.Prelude.{◌-◌, min, map, option_map, vec_len, vec_capacity};
    ghost use Rattle.std.specs.Arc.{arc_value};
    ghost use Rattle.commit_core.specs.Books.{Booked, waited};

    ghost Value = { Booked };

    ghost view = { λ b. record { entries = map arc_value b.entries.items; origins = b.origins.items; waiting = option_map waited b.waiting; room = min (vec_capacity b.entries - vec_len b.entries) (vec_capacity b.origins - vec_len b.origins) } };
}

impl Book {
    pub fn new(alloc: Global) -> Book
        ensures { result ≡ record { entries = []; origins = []; waiting = None; room = 0 } }
    {
        Book {
            entries: Vec::new(alloc),
            origins: Vec::new(alloc),
            waiting: None,
        }
    }

    /// The entries of the history, each at the place before its time.
    pub fn entries(&self) -> &[Arc<Entry>]
        ensures { map arc_value result.now ≡ self.now.entries }
    {
        self.entries.as_slice()
    }

    pub fn origins(&self) -> &[Origin]
        ensures { result.now ≡ self.now.origins }
    {
        self.origins.as_slice()
    }

    /// The origin of the change whose record is undecided.
    pub fn undecided(&self) -> Option<Origin>
        ensures { result ≡ origin_of_waited self.now.waiting }
    {
        match &self.waiting {
            Some(waiting) => Some(waiting.committed.origin),
            None => None,
        }
    }

    /// The entry of that change.
    pub fn undecided_entry(&self) -> Result<Option<Arc<Entry>>, Want>
        ensures { IfOk result (λ entry. option_map arc_value entry ≡ entry_of_waited self.now.waiting) }
    {
        match &self.waiting {
            Some(waiting) => Ok(Some(Arc::try_clone(&waiting.entry)?)),
            None => Ok(None),
        }
    }

    /// Takes the memory for two changes more. After an `Err` it may have taken a part of it.
    pub fn reserve(&mut self) -> Result<(), Want>
        ensures same { self.new ≡ record self.old { room = self.new.room } }
        ensures ok { OnOk result (2 ≤ self.new.room) }
        ensures kept { self.old.room ≤ self.new.room }
    {
        self.entries.reserve(2)?;
        self.origins.reserve(2)?;
        Ok(())
    }

    /// Adds a change that was committed since opening.
    pub fn add(&mut self, origin: Origin, entry: Arc<Entry>)
        requires { 0 < self.old.room }
        ensures added { self.new ≡ record self.old { entries = self.old.entries ++ arc_value entry ∷ []; origins = self.old.origins ++ origin ∷ []; room = self.new.room } }
        ensures room { self.old.room ≡ self.new.room + 1 }
    {
        self.entries.push_reserved(entry);
        self.origins.push_reserved(origin);
    }

    /// Adds a change that was found at opening.
    pub fn add_found(&mut self, entry: Arc<Entry>)
        requires { 0 < self.old.room }
        ensures added { self.new ≡ record self.old { entries = self.old.entries ++ arc_value entry ∷ []; room = self.new.room } }
    {
        self.entries.push_reserved(entry);
    }

    /// From now on this change is undecided.
    pub fn wait(&mut self, waiting: Waiting)
        ensures { self.new ≡ record self.old { waiting = Some (waited waiting) } }
    {
        self.waiting = Some(waiting);
    }

    /// From now on nothing is undecided. It answers what was.
    pub fn decide(&mut self) -> Option<Waiting>
        ensures was { option_map waited result ≡ self.old.waiting }
        ensures none { self.new ≡ record self.old { waiting = None } }
    {
        self.waiting.take()
    }
}
