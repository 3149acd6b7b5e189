//! A body that the service has and that nobody has asked for yet.
ghost use Rattle.std.specs.Prelude.{◌≡◌, MatchOption, ℕ};
ghost use Rattle.body_journal.specs.Held.{decided, is_waiting, is_other, IsStoredAs};

use base_core::List;
use std::sync::Arc;

/// How far a body has come.
#[derive(Clone, Copy)]
pub enum Stage {
    /// It waits in the queue.
    Waiting,
    /// It waits in the queue, and is a member of the group whose record is undecided: so many bodies of the group stand
    /// before it.
    InGroup { place: u64 },
    /// It is stored: so many bodies of the service stand before it.
    Stored { before: u64 },
}

impl Stage {
    /// The stage once the group is decided. So many bodies stood before the group.
    pub(crate) fn decided(self, stored: u64, is_in: bool) -> Stage
        ensures { result ≡ decided stored is_in self }
    {
        match self {
            Stage::InGroup { place } if is_in => Stage::Stored {
                before: stored.saturating_add(place),
            },
            Stage::InGroup { .. } | Stage::Waiting => Stage::Waiting,
            Stage::Stored { before } => Stage::Stored { before },
        }
    }

    fn is_waiting(self) -> bool
        ensures { result ≡ is_waiting self }
    {
        match self {
            Stage::Waiting => true,
            Stage::InGroup { .. } | Stage::Stored { .. } => false,
        }
    }
}

/// A body, by its serial. Those who wait for it share its bytes.
#[derive(Drop)]
pub struct Held {
    pub(crate) serial: u64,
    pub(crate) body: Arc<List<u8>>,
    pub(crate) stage: Stage,
}

impl Held {
    /// Whether it waits, and is another than the one with this serial.
    pub(crate) fn is_other(&self, serial: u64) -> bool
        ensures { result ≡ is_other serial self.now }
    {
        self.stage.is_waiting() && self.serial != serial
    }

    /// How many bodies stand before it, if it has this serial and these bytes, and is stored.
    pub(crate) fn stored_as(&self, serial: u64, body: &[u8]) -> Option<u64>
        ensures { MatchOption result ((before : ℕ) → ¬ IsStoredAs self.now serial body.now before) (λ before. IsStoredAs self.now serial body.now before) }
    {
        let Stage::Stored { before } = self.stage else {
            return None;
        };
        if self.serial != serial || self.body.items() != body {
            return None;
        }
        Some(before)
    }
}
