//! How many bodies are stored, and how many an undecided group has.
ghost use Rattle.std.specs.Prelude.{◌≡◌, ◌+◌, ◌<◌, ◌≤◌, ◌^◌, IfSome, if◌then◌else◌};

#[derive(Clone, Copy)]
pub struct Tally {
    /// How many bodies the records of the journals have.
    pub(crate) stored: u64,
    /// How many the group has whose record is undecided.
    pub(crate) grouped: u64,
    ghost fits: { stored + grouped < 2 ^ 64 },
}

impl Tally {
    /// So many bodies, and no group.
    pub(crate) fn of(stored: u64) -> Tally
        ensures stored { result.stored ≡ stored }
        ensures grouped { result.grouped ≡ 0 }
    {
        Tally { stored, grouped: 0 }
    }

    /// A group of so many bodies is about to be put. There is none where their numbers would not fit.
    pub(crate) fn with_group(self, count: u64) -> Option<Tally>
        ensures stored { IfSome result (λ tally. tally.stored ≡ self.stored) }
        ensures grouped { IfSome result (λ tally. tally.grouped ≡ count) }
    {
        let Some(_) = self.stored.checked_add(count) else {
            return None;
        };
        Some(Tally {
            stored: self.stored,
            grouped: count,
        })
    }

    /// The group is decided.
    pub(crate) fn decided(self, is_in: bool) -> Tally
        ensures stored { result.stored ≡ (if is_in then self.stored + self.grouped else self.stored) }
        ensures grouped { result.grouped ≡ 0 }
    {
        if is_in {
            return Tally::of(self.stored + self.grouped);
        }
        Tally::of(self.stored)
    }
}
