//! The numbers that a scan asked for and then found retired.
ghost use Rattle.std.specs.Prelude.{◌≡◌, ◌<◌, ◌++◌, ◌∷◌, [], length, MatchOption, nat_eq};
ghost use Rattle.std.specs.List.{list_any};

use std::marker::Model;

/// How many make a scan give up.
const MOST: usize = 8;

/// Fewer than eight numbers, in the order in which they were found.
#[derive(Debug, Drop)]
pub(crate) struct Retired {
    numbers: [u32; MOST],
    count: usize,
}

impl Model for Retired {
    ghost use Rattle.std.specs.Prelude.{ℕ, List, ◌<◌, take};

    ghost Value = { List ℕ };

    ghost view = { λ r. take r.count r.numbers };

    ghost invariant = { λ r. r.count < 8 };
}

impl Retired {
    pub(crate) fn none() -> Retired
        ensures { result ≡ [] }
    {
        Retired {
            numbers: [0; MOST],
            count: 0,
        }
    }

    pub(crate) fn has(&self, number: u32) -> bool
        ensures { result ≡ list_any (λ known. nat_eq known number) self.now }
    {
        self.numbers[..self.count].contains(&number)
    }

    /// One more. The eighth isn't kept: all eight are answered.
    pub(crate) fn put(&mut self, number: u32) -> Option<[u32; 8]>
        ensures put { MatchOption result (self.new ≡ self.old ++ number ∷ []) (λ numbers. numbers ≡ self.old ++ number ∷ []) }
        ensures eight { MatchOption result (length self.new < 8) (λ numbers. self.new ≡ self.old) }
    {
        let mut numbers = self.numbers;
        numbers[self.count] = number;
        if self.count + 1 == MOST {
            return Some(numbers);
        }
        self.numbers = numbers;
        self.count += 1;
        None
    }
}
