//! What is done to all bodies that are held.
ghost use Rattle.std.specs.Prelude.{◌≡◌, ℕ, ◌+◌, map, filter, MatchOption};
ghost use Rattle.body_journal.specs.Held.{decided_held, mark_one, next_place, marked, is_kept, HasStored};

use crate::held::{Held, Stage};

/// Marks the others that wait as members of a group of so many bodies, the first of which is another.
pub(crate) fn mark(held: &mut [Held], serial: u64, count: u64)
    ensures { held.new ≡ marked serial count 1 held.old }
{
    let mut place = 1;
    'held: for one in held.iter_mut() {
        place = mark_one(one, serial, count, place);
    }
}

/// Marks one at this place, if it is to be, and answers the next place.
fn mark_one(one: &mut Held, serial: u64, count: u64, place: u64) -> u64
    ensures marks { one.new ≡ mark_one serial count place one.old }
    ensures next { result ≡ next_place serial count place one.old }
{
    if place < count && one.is_other(serial) {
        one.stage = Stage::InGroup { place };
        return place + 1;
    }
    place
}

/// The group is decided: its members are stored, or wait as before. So many bodies stood before the group.
pub(crate) fn decide(held: &mut [Held], stored: u64, is_in: bool)
    ensures { held.new ≡ map (decided_held stored is_in) held.old }
{
    'held: for one in held.iter_mut() {
        one.stage = one.stage.decided(stored, is_in);
    }
}

/// Lets the body with this serial go.
pub(crate) fn forget(held: &mut Vec<Held>, serial: u64)
    ensures { held.new.items ≡ filter (is_kept serial) held.old.items }
{
    held.retain(|one| one.serial != serial);
}

/// How many bodies stand before the one that has this serial and these bytes, if it is stored.
pub(crate) fn find_stored(held: &[Held], serial: u64, body: &[u8]) -> Option<u64>
    ensures { MatchOption result ((before : ℕ) → ¬ HasStored held.now serial body.now before) (λ before. HasStored held.now serial body.now before) }
{
    'held: for one in held {
        if let Some(before) = one.stored_as(serial, body) {
            return Some(before);
        }
    }
    None
}
