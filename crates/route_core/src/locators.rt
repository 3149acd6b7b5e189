//! The locators of a route, by index and left end.
ghost use Rattle.std.specs.Prelude.{◌≡◌, ◌+◌, ◌<◌, ◌≤◌, ◌⊎◌, ◌↔◌, ℕ, List, IsTrue, true, false, length, take, drop, vec_len, vec_capacity};
ghost use Rattle.std.specs.Ordering.{is_le, nat_cmp};
ghost use Rattle.std.specs.Cmp.Lexicographic.{slice_cmp};
ghost use Rattle.base_core.specs.Lists.{Has};
ghost use Rattle.fed_bytes.specs.Keys.{IsIn};
ghost use Rattle.place_core.specs.declared.shards.Locator.{Locator};
ghost use Rattle.place_core.specs.Shown.{place_of};
ghost use Rattle.place_core.specs.Places.{StandBy, HasKey, located};
ghost use Rattle.place_core.specs.Lines.{up_to, ShareLeft};
ghost use Rattle.route_core.specs.Apart.{TellsApart};
ghost use Rattle.route_core.specs.Routes.{LocatorComesBefore, AreOverlapping};

use fed_bytes::Span;
use place_core::{Locator, index_place};
use row_core::Index;

/// Where the locators begin that stand behind the key.
pub(crate) fn first_behind(locators: &[Locator], index: Index, key: &[u8]) -> usize
    requires { StandBy LocatorComesBefore locators.now }
    ensures bound { result ≤ length locators.now }
    ensures front { (l : Locator) → Has (take result locators.now) l → up_to (place_of index) key.now (located l) ≡ true }
    ensures back { (l : Locator) → Has (drop result locators.now) l → up_to (place_of index) key.now (located l) ≡ false }
{
    let place = index_place(index);
    locators.partition_point(|locator| is_up_to(locator, place, key))
}

/// Puts a locator in its place, where there is room for it.
pub(crate) fn put_locator(locators: &mut Vec<Locator>, locator: Locator)
    requires room { vec_len locators.old < vec_capacity locators.old }
    requires order { StandBy LocatorComesBefore locators.old.items }
    requires apart { (l : Locator) → Has locators.old.items l → ¬ ShareLeft (located l) (located locator) }
    ensures has { (l : Locator) → (Has locators.new.items l ↔ (Has locators.old.items l ⊎ (locator ≡ l))) }
    ensures order { StandBy LocatorComesBefore locators.new.items }
{
    let at = first_behind(
        locators.as_slice(),
        locator.index,
        locator.span.left.bytes(),
    );
    // There is room, so nothing comes back.
    let _ = locators.insert(at, locator);
}

/// Drops the locators that overlap this one.
pub(crate) fn drop_overlapping(locators: &mut Vec<Locator>, learned: &Locator)
    requires order { StandBy LocatorComesBefore locators.old.items }
    ensures has { (l : Locator) → (Has locators.new.items l ↔ (Has locators.old.items l × ¬ AreOverlapping l learned.now)) }
    ensures order { StandBy LocatorComesBefore locators.new.items }
    ensures long { vec_len locators.new ≤ vec_len locators.old }
    ensures capacity { vec_capacity locators.new ≡ vec_capacity locators.old }
{
    locators.retain(|held| is_apart(held, learned));
}

/// Drops the locators of this number.
pub(crate) fn drop_number(locators: &mut Vec<Locator>, number: u32)
    requires order { StandBy LocatorComesBefore locators.old.items }
    ensures has { (l : Locator) → (Has locators.new.items l ↔ (Has locators.old.items l × ¬ (l.number ≡ number))) }
    ensures order { StandBy LocatorComesBefore locators.new.items }
{
    locators.retain(|held| held.number != number);
}

/// Whether the locator has this key of the index.
pub(crate) fn has_key(locator: &Locator, index: Index, key: &[u8]) -> bool
    ensures yes { result ≡ true → HasKey (located locator.now) index key.now }
    ensures no { result ≡ false → ¬ HasKey (located locator.now) index key.now }
{
    if locator.index != index {
        return false;
    }
    locator.span.contains(key)
}

/// Whether the span has its left end. If not, it is empty.
pub(crate) fn has_left_end(span: &Span) -> bool
    ensures yes { result ≡ true → IsIn span.now span.now.left }
    ensures no { result ≡ false → ¬ IsIn span.now span.now.left }
{
    span.contains(span.left.bytes())
}

// Whether no key of one index is in both.
fn is_apart(held: &Locator, learned: &Locator) -> bool
    ensures { TellsApart held.now learned.now result }
{
    if held.index != learned.index {
        return true;
    }
    !held.span.overlaps(&learned.span)
}

// Whether the locator stands no later than one with this left end would.
fn is_up_to(locator: &Locator, place: u8, key: &[u8]) -> bool
    ensures { result ≡ up_to place key.now (located locator.now) }
{
    let own = index_place(locator.index);
    if own == place {
        return is_key_up_to(locator.span.left.bytes(), key);
    }
    own < place
}

fn is_key_up_to(first: &[u8], second: &[u8]) -> bool
    ensures { result ≡ is_le (slice_cmp nat_cmp first.now second.now) }
{
    first.cmp(second).is_le()
}
