// Callers of the place, as its page shows them. They are proved with the tests.
ghost use Rattle.std.specs.Prelude.{◌≡◌, [], IfOk};
ghost use Rattle.base_core.specs.Lists.{Has};
ghost use Rattle.place_core.specs.Shown.{IsFresh};

use crate::{Born, Locator, PlaceRefusal, PlaceState, index_place};
use base_core::List;
use fed_bytes::{Key, Span};
use place_board::{ListSeat, PlaceFault, ServiceSeat};
use row_core::Index;
use std::alloc::Global;
use std::test::Fail;

/// Cuts the shard that has the key into two, before the key and from it on. False where its span begins with the key. The
/// service, whose number is `own`, bears both.
pub fn cut_at(
    alloc: Global,
    place: &mut PlaceState,
    service: &mut ServiceSeat,
    own: u32,
    index: Index,
    key: &[u8],
) -> Result<bool, Fail>
    requires board { service.old.noted.board ≡ place.old.list.noted.board }
    requires own { own ≡ service.old.service }
    ensures board { place.new.list.noted.board ≡ place.old.list.noted.board }
    ensures service { (service.new.noted.board ≡ service.old.noted.board) × (service.new.service ≡ service.old.service) }
{
    place.is_place();
    let Locator {
        number,
        service: _,
        index: _,
        span,
        note: _,
    } = place.locate(alloc, index, key)?;
    let Span { left, right } = span;
    if !left.bytes().cmp(key).is_lt() {
        return Ok(false);
    }
    let end = Key::of(alloc, key)?;
    let front = Span {
        left,
        right: Some(end),
    };
    let start = Key::of(alloc, key)?;
    let back = Span { left: start, right };
    let front = bear(service, own, index, front)?;
    let back = bear(service, own, index, back)?;
    let halves = vec![in alloc; front, back]?;
    place.replace(number, List::of(halves))?;
    Ok(true)
}

/// Replaces the shard that has the key by another of its span, and then tries once more.
pub fn replace_twice(
    alloc: Global,
    place: &mut PlaceState,
    service: &mut ServiceSeat,
    own: u32,
    index: Index,
    key: &[u8],
) -> Result<(u32, Result<(), PlaceRefusal>), Fail>
    requires board { service.old.noted.board ≡ place.old.list.noted.board }
    requires own { own ≡ service.old.service }
{
    place.is_place();
    let old = place.locate(alloc, index, key)?;
    let again = place.locate(alloc, index, key)?;
    let number = old.number;
    let first = bear(service, own, index, old.span)?;
    let second = bear(service, own, index, again.span)?;
    let first = vec![in alloc; first]?;
    let second = vec![in alloc; second]?;
    place.replace(number, List::of(first))?;
    Ok((number, place.replace(number, List::of(second))))
}

/// A place of one shard for each index, which has all its keys. The service bears the numbers 0 to 4 for them.
pub fn whole_place(
    alloc: Global,
    list: ListSeat,
    service: &mut ServiceSeat,
    own: u32,
) -> Result<PlaceState, Fail>
    requires board { service.old.noted.board ≡ list.noted.board }
    requires own { own ≡ service.old.service }
    requires new { list.ever ≡ [] }
    ensures board { IfOk result (λ p. p.list.noted.board ≡ service.old.noted.board) }
    ensures service { (service.new.noted.board ≡ service.old.noted.board) × (service.new.service ≡ service.old.service) }
{
    let t2i = bear(service, own, Index::T2i, all_keys(alloc)?)?;
    let i2t = bear(service, own, Index::I2t, all_keys(alloc)?)?;
    let spo = bear(service, own, Index::Spo, all_keys(alloc)?)?;
    let pos = bear(service, own, Index::Pos, all_keys(alloc)?)?;
    let osp = bear(service, own, Index::Osp, all_keys(alloc)?)?;
    let born = vec![in alloc; t2i, i2t, spo, pos, osp]?;
    Ok(PlaceState::make(alloc, list, List::of(born))?)
}

fn bear(service: &mut ServiceSeat, own: u32, index: Index, span: Span) -> Result<Born, PlaceFault>
    requires own { own ≡ service.old.service }
    ensures service { (service.new.noted.board ≡ service.old.noted.board) × (service.new.service ≡ service.old.service) }
    ensures place { IfOk result (λ b. (b.index ≡ index) × (b.span ≡ span)) }
    ensures fresh { IfOk result (λ b. IsFresh b × (b.note.board ≡ service.old.noted.board)) }
{
    let (number, note) = service.birth(index_place(index), &span)?;
    Ok(Born {
        number,
        service: own,
        index,
        span,
        note,
    })
}

fn all_keys(alloc: Global) -> Result<Span, Fail>
    ensures { IfOk result (λ s. (s.left ≡ []) × (s.right ≡ None)) }
{
    Ok(Span {
        left: Key::of(alloc, &[])?,
        right: None,
    })
}
