ghost use Rattle.std.specs.Prelude.{◌≡◌, IfOk};
ghost use Rattle.place_core.specs.Shown.{IsShown};

use crate::Route;
use base_core::Want;
use fed_bytes::{Key, Span};
use place_board::{ServiceSeat, make_places};
use place_core::{Locator, index_place};
use row_core::Index;
use std::alloc::Global;
use std::test::Fail;

// A route without locators, and the seat of service 1.
fn new_route(alloc: Global) -> Result<(Route, ServiceSeat), Fail>
    ensures board { IfOk result (λ r. r.1.noted.board ≡ r.0.note.board) }
    ensures own { IfOk result (λ r. r.1.service ≡ 1) }
{
    let (seats, mut list) = make_places(alloc, 1)?;
    let mut seats = seats.into_items();
    let Some(service) = seats.pop() else {
        return Err(Fail::from(Want::NoMemory));
    };
    let board = list.share()?;
    Ok((Route::start(alloc, board, list.know()), service))
}

// Where the keys are from one byte on and before another: a shard that service 1 bears.
fn between(alloc: Global, service: &mut ServiceSeat, left: u8, right: u8) -> Result<Locator, Fail>
    requires own { service.old.service ≡ 1 }
    ensures service { (service.new.noted.board ≡ service.old.noted.board) × (service.new.service ≡ 1) }
    ensures shown { IfOk result (λ l. IsShown l × (l.note.board ≡ service.old.noted.board)) }
{
    let span = Span {
        left: Key::of(alloc, &[left])?,
        right: Some(Key::of(alloc, &[right])?),
    };
    let (number, note) = service.birth(index_place(Index::Spo), &span)?;
    Ok(Locator {
        number,
        service: 1,
        index: Index::Spo,
        span,
        note,
    })
}

// The route learns of one more shard.
fn learn_between(
    alloc: Global,
    route: &mut Route,
    service: &mut ServiceSeat,
    left: u8,
    right: u8,
) -> Result<(), Fail>
    requires board { service.old.noted.board ≡ route.old.note.board }
    requires own { service.old.service ≡ 1 }
    ensures board { service.new.noted.board ≡ route.new.note.board }
    ensures own { service.new.service ≡ 1 }
{
    let locator = between(alloc, service, left, right)?;
    route.learn(locator)?;
    Ok(())
}

// The number of the shard that the route knows for this key.
fn number_at(route: &Route, byte: u8) -> Option<u32> {
    match route.known(Index::Spo, &[byte]) {
        Some(locator) => Some(locator.number),
        None => None,
    }
}

#[test]
fn a_key_is_known_from_the_left_end_on_and_before_the_right(rt: HostRuntime) -> Result<(), Fail> {
    let (mut route, mut service) = new_route(rt.alloc())?;
    learn_between(rt.alloc(), &mut route, &mut service, 5, 9)?;
    learn_between(rt.alloc(), &mut route, &mut service, 1, 5)?;
    assert_eq!(rt; number_at(&route, 0), None);
    assert_eq!(rt; number_at(&route, 1), Some(1));
    assert_eq!(rt; number_at(&route, 4), Some(1));
    assert_eq!(rt; number_at(&route, 5), Some(0));
    assert_eq!(rt; number_at(&route, 9), None);
    Ok(())
}

#[test]
fn what_overlaps_a_learned_one_goes(rt: HostRuntime) -> Result<(), Fail> {
    let (mut route, mut service) = new_route(rt.alloc())?;
    learn_between(rt.alloc(), &mut route, &mut service, 1, 5)?;
    learn_between(rt.alloc(), &mut route, &mut service, 5, 9)?;
    learn_between(rt.alloc(), &mut route, &mut service, 3, 5)?;
    assert_eq!(rt; number_at(&route, 1), None);
    assert_eq!(rt; number_at(&route, 3), Some(2));
    assert_eq!(rt; number_at(&route, 5), Some(1));
    Ok(())
}
