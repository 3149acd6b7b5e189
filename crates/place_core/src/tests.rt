ghost use Rattle.std.specs.Prelude.{◌≡◌, IfOk};
ghost use Rattle.place_board.specs.Tokens.{Serving};

use crate::caller::{cut_at, replace_twice, whole_place};
use crate::{PlaceRefusal, PlaceState};
use base_core::Want;
use place_board::{ServiceSeat, make_places};
use row_core::Index;
use std::alloc::Global;
use std::test::Fail;

// A place of one shard for each index, which service 1 of two bears, and the seat of that service.
fn two_services(alloc: Global) -> Result<(PlaceState, ServiceSeat), Fail>
    ensures board { IfOk result (λ r. r.1.noted.board ≡ r.0.list.noted.board) }
    ensures own { IfOk result (λ r. r.1.service ≡ 1) }
{
    let (seats, list) = make_places(alloc, 2)?;
    let mut seats = seats.into_items();
    let _second = seats.pop();
    match seats.pop() {
        Some(mut service) => {
            let place = whole_place(alloc, list, &mut service, 1)?;
            Ok((place, service))
        }
        None => Err(Fail::from(Want::NoMemory)),
    }
}

// The number of the shard that has the key.
fn number_at(alloc: Global, place: &mut PlaceState, index: Index, key: &[u8]) -> Result<u32, Fail> {
    Ok(place.locate(alloc, index, key)?.number)
}

// Whether the shard that has the key of one byte begins with the greatest odd byte up to it, and ends with the next.
fn stands_between(alloc: Global, place: &mut PlaceState, byte: u8) -> Result<bool, Fail> {
    let found = place.locate(alloc, Index::Spo, &[byte])?;
    let ends = match &found.span.right {
        None => byte >= 199,
        Some(right) => right.bytes() == [byte.wrapping_add(1 + byte % 2)].as_slice(),
    };
    let begins = match found.span.left.bytes() {
        [] => byte == 0,
        left => left == [byte.wrapping_sub(1 - byte % 2)].as_slice(),
    };
    Ok(begins && ends)
}

// Cuts at each odd byte below 200.
fn cut_all(alloc: Global, place: &mut PlaceState, service: &mut ServiceSeat) -> Result<bool, Fail>
    requires board { service.old.noted.board ≡ place.old.list.noted.board }
    requires own { service.old.service ≡ 1 }
{
    let mut all = true;
    'cuts: for half in 0..100u8 {
        if !cut_at(alloc, place, service, 1, Index::Spo, &[half * 2 + 1])? {
            all = false;
        }
    }
    Ok(all)
}

// Whether each key of one byte is where it should be.
fn all_stand(alloc: Global, place: &mut PlaceState) -> Result<bool, Fail> {
    'bytes: for byte in 0..201u8 {
        if !stands_between(alloc, place, byte)? {
            return Ok(false);
        }
    }
    Ok(true)
}

#[test]
fn a_shard_is_replaced_once(rt: HostRuntime) -> Result<(), Fail> {
    let (mut place, mut service) = two_services(rt.alloc())?;
    let (old, again) = replace_twice(rt.alloc(), &mut place, &mut service, 1, Index::T2i, &[3])?;
    assert_eq!(rt; old, 0);
    assert_eq!(rt; again, Err(PlaceRefusal::Moved { number: 0 }));
    assert_eq!(rt; number_at(rt.alloc(), &mut place, Index::T2i, &[3])?, 5);
    assert_eq!(rt; number_at(rt.alloc(), &mut place, Index::I2t, &[3])?, 1);
    Ok(())
}

#[test]
fn a_hundred_cuts_leave_each_key_with_its_shard(rt: HostRuntime) -> Result<(), Fail> {
    let (mut place, mut service) = two_services(rt.alloc())?;
    assert!(rt; cut_all(rt.alloc(), &mut place, &mut service)?);
    assert!(rt; all_stand(rt.alloc(), &mut place)?);
    let counts = place.counts(rt.alloc())?;
    assert_eq!(rt; counts.items(), [105, 0].as_slice());
    Ok(())
}
