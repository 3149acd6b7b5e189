ghost use Rattle.std.specs.Prelude.{◌≡◌, IfOk};
ghost use Rattle.base_core.specs.Lists.{Has};
ghost use Rattle.place_board.specs.Tokens.{HasBorne, new_service};

use crate::{ListSeat, Look, PlaceFault, PlaceNote, ServiceSeat, make_places};
use base_core::Want;
use fed_bytes::{Key, Span};
use std::alloc::Global;
use std::test::Fail;
use std::thread::{join, join_mut};

fn all_keys(alloc: Global) -> Result<Span, Fail> {
    Ok(Span {
        left: Key::of(alloc, &[])?,
        right: None,
    })
}

// The seat of the one service of a new board, and the list's.
fn one_service(alloc: Global) -> Result<(ServiceSeat, ListSeat), Fail>
    ensures { IfOk result (λ r. r.0 ≡ new_service r.1.noted.board 0) }
{
    let (seats, list) = make_places(alloc, 1)?;
    let mut seats = seats.into_items();
    match seats.pop() {
        Some(service) => Ok((service, list)),
        None => Err(Fail::from(Want::NoMemory)),
    }
}

// The last number that the service bears.
fn last_number(service: &mut ServiceSeat, span: &Span) -> Option<u32> {
    let mut last = None;
    'births: for _ in 0..2049 {
        match service.birth(0, span) {
            Ok((number, _note)) => last = Some(number),
            Err(PlaceFault::Spent) => return last,
        }
    }
    None
}

// The seats of the two services of a new board.
fn two_services(alloc: Global) -> Result<(ServiceSeat, ServiceSeat), Fail> {
    let (seats, _list) = make_places(alloc, 2)?;
    let mut seats = seats.into_items();
    let Some(second) = seats.pop() else {
        return Err(Fail::from(Want::NoMemory));
    };
    match seats.pop() {
        Some(first) => Ok((first, second)),
        None => Err(Fail::from(Want::NoMemory)),
    }
}

// Whether one more number is born, and found live.
fn bear_one(service: &mut ServiceSeat, span: &Span) -> bool {
    match service.birth(0, span) {
        Ok(born) => service.look(born.0) == Look::Live,
        Err(PlaceFault::Spent) => false,
    }
}

// Whether so many numbers are born, and each is found live.
fn bear_all(service: &mut ServiceSeat, span: &Span, count: u32) -> bool {
    let mut all = true;
    'births: for _ in 0..count {
        if !bear_one(service, span) {
            all = false;
        }
    }
    all
}

// The number that is born next.
fn next_number(service: &mut ServiceSeat, span: &Span) -> Option<u32> {
    match service.birth(0, span) {
        Ok((number, _note)) => Some(number),
        Err(PlaceFault::Spent) => None,
    }
}

// Lists the number, and retires it at once.
fn list_and_retire(mut list: ListSeat, number: u32, note: PlaceNote) -> ListSeat
    requires board { note.board ≡ list.noted.board }
    requires fresh { Has note.fresh number }
{
    list.list(number, note);
    list.retire(number);
    list
}

// Looks until the number is found retired, or 100,000 times.
fn look_until_retired(mut service: ServiceSeat, number: u32) -> ServiceSeat
    requires borne { HasBorne service number }
    ensures borne { HasBorne result number }
{
    'looks: for _ in 0..100_000u32 {
        match service.look(number) {
            Look::Retired => return service,
            Look::Live => continue,
        }
    }
    service
}

#[test]
fn two_threads_bear_numbers_of_one_board(rt: HostRuntime) -> Result<(), Fail> {
    let span = all_keys(rt.alloc())?;
    let (mut first, mut second) = two_services(rt.alloc())?;
    let (one, two) = join_mut(
        &rt,
        &mut || bear_all(&mut first, &span, 100),
        &mut || bear_all(&mut second, &span, 200),
    );
    assert!(rt; one && two);
    assert_eq!(rt; next_number(&mut first, &span), Some(100));
    assert_eq!(rt; next_number(&mut second, &span), Some(2248));
    Ok(())
}

#[test]
fn a_thread_looks_while_another_retires(rt: HostRuntime) -> Result<(), Fail> {
    let span = all_keys(rt.alloc())?;
    let (mut service, list) = one_service(rt.alloc())?;
    let (number, note) = service.birth(0, &span)?;
    let (_list, mut service) = join(
        &rt,
        move || list_and_retire(list, number, note),
        move || look_until_retired(service, number),
    );
    assert_eq!(rt; service.look(number), Look::Retired);
    Ok(())
}

#[test]
fn the_number_after_the_last_is_refused(rt: HostRuntime) -> Result<(), Fail> {
    let span = all_keys(rt.alloc())?;
    let (mut service, _list) = one_service(rt.alloc())?;
    assert_eq!(rt; last_number(&mut service, &span), Some(2047));
    Ok(())
}
