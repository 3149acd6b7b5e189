ghost use Rattle.std.specs.Prelude.{◌≡◌, ◌<◌, ◌≤◌, IfOk, length, slice_index, ℕ};
ghost use Rattle.place_board.specs.Tokens.{new_service, new_services, new_list, blank};

use crate::board::PlaceBoard;
use crate::list_seat::ListSeat;
use crate::service_seat::ServiceSeat;
use atomic_table::Table;
use base_core::{List, Want};
use std::alloc::{AllocError, Global};
use std::sync::Arc;

/// How many words a board has: those of 16 services' numbers, and one more for each service.
const WORDS: usize = 32_784;

/// A new board: the seats of its services, from the first on, and the one that lists. Nothing is born.
pub fn make_places(alloc: Global, services: u32) -> Result<(List<ServiceSeat>, ListSeat), Want>
    requires from_one { 0 < services }
    requires within { services ≤ 16 }
    ensures seats { IfOk result (λ r. r.0 ≡ new_services r.1.noted.board services) }
    ensures list { IfOk result (λ r. r.1 ≡ new_list r.1.noted.board services) }
{
    let mut list = make_list(alloc)?;
    let seats = seat_all(alloc, &mut list, services)?;
    Ok((List::of(seats), list))
}

// The words of a new board, and the list seat of no service.
fn make_list(alloc: Global) -> Result<ListSeat, Want>
    ensures { IfOk result (λ l. l ≡ new_list l.noted.board 0) }
{
    let words = zeros(alloc, WORDS)?;
    let (table, seat) = Table::of_words(alloc, &words, &0)?;
    let board = Arc::new(alloc, PlaceBoard { table }).map_err(AllocError::from)?;
    Ok(ListSeat {
        board,
        seat,
        services: 0,
    })
}

fn seat_all(alloc: Global, list: &mut ListSeat, services: u32) -> Result<Vec<ServiceSeat>, Want>
    requires within { services ≤ 16 }
    requires first { list.old ≡ new_list list.old.noted.board 0 }
    ensures seats { IfOk result (λ r. r.items ≡ new_services list.new.noted.board services) }
    ensures list { IfOk result (λ r. list.new ≡ new_list list.new.noted.board services) }
{
    let mut seats = Vec::new(alloc);
    'seats: for before in 0..services {
        seats.push(list.seat_one(before)?)?;
    }
    Ok(seats)
}

fn zeros(alloc: Global, count: usize) -> Result<Vec<u64>, Want>
    ensures long { IfOk result (λ v. length v.items ≡ count) }
    ensures zero { IfOk result (λ v. (n : ℕ) → slice_index v.items n ≡ 0) }
{
    Ok(Vec::from_elem(alloc, 0, count)?)
}
