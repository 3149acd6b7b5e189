//! Ranks of texts: numbers that compare as the texts do, so that long texts are compared once.
ghost use Rattle.std.specs.Prelude.{◌≡◌, ◌≢◌, ◌+◌, ◌-◌, ◌^◌, ◌<◌, length, map, Some, IfOk};
ghost use Rattle.std.specs.List.{range_with_len};
ghost use Rattle.std.specs.List.Sorted.{IsPermutation, IsSortedByKey};
ghost use Rattle.std.specs.Ordering.{nat_cmp};
ghost use Rattle.std.specs.Cmp.Lexicographic.{slice_cmp};
ghost use Rattle.bgp_model.specs.Table.{text_at, rank_at, AreRanks};

use crate::cells::Cells;
use base_core::Want;
use std::alloc::Global;

/// The rank of each cell: equal cells have one, an empty cell has 0, and so has no cell.
pub(crate) fn ranks_of(alloc: Global, cells: &Cells) -> Result<Vec<usize>, Want>
    ensures { IfOk result (λ ranks. AreRanks cells.now ranks.items) }
{
    let numbers = by_text(alloc, cells)?;
    let mut ranks = vec![in alloc; 0usize; cells.count()]?;
    let mut rank = 0;
    let mut last: &[u8] = &[];
    'numbers: for number in &numbers {
        let text = cells.at(*number);
        rank = rank_behind(rank, last, text);
        ranks[*number] = rank;
        last = text;
    }
    Ok(ranks)
}

/// The rank of a text that stands behind the last one in order.
fn rank_behind(rank: usize, last: &[u8], text: &[u8]) -> usize
    requires { rank < 2 ^ 64 - 1 }
    ensures same { text.now ≡ last.now → result ≡ rank }
    ensures next { text.now ≢ last.now → result ≡ rank + 1 }
{
    if text == last { rank } else { rank + 1 }
}

/// The numbers of the cells, by their texts.
fn by_text(alloc: Global, cells: &Cells) -> Result<Vec<usize>, Want>
    ensures all { IfOk result (λ numbers. IsPermutation (range_with_len 0 (length cells.now)) numbers.items) }
    ensures sorted { IfOk result (λ numbers.
        IsSortedByKey (λ number. text_at cells.now (Some number)) (slice_cmp nat_cmp) numbers.items) }
{
    let mut numbers = numbers_below(alloc, cells.count())?;
    numbers.sort_by(|one, other| cells.at(*one).cmp(cells.at(*other)))?;
    Ok(numbers)
}

/// The numbers from 0 on, so many.
pub(crate) fn numbers_below(alloc: Global, count: usize) -> Result<Vec<usize>, Want>
    ensures { IfOk result (λ numbers. numbers.items ≡ range_with_len 0 count) }
{
    let mut numbers = Vec::with_capacity(alloc, count)?;
    'numbers: for number in 0..count {
        numbers.push(number)?;
    }
    Ok(numbers)
}

/// The rank of each place.
pub(crate) fn ranks_at(
    alloc: Global,
    ranks: &[usize],
    places: &[Option<u32>],
) -> Result<Vec<usize>, Want>
    ensures { IfOk result (λ made. made.items ≡ map (rank_at ranks.now) places.now) }
{
    let mut made = Vec::with_capacity(alloc, places.len())?;
    'places: for place in places {
        made.push(rank_at(ranks, *place))?;
    }
    Ok(made)
}

fn rank_at(ranks: &[usize], place: Option<u32>) -> usize
    ensures { result ≡ rank_at ranks.now place }
{
    match place {
        Some(number) => ranks.get(number as usize).copied().unwrap_or(0),
        None => 0,
    }
}
