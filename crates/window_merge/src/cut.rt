//! Rows cut off behind so many keys.
ghost use Rattle.std.specs.Prelude.{◌≡◌, ◌<◌, ◌≤◌, length, take, IsTrue, IsFalse, IfOk, Some};
ghost use Rattle.window_core.specs.Packed.{row_at};
ghost use Rattle.row_core.specs.Rows.{StandInOrder};
ghost use Rattle.window_merge.specs.Merging.{IsCut, IsEarlierEnd, AreOfKeys, IsLeftAt};
ghost use Rattle.window_merge.specs.Parting.{ArePartedAt};
ghost use Rattle.window_merge.specs.Values.{IsKeyOf};

use crate::compare::{is_before, is_same, is_up_to};
use base_core::Want;
use fed_bytes::Key;
use row_core::{Chunk, Row, Rows};
use std::alloc::Global;

/// The rows of the first `most` keys before the end, and the key behind them: the next one, or the end.
pub(crate) fn cut(alloc: Global, rows: Vec<Row>, end: Option<Key>, most: u32) -> Result<Chunk, Want>
    requires { StandInOrder rows.items }
    ensures { IfOk result (IsCut rows.items end most) }
{
    let mut rows = rows;
    rows.truncate(count_before_end(rows.as_slice(), &end));
    let count = count_of_keys(rows.as_slice(), most);
    if count >= rows.len() {
        return Ok(Chunk {
            rows: Rows::of(rows),
            next: end,
        });
    }
    let next = rows[count].key.copy(alloc)?;
    rows.truncate(count);
    Ok(Chunk {
        rows: Rows::of(rows),
        next: Some(next),
    })
}

/// The earlier of two right ends.
pub(crate) fn earlier_end(one: Option<Key>, other: Option<Key>) -> Option<Key>
    ensures { IsEarlierEnd one other result }
{
    let Some(first) = one else {
        return other;
    };
    let Some(second) = other else {
        return Some(first);
    };
    if is_up_to(first.bytes(), second.bytes()) {
        Some(first)
    } else {
        Some(second)
    }
}

/// How many rows, which stand in order, have keys that stand before the end.
pub fn count_before_end(rows: &[Row], end: &Option<Key>) -> usize
    requires { StandInOrder rows.now }
    ensures { ArePartedAt rows.now end.now result }
{
    match end {
        None => rows.len(),
        Some(key) => count_before(rows, key.bytes()),
    }
}

/// How many rows, which stand in order, have keys that stand before this one.
pub fn count_before(rows: &[Row], key: &[u8]) -> usize
    requires { StandInOrder rows.now }
    ensures { ArePartedAt rows.now (Some key.now) result }
{
    let mut low: usize = 0;
    let mut high = rows.len();
    'halves: while low < high {
        let middle = low + (high - low) / 2;
        if is_before(rows[middle].key.bytes(), key) {
            low = middle + 1;
            continue 'halves;
        }
        high = middle;
    }
    low
}

/// How many rows have the first `most` keys.
fn count_of_keys(rows: &[Row], most: u32) -> usize
    requires { StandInOrder rows.now }
    ensures { AreOfKeys rows.now most result }
{
    let mut left = most;
    let mut count: usize = 0;
    'rows: while count < rows.len() {
        let Some(others) = left_at(rows, count, left) else {
            return count;
        };
        left = others;
        count += 1;
    }
    count
}

/// How many keys may still begin behind the row.
fn left_at(rows: &[Row], index: usize, left: u32) -> Option<u32>
    requires order { StandInOrder rows.now }
    requires there { index < length rows.now }
    ensures { IsLeftAt rows.now index left result }
{
    if begins_key(rows, index) {
        return left.checked_sub(1);
    }
    Some(left)
}

/// Whether the row is the first of its key.
fn begins_key(rows: &[Row], index: usize) -> bool
    requires order { StandInOrder rows.now }
    requires there { index < length rows.now }
    ensures first { IsTrue result → ¬ IsKeyOf (take index rows.now) (row_at rows.now index).key }
    ensures later { IsFalse result → IsKeyOf (take index rows.now) (row_at rows.now index).key }
{
    match index.checked_sub(1) {
        Some(before) => !is_same(rows[before].key.bytes(), rows[index].key.bytes()),
        None => true,
    }
}
