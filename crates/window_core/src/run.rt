//! A run: rows in order, in flat buffers.
ghost use Rattle.std.specs.Prelude.{◌≡◌, ◌↔◌, ◌<◌, ◌⊎◌, IsTrue, IsFalse, length, IfOk, OnOk};
ghost use Rattle.row_core.specs.Rows.{StandInOrder};
ghost use Rattle.window_core.specs.Runs.{AreOlder, IsMerge, IsTaken, AreThoseIn, IsOlderNext, IsNewerNext, IsFirstFrom, IsFoundAt};

use crate::compare::{is_before, is_same, reaches};
use crate::packed::Packed;
use base_core::Want;
use fed_bytes::Span;
use row_core::Row;
use std::alloc::Global;

/// A copy of these rows.
pub(crate) fn copied(alloc: Global, rows: &[Row]) -> Result<Packed, Want>
    ensures { IfOk result (λ run. run ≡ rows.now) }
{
    let mut run = Packed::with_capacity(alloc, rows.len(), 0)?;
    'rows: for row in rows {
        run.push_row(row)?;
    }
    Ok(run)
}

/// A copy of the rows whose keys are in the span.
pub(crate) fn taken(alloc: Global, rows: &[Row], span: &Span) -> Result<Packed, Want>
    requires { StandInOrder rows.now }
    ensures { IfOk result (AreThoseIn span.now rows.now) }
{
    let mut run = Packed::with_capacity(alloc, rows.len(), 0)?;
    'rows: for row in rows {
        take(&mut run, row, span)?;
    }
    Ok(run)
}

/// Puts a copy of the row behind the others, if its key is in the span.
fn take(run: &mut Packed, row: &Row, span: &Span) -> Result<(), Want>
    ensures { OnOk result (IsTaken span.now row.now run.old run.new) }
{
    if !span.contains(row.key.bytes()) {
        return Ok(());
    }
    run.push_row(row)
}

/// The rows of two runs. Of one key those of the newer run stand first.
pub(crate) fn merge(alloc: Global, older: &Packed, newer: &Packed) -> Result<Packed, Want>
    requires older { StandInOrder older.now }
    requires newer { StandInOrder newer.now }
    requires times { AreOlder older.now newer.now }
    ensures { IfOk result (IsMerge older.now newer.now) }
{
    let rows = older.len().saturating_add(newer.len());
    let bytes = older.size().saturating_add(newer.size());
    let mut run = Packed::with_capacity(alloc, rows, bytes)?;
    let mut from_older: usize = 0;
    let mut from_newer: usize = 0;
    'rows: while are_left(older, from_older, newer, from_newer) {
        if is_older_next(older, from_older, newer, from_newer) {
            run.push_from(older, from_older)?;
            from_older += 1;
            continue 'rows;
        }
        run.push_from(newer, from_newer)?;
        from_newer += 1;
    }
    Ok(run)
}

/// Whether one of them has rows left.
fn are_left(older: &Packed, from_older: usize, newer: &Packed, from_newer: usize) -> bool
    ensures { IsTrue result ↔ ((from_older < length older.now) ⊎ (from_newer < length newer.now)) }
{
    from_older < older.len() || from_newer < newer.len()
}

/// Whether the next row of both is the older run's. One of them has rows left.
fn is_older_next(older: &Packed, from_older: usize, newer: &Packed, from_newer: usize) -> bool
    requires { (from_older < length older.now) ⊎ (from_newer < length newer.now) }
    ensures older { IsTrue result → IsOlderNext older.now from_older newer.now from_newer }
    ensures newer { IsFalse result → IsNewerNext older.now from_older newer.now from_newer }
{
    if from_older >= older.len() {
        return false;
    }
    if from_newer >= newer.len() {
        return true;
    }
    is_before(older.key_at(from_older), newer.key_at(from_newer))
}

/// How many rows stand before the place of the key and the time.
pub(crate) fn first_from(run: &Packed, key: &[u8], time: u64) -> usize
    requires { StandInOrder run.now }
    ensures { IsFirstFrom run.now key.now time result }
{
    let mut low: usize = 0;
    let mut high = run.len();
    'halves: while low < high {
        let middle = low + (high - low) / 2;
        if reaches(run, middle, key, time) {
            high = middle;
            continue 'halves;
        }
        low = middle + 1;
    }
    low
}

/// Where the newest row of the key at or before the time stands.
pub(crate) fn newest_at(run: &Packed, key: &[u8], time: u64) -> Option<usize>
    requires { StandInOrder run.now }
    ensures { IsFoundAt run.now key.now time result }
{
    let index = first_from(run, key, time);
    if index >= run.len() {
        return None;
    }
    if !is_same(run.key_at(index), key) {
        return None;
    }
    Some(index)
}
