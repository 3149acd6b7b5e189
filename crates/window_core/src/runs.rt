//! Several runs. Each is of later times than those before it, so that of one key the rows of a later run are the newer.
ghost use Rattle.std.specs.Prelude.{◌≡◌, ◌↔◌, ◌+◌, ◌<◌, ◌≤◌, ◌⊎◌, ◌++◌, ◌∷◌, [], List, IsTrue, length, take, drop, IfOk, OnOk, OnErr};
ghost use Rattle.base_core.specs.Lists.{Has};
ghost use Rattle.row_core.specs.declared.rows.Row.{Row as AnyRow};
ghost use Rattle.window_core.specs.Gathering.{IsLeftBy};
ghost use Rattle.row_core.specs.Rows.{StandInOrder, IsLast, IsChunk};
ghost use Rattle.window_core.specs.Runs.{AreOlder, AreRuns, IsMerge, IsLeast, ArePassedTo, all_of, merged, run_at, number_at};

use crate::compare::{is_before, is_same};
use crate::packed::Packed;
use crate::run::{first_from, merge, newest_at};
use base_core::Want;
use fed_bytes::Key;
use row_core::{Chunk, Row, Rows};
use std::alloc::Global;

/// Puts a run of later times behind the others, and merges it with those that aren't far longer. So each run is at
/// least four times as long as the next one. After an `Err` all is as it was.
pub(crate) fn put_run(alloc: Global, runs: &mut Vec<Packed>, run: Packed) -> Result<(), Want>
    requires runs { AreRuns runs.old.items }
    requires run { StandInOrder run }
    requires later { AreOlder (all_of runs.old.items) run }
    ensures runs { OnOk result (AreRuns runs.new.items) }
    ensures has { OnOk result ((row : AnyRow) → (Has (all_of runs.new.items) row ↔ (Has (all_of runs.old.items) row ⊎ Has run row))) }
    ensures err { OnErr result (runs.new.items ≡ runs.old.items) }
{
    if run.len() == 0 {
        return Ok(());
    }
    let mut run = run;
    let mut kept = runs.len();
    'runs: while is_short(runs.as_slice(), kept, run.len()) {
        kept -= 1;
        run = merge(alloc, &runs[kept], &run)?;
    }
    place_run(runs, kept, run)
}

/// Whether there is a last one of the first `kept` runs, and it is less than four times as long as so many rows.
fn is_short(runs: &[Packed], kept: usize, rows: usize) -> bool
    requires { kept ≤ length runs.now }
    ensures { IsTrue result → 0 < kept }
{
    match kept.checked_sub(1) {
        Some(last) => runs[last].len() / 4 < rows,
        None => false,
    }
}

/// Puts a run behind the first `kept` runs, in place of the others. After an `Err` all is as it was.
fn place_run(runs: &mut Vec<Packed>, kept: usize, run: Packed) -> Result<(), Want>
    requires { kept ≤ length runs.old.items }
    ensures ok { OnOk result (runs.new.items ≡ take kept runs.old.items ++ run ∷ []) }
    ensures err { OnErr result (runs.new.items ≡ runs.old.items) }
{
    if kept < runs.len() {
        runs.truncate(kept + 1);
        runs[kept] = run;
        return Ok(());
    }
    runs.push(run)?;
    Ok(())
}

pub(crate) fn are_empty(runs: &[Packed]) -> bool
    ensures { IsTrue result ↔ (all_of runs.now ≡ []) }
{
    'runs: for run in runs {
        if run.len() > 0 {
            return false;
        }
    }
    true
}

/// The newest row of the key at or before the time.
pub(crate) fn last(
    alloc: Global,
    runs: &[Packed],
    key: &[u8],
    time: u64,
) -> Result<Option<Row>, Want>
    requires { AreRuns runs.now }
    ensures { IfOk result (IsLast (merged runs.now) key.now time) }
{
    let mut left = runs.len();
    'runs: while left > 0 {
        left -= 1;
        let run = &runs[left];
        if let Some(index) = newest_at(run, key, time) {
            return Ok(Some(run.row(alloc, index)?));
        }
    }
    Ok(None)
}

/// All rows of the first `most` keys from a key on, and the key behind them. No row is of a later time than this one.
pub(crate) fn chunk(
    alloc: Global,
    runs: &[Packed],
    key: &[u8],
    time: u64,
    most: u32,
) -> Result<Chunk, Want>
    requires runs { AreRuns runs.now }
    requires times { (row : AnyRow) → Has (all_of runs.now) row → row.time ≤ time }
    ensures { IfOk result (IsChunk (merged runs.now) key.now most) }
{
    let mut passed = first_of_each(alloc, runs, key, time)?;
    let mut rows = Vec::new(alloc);
    let mut left = most;
    'rows: while let Some(run) = least(runs, passed.as_slice()) {
        let index = passed[run];
        let Some(others) = left_for(rows.as_slice(), runs[run].key_at(index), left) else {
            let next = Key::of(alloc, runs[run].key_at(index))?;
            return Ok(Chunk {
                rows: Rows::of(rows),
                next: Some(next),
            });
        };
        left = others;
        rows.push(runs[run].row(alloc, index)?)?;
        passed[run] = index + 1;
    }
    Ok(Chunk {
        rows: Rows::of(rows),
        next: None,
    })
}

/// How many rows of each run stand before the place.
fn first_of_each(alloc: Global, runs: &[Packed], key: &[u8], time: u64) -> Result<Vec<usize>, Want>
    requires { AreRuns runs.now }
    ensures { IfOk result (λ passed. ArePassedTo runs.now key.now time passed.items) }
{
    let mut passed = Vec::with_capacity(alloc, runs.len())?;
    'runs: for run in runs {
        passed.push(first_from(run, key, time))?;
    }
    Ok(passed)
}

/// The run that has the first of all rows that are left.
fn least(runs: &[Packed], passed: &[usize]) -> Option<usize>
    requires runs { AreRuns runs.now }
    requires count { length passed.now ≡ length runs.now }
    ensures { IsLeast runs.now passed.now (length runs.now) result }
{
    let mut found = None;
    'runs: for next in 0..runs.len() {
        found = earlier(runs, passed, found, next);
    }
    found
}

/// Of the run that was found and the next one, the one that has the first row. Of one key the next run's rows are newer.
fn earlier(runs: &[Packed], passed: &[usize], found: Option<usize>, next: usize) -> Option<usize>
    requires runs { AreRuns runs.now }
    requires count { length passed.now ≡ length runs.now }
    requires there { next < length runs.now }
    requires found { IsLeast runs.now passed.now next found }
    ensures { IsLeast runs.now passed.now (next + 1) result }
{
    if passed[next] >= runs[next].len() {
        return found;
    }
    let Some(other) = found else {
        return Some(next);
    };
    if is_before(
        runs[other].key_at(passed[other]),
        runs[next].key_at(passed[next]),
    ) {
        return Some(other);
    }
    Some(next)
}

/// How many keys may still begin once a row of this key is taken behind these rows.
fn left_for(rows: &[Row], key: &[u8], left: u32) -> Option<u32>
    ensures { IsLeftBy rows.now key.now left result }
{
    match rows.split_last() {
        Some((last, _)) if is_same(last.key.bytes(), key) => Some(left),
        _ => left.checked_sub(1),
    }
}
