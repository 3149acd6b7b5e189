//! The ids of the keys of a span that have a value.
ghost use Rattle.std.specs.Prelude.{◌≡◌, ◌↔◌, ◌≤◌, ◌⊎◌, Some, IfOk, OnOk, IsTrue};
ghost use Rattle.base_core.specs.Lists.{Has, AreDistinct};
ghost use Rattle.triple_keys.specs.declared.key.Ids.{Ids as TheIds};
ghost use Rattle.row_core.specs.Rows.{StandInOrder, IsChunk};
ghost use Rattle.window_core.specs.Windows.{IsOnward};
ghost use Rattle.change_model.specs.Laws.{IsValue};
ghost use Rattle.bigfed.specs.Indexed.{rows_in, IsShownIn};
ghost use Rattle.bigfed.specs.Shown.{IsKept, SpanGoesOn, firsts};

use base_core::Want;
use disk_core::NoDisk;
use fed_bytes::{Key, Span};
use row_core::{Cell, Chunk, Row, Rows};
use std::alloc::Global;
use triple_keys::{Ids, Order, ids_of};
use window_core::{LiveWindow, Window};

/// How many keys are read first. Each further read is of twice as many, so that little is read behind a short span.
const FIRST_KEYS: u32 = 8;

/// How many keys are read at once at the most.
const MOST_KEYS: u32 = 512;

/// The ids of the keys of a span that have a value, each once. Takes the logarithm of the window, and the rows of the span.
pub fn shown_ids(
    alloc: Global,
    order: Order,
    window: &LiveWindow,
    span: &Span,
) -> Result<Vec<Ids>, Want>
    ensures shown { IfOk result (λ found. (ids : TheIds) → Has found.items ids ↔ IsShownIn (rows_in window.now) order span.now ids) }
    ensures distinct { IfOk result (λ found. AreDistinct found.items) }
{
    let mut found = Vec::new(alloc);
    let mut next = Some(span.left.copy(alloc)?);
    let mut most = FIRST_KEYS;
    'chunks: while let Some(key) = next {
        let chunk = chunk_from(alloc, window, key.bytes(), most)?;
        keep_shown(order, span, chunk.rows, &mut found)?;
        next = in_span(span, chunk.next);
        most = wider(most);
    }
    Ok(found)
}

/// How many keys are read after a read of so many.
fn wider(most: u32) -> u32
    requires { 1 ≤ most }
    ensures { 1 ≤ result }
{
    if most < MOST_KEYS {
        most.saturating_mul(2)
    } else {
        most
    }
}

/// All rows of the first `most` keys from this one on.
fn chunk_from(alloc: Global, window: &LiveWindow, key: &[u8], most: u32) -> Result<Chunk, Want>
    requires { 1 ≤ most }
    ensures chunk { IfOk result (IsChunk (rows_in window.now) key.now most) }
    ensures onward { IfOk result (λ chunk. IsOnward key.now chunk.next) }
{
    match window.chunk(alloc, &mut NoDisk::new(), key, most) {
        Ok(chunk) => Ok(chunk),
        // A window in memory answers nothing else.
        Err(_) => Err(Want::NoMemory),
    }
}

/// The key, if it is in the span.
fn in_span(span: &Span, key: Option<Key>) -> Option<Key>
    ensures { SpanGoesOn span.now key result }
{
    match key {
        None => None,
        Some(key) => {
            if span.contains(key.bytes()) {
                Some(key)
            } else {
                None
            }
        }
    }
}

/// Puts the ids of the keys behind those that were found, where the newest row is a value.
fn keep_shown(order: Order, span: &Span, rows: Rows, found: &mut Vec<Ids>) -> Result<(), Want>
    requires { StandInOrder rows }
    ensures shown { OnOk result ((ids : TheIds) → Has found.new.items ids ↔ (Has found.old.items ids ⊎ IsShownIn rows order span.now ids)) }
    ensures distinct { OnOk result (AreDistinct found.old.items
        → ((ids : TheIds) → Has found.old.items ids → ¬ IsShownIn rows order span.now ids) → AreDistinct found.new.items) }
{
    let newest = newest_of(rows);
    'rows: for row in newest.items() {
        keep(order, span, row, found)?;
    }
    Ok(())
}

/// Of each key the first row, which is the newest.
fn newest_of(rows: Rows) -> Rows
    ensures { result ≡ firsts rows }
{
    let mut rows = rows.into_items();
    rows.dedup_by(|row, before| row.key == before.key);
    Rows::of(rows)
}

/// Puts the ids of the row's key behind those that were found, where the row is a value in the span.
fn keep(order: Order, span: &Span, row: &Row, found: &mut Vec<Ids>) -> Result<(), Want>
    ensures kept { OnOk result ((ids : TheIds) → Has found.new.items ids ↔ (Has found.old.items ids ⊎ IsKept order span.now row.now ids)) }
    ensures distinct { OnOk result (AreDistinct found.old.items
        → ((ids : TheIds) → Has found.old.items ids → ¬ IsKept order span.now row.now ids) → AreDistinct found.new.items) }
{
    if !is_value(row) {
        return Ok(());
    }
    if !span.contains(row.key.bytes()) {
        return Ok(());
    }
    let Some(ids) = ids_of(order, row.key.bytes()) else {
        return Ok(());
    };
    found.push(ids)?;
    Ok(())
}

fn is_value(row: &Row) -> bool
    ensures { IsTrue result ↔ IsValue (Some row.now) }
{
    match row.cell {
        Cell::Value(_) => true,
        Cell::Deleted => false,
    }
}
