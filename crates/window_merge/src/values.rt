//! The values that keys have at a time, by adjacent windows.
ghost use Rattle.std.specs.Prelude.{◌≡◌, ℕ, ◌≤◌, IfOk, IfErr};
ghost use Rattle.std.specs.List.{AllByRecursion};
ghost use Rattle.fed_bytes.specs.declared.span.Span.{Span as AnySpan};
ghost use Rattle.window_core.specs.Windows.{IsCountedBy, IsNoDamage, IsCause, IsPart, IsPassage};
ghost use Rattle.window_merge.specs.Together.{AreAdjacent, AreKeptByOne, IsOfOne, rows_of_all};
ghost use Rattle.window_merge.specs.Choosing.{values_of, is_asked_at, is_value_row, IsKeyIn};
ghost use Rattle.window_merge.specs.Values.{AreValuesAt, AreAskedFor};

use crate::chunk::merged_chunk;
use disk_core::Disk;
use fed_bytes::{Key, Span};
use row_core::{Cell, Chunk, Row, Rows};
use std::alloc::Global;
use window_core::{Window, WindowFault};

/// Of the first `most` keys in a span, the newest row at or before a time where it is a value, and the key behind them.
pub fn values_at<W: Window, D: Disk>(
    alloc: Global,
    windows: &[W],
    disk: &mut D,
    span: &Span,
    t: u64,
    most: u32,
) -> Result<Chunk, WindowFault>
    requires adjacent { (all : AnySpan) × (from : ℕ) × (upto : ℕ) × AreAdjacent W.span W.from W.upto all from windows.now upto }
    requires most { 1 ≤ most }
    ensures values { AllByRecursion (λ window. W.stands window (D.told disk.old)) windows.now → IfOk result (AreValuesAt (rows_of_all W.rows windows.now) span.now t most) }
    ensures part { (all : AnySpan) (from upto : ℕ) → AreAdjacent W.span W.from W.upto all from windows.now upto → IfOk result (IsPart all from upto span.now.left) }
    ensures passage { (all : AnySpan) (from upto : ℕ) → AreAdjacent W.span W.from W.upto all from windows.now upto → IfOk result (IsPassage all span.now.left most) }
    ensures asked { IfOk result (AreAskedFor span.now t) }
    ensures kept { IfOk result (λ chunk. AreKeptByOne W.span W.from W.upto (λ window. W.kept window (D.told disk.old)) windows.now chunk.rows) }
    ensures whole { AllByRecursion (λ window. W.stands window (D.told disk.old)) windows.now → IfErr result IsNoDamage }
    ensures cause { IfErr result (IsCause (λ block. IsOfOne (λ window. W.bad_rows window (D.told disk.old) block) windows.now)) }
    ensures same { D.told disk.new ≡ D.told disk.old }
    ensures counted { IsCountedBy (D.fault_count disk.old) (D.fault_count disk.new) result }
{
    let Chunk { rows, next } = merged_chunk(alloc, windows, disk, span.left.bytes(), most)?;
    Ok(Chunk {
        rows: Rows::of(values_of(rows.into_items(), span, t)),
        next: key_in(next, span),
    })
}

/// Of rows in order the newest of each key at or before a time, where it is a value of a key in the span.
fn values_of(rows: Vec<Row>, span: &Span, t: u64) -> Vec<Row>
    ensures { result.items ≡ values_of span.now t rows.items }
{
    let mut rows = rows;
    rows.retain(|row| is_asked(row, span, t));
    rows.dedup_by(|row, before| row.key == before.key);
    rows.retain(|row| is_value(row));
    rows
}

/// Whether the row is of a key in the span, at or before the time.
fn is_asked(row: &Row, span: &Span, t: u64) -> bool
    ensures { result ≡ is_asked_at span.now t row.now }
{
    row.time <= t && span.contains(row.key.bytes())
}

fn is_value(row: &Row) -> bool
    ensures { result ≡ is_value_row row.now }
{
    match &row.cell {
        Cell::Value(_) => true,
        Cell::Deleted => false,
    }
}

/// The key, if it is in the span.
fn key_in(key: Option<Key>, span: &Span) -> Option<Key>
    ensures { IsKeyIn span.now key result }
{
    match key {
        Some(key) if span.contains(key.bytes()) => Some(key),
        _ => None,
    }
}
