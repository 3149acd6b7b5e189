//! The chunk of adjacent windows.
ghost use Rattle.std.specs.Prelude.{◌≡◌, ℕ, ◌≤◌, IfOk, IfErr};
ghost use Rattle.std.specs.List.{AllByRecursion};
ghost use Rattle.fed_bytes.specs.declared.span.Span.{Span as AnySpan};
ghost use Rattle.row_core.specs.Rows.{IsChunk, StandInOrder};
ghost use Rattle.window_core.specs.Windows.{IsCountedBy, IsNoDamage, IsCause, IsPart, IsPassage};
ghost use Rattle.window_merge.specs.Merging.{AreEarlier, IsJoin};
ghost use Rattle.window_merge.specs.Together.{AreAdjacent, AreKeptByOne, IsOfOne, rows_of_all};

use crate::cut::{cut, earlier_end};
use crate::merge::merge;
use base_core::Want;
use disk_core::Disk;
use row_core::{Chunk, Rows};
use std::alloc::Global;
use window_core::{Window, WindowFault};

/// All rows that the windows have of the first `most` keys from a key on, and the key behind them. Of one key the rows of
/// newer windows stand first. Each window is read once.
pub fn merged_chunk<W: Window, D: Disk>(
    alloc: Global,
    windows: &[W],
    disk: &mut D,
    key: &[u8],
    most: u32,
) -> Result<Chunk, WindowFault>
    requires adjacent { (span : AnySpan) × (from : ℕ) × (upto : ℕ) × AreAdjacent W.span W.from W.upto span from windows.now upto }
    requires most { 1 ≤ most }
    ensures chunk { AllByRecursion (λ window. W.stands window (D.told disk.old)) windows.now → IfOk result (IsChunk (rows_of_all W.rows windows.now) key.now most) }
    ensures part { (span : AnySpan) (from upto : ℕ) → AreAdjacent W.span W.from W.upto span from windows.now upto → IfOk result (IsPart span from upto key.now) }
    ensures passage { (span : AnySpan) (from upto : ℕ) → AreAdjacent W.span W.from W.upto span from windows.now upto → IfOk result (IsPassage span key.now most) }
    ensures kept { IfOk result (λ chunk. AreKeptByOne W.span W.from W.upto (λ window. W.kept window (D.told disk.old)) windows.now chunk.rows) }
    ensures whole { AllByRecursion (λ window. W.stands window (D.told disk.old)) windows.now → IfErr result IsNoDamage }
    ensures cause { IfErr result (IsCause (λ block. IsOfOne (λ window. W.bad_rows window (D.told disk.old) block) windows.now)) }
    ensures same { D.told disk.new ≡ D.told disk.old }
    ensures counted { IsCountedBy (D.fault_count disk.old) (D.fault_count disk.new) result }
{
    let mut merged = Chunk {
        rows: Rows::of(Vec::new(alloc)),
        next: None,
    };
    'windows: for window in windows {
        let chunk = window.chunk(alloc, disk, key, most)?;
        merged = join(alloc, merged, chunk, most)?;
    }
    Ok(merged)
}

/// The chunk of two adjacent windows, by the chunks of both.
fn join(alloc: Global, older: Chunk, newer: Chunk, most: u32) -> Result<Chunk, Want>
    requires older { StandInOrder older.rows }
    requires newer { StandInOrder newer.rows }
    requires times { AreEarlier older.rows newer.rows }
    ensures { IfOk result (IsJoin older newer most) }
{
    let end = earlier_end(older.next, newer.next);
    let rows = merge(alloc, older.rows.into_items(), newer.rows.into_items())?;
    cut(alloc, rows, end, most)
}
