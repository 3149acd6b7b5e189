// A caller of merged windows, as the crate's page shows it. It is proved with the tests.
ghost use Rattle.std.specs.Prelude.{◌≡◌, ℕ, ◌≤◌, IfOk, IfSome};
ghost use Rattle.std.specs.List.{AllByRecursion};
ghost use Rattle.fed_bytes.specs.declared.span.Span.{Span as AnySpan};
ghost use Rattle.window_merge.specs.Together.{AreAdjacent, rows_of_all};
ghost use Rattle.window_merge.specs.Values.{IsValueAt};

use crate::values_at;
use disk_core::Disk;
use fed_bytes::Span;
use row_core::Row;
use std::alloc::Global;
use window_core::{Window, WindowFault};

/// The value of the first key in a span that has one at a time, if one of its first `most` keys has.
pub fn first_value<W: Window, D: Disk>(
    alloc: Global,
    windows: &[W],
    disk: &mut D,
    span: &Span,
    t: u64,
    most: u32,
) -> Result<Option<Row>, WindowFault>
    requires adjacent { (all : AnySpan) × (from : ℕ) × (upto : ℕ) × AreAdjacent W.span W.from W.upto all from windows.now upto }
    requires most { 1 ≤ most }
    ensures value { AllByRecursion (λ window. W.stands window (D.told disk.old)) windows.now → IfOk result (λ found. IfSome found (IsValueAt (rows_of_all W.rows windows.now) t)) }
    ensures same { D.told disk.new ≡ D.told disk.old }
{
    let chunk = values_at(alloc, windows, disk, span, t, most)?;
    match chunk.rows.items().first() {
        Some(row) => Ok(Some(row.copy(alloc)?)),
        None => Ok(None),
    }
}
