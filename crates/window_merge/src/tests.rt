ghost use Rattle.std.specs.Prelude.{◌≡◌, ◌+◌, ◌≤◌, [], IfOk, None};
ghost use Rattle.row_core.specs.Rows.{AreChanges};
ghost use Rattle.window_merge.specs.Together.{AreAdjacent};

use super::*;
use crate::caller::first_value;
use base_core::Want;
use disk_core::NoDisk;
use fed_bytes::{Key, Span};
use row_core::{Cell, Chunk, Row, Rows};
use std::alloc::Global;
use std::test::Fail;
use window_core::{LiveWindow, Window, WindowFault};

fn all(alloc: Global) -> Result<Span, Want>
    ensures { IfOk result (λ made. made ≡ record { left = []; right = None }) }
{
    let left = Key::of(alloc, b"")?;
    Ok(Span { left, right: None })
}

fn between(alloc: Global, left: &[u8], right: &[u8]) -> Result<Span, Want> {
    let left = Key::of(alloc, left)?;
    let right = Some(Key::of(alloc, right)?);
    Ok(Span { left, right })
}

fn row(alloc: Global, key: &[u8], time: u64, value: &[u8]) -> Result<Row, Want>
    ensures { IfOk result (λ made. made.time ≡ time) }
{
    let key = Key::of(alloc, key)?;
    let cell = Cell::Value(Key::of(alloc, value)?);
    Ok(Row { key, time, cell })
}

fn deleted(alloc: Global, key: &[u8], time: u64) -> Result<Row, Want>
    ensures { IfOk result (λ made. made.time ≡ time) }
{
    let key = Key::of(alloc, key)?;
    Ok(Row {
        key,
        time,
        cell: Cell::Deleted,
    })
}

/// Adds one row at the next time.
fn add(alloc: Global, window: LiveWindow, row: Row) -> Result<LiveWindow, Want>
    requires { row.time ≡ ⟦<LiveWindow as Window>⟧.upto window + 1 }
    ensures span { IfOk result (λ made. ⟦<LiveWindow as Window>⟧.span made ≡ ⟦<LiveWindow as Window>⟧.span window) }
    ensures from { IfOk result (λ made. ⟦<LiveWindow as Window>⟧.from made ≡ ⟦<LiveWindow as Window>⟧.from window) }
    ensures upto { IfOk result (λ made. ⟦<LiveWindow as Window>⟧.upto made ≡ row.time) }
{
    let time = row.time;
    let rows = change(alloc, row)?;
    let mut window = window;
    window.add(alloc, &rows, time)?;
    Ok(window)
}

/// A change of one row.
fn change(alloc: Global, row: Row) -> Result<Rows, Want>
    ensures { IfOk result (AreChanges row.time) }
{
    Ok(Rows::of(vec![in alloc; row]?))
}

/// A window over all keys, of two rows at two times.
fn window(alloc: Global, from: u64, first: Row, second: Row) -> Result<LiveWindow, Want>
    requires first { first.time ≡ from + 1 }
    requires second { second.time ≡ from + 2 }
    ensures span { IfOk result (λ made. ⟦<LiveWindow as Window>⟧.span made ≡ record { left = []; right = None }) }
    ensures from { IfOk result (λ made. ⟦<LiveWindow as Window>⟧.from made ≡ from) }
    ensures upto { IfOk result (λ made. ⟦<LiveWindow as Window>⟧.upto made ≡ from + 2) }
{
    let empty = LiveWindow::make(alloc, all(alloc)?, from)?;
    let window = add(alloc, empty, first)?;
    add(alloc, window, second)
}

/// Three windows up to the time 6: `a` has values at 1 and 3, `b` one at 2 and none from 5 on, `c` one at 4, `d` one at 6.
fn three(alloc: Global) -> Result<Vec<LiveWindow>, Want>
    ensures { IfOk result (λ made. AreAdjacent ⟦<LiveWindow as Window>⟧.span ⟦<LiveWindow as Window>⟧.from ⟦<LiveWindow as Window>⟧.upto (record { left = []; right = None }) 0 made.items 6) }
{
    let first = window(
        alloc,
        0,
        row(alloc, b"a", 1, b"1")?,
        row(alloc, b"b", 2, b"2")?,
    )?;
    let second = window(
        alloc,
        2,
        row(alloc, b"a", 3, b"3")?,
        row(alloc, b"c", 4, b"4")?,
    )?;
    let third = window(
        alloc,
        4,
        deleted(alloc, b"b", 5)?,
        row(alloc, b"d", 6, b"6")?,
    )?;
    Ok(vec![in alloc; first, second, third]?)
}

/// Each row's key and value, and behind them the next key.
fn told(alloc: Global, chunk: &Chunk) -> Result<Vec<u8>, Want> {
    let mut out = Vec::new(alloc);
    'rows: for row in chunk.rows.items() {
        put(row, &mut out)?;
    }
    out.push(b'|')?;
    if let Some(next) = &chunk.next {
        out.extend_from_slice(next.bytes())?;
    }
    Ok(out)
}

fn put(row: &Row, out: &mut Vec<u8>) -> Result<(), Want> {
    out.extend_from_slice(row.key.bytes())?;
    match &row.cell {
        Cell::Value(value) => out.extend_from_slice(value.bytes())?,
        Cell::Deleted => out.push(b'-')?,
    }
    Ok(())
}

/// What the windows have of so many keys from a key on.
fn chunk_at(
    alloc: Global,
    windows: &[LiveWindow],
    key: &[u8],
    most: u32,
) -> Result<Vec<u8>, WindowFault>
    requires adjacent { AreAdjacent ⟦<LiveWindow as Window>⟧.span ⟦<LiveWindow as Window>⟧.from ⟦<LiveWindow as Window>⟧.upto (record { left = []; right = None }) 0 windows.now 6 }
    requires most { 1 ≤ most }
{
    let mut disk = NoDisk::new();
    let chunk = merged_chunk(alloc, windows, &mut disk, key, most)?;
    Ok(told(alloc, &chunk)?)
}

/// The values that so many keys of the span have at a time.
fn values_in(
    alloc: Global,
    windows: &[LiveWindow],
    span: &Span,
    t: u64,
    most: u32,
) -> Result<Vec<u8>, WindowFault>
    requires adjacent { AreAdjacent ⟦<LiveWindow as Window>⟧.span ⟦<LiveWindow as Window>⟧.from ⟦<LiveWindow as Window>⟧.upto (record { left = []; right = None }) 0 windows.now 6 }
    requires most { 1 ≤ most }
{
    let mut disk = NoDisk::new();
    let chunk = values_at(alloc, windows, &mut disk, span, t, most)?;
    Ok(told(alloc, &chunk)?)
}

/// The value of the first key with one, of so many.
fn first_of(
    alloc: Global,
    windows: &[LiveWindow],
    span: &Span,
    t: u64,
    most: u32,
) -> Result<Vec<u8>, WindowFault>
    requires adjacent { AreAdjacent ⟦<LiveWindow as Window>⟧.span ⟦<LiveWindow as Window>⟧.from ⟦<LiveWindow as Window>⟧.upto (record { left = []; right = None }) 0 windows.now 6 }
    requires most { 1 ≤ most }
{
    let mut disk = NoDisk::new();
    let mut out = Vec::new(alloc);
    if let Some(row) = first_value(alloc, windows, &mut disk, span, t, most)? {
        put(&row, &mut out)?;
    }
    Ok(out)
}

#[test]
fn rows_of_newer_windows_stand_first(rt: HostRuntime) -> Result<(), Fail> {
    let windows = three(rt.alloc())?;
    let first = chunk_at(rt.alloc(), &windows, b"", 2)?;
    assert_eq!(rt; first.as_slice(), b"a3a1b-b2|c".as_slice());
    let rest = chunk_at(rt.alloc(), &windows, b"b", 5)?;
    assert_eq!(rt; rest.as_slice(), b"b-b2c4d6|".as_slice());
    let none = chunk_at(rt.alloc(), &windows, b"e", 1)?;
    assert_eq!(rt; none.as_slice(), b"|".as_slice());
    Ok(())
}

#[test]
fn the_ends_of_a_span_bound_its_values(rt: HostRuntime) -> Result<(), Fail> {
    let windows = three(rt.alloc())?;
    let inner = between(rt.alloc(), b"b", b"c")?;
    let one = values_in(rt.alloc(), &windows, &inner, 4, 1)?;
    assert_eq!(rt; one.as_slice(), b"b2|".as_slice());
    let wider = between(rt.alloc(), b"b", b"d")?;
    let two = values_in(rt.alloc(), &windows, &wider, 4, 1)?;
    assert_eq!(rt; two.as_slice(), b"b2|c".as_slice());
    let turned = between(rt.alloc(), b"d", b"a")?;
    let none = values_in(rt.alloc(), &windows, &turned, 6, 3)?;
    assert_eq!(rt; none.as_slice(), b"|".as_slice());
    Ok(())
}

#[test]
fn the_first_value_is_found(rt: HostRuntime) -> Result<(), Fail> {
    let windows = three(rt.alloc())?;
    let span = between(rt.alloc(), b"b", b"e")?;
    let early = first_of(rt.alloc(), &windows, &span, 4, 2)?;
    assert_eq!(rt; early.as_slice(), b"b2".as_slice());
    let late = first_of(rt.alloc(), &windows, &span, 6, 2)?;
    assert_eq!(rt; late.as_slice(), b"c4".as_slice());
    Ok(())
}
