ghost use Rattle.std.specs.Prelude.{◌≡◌, IfOk, None};
ghost use Rattle.row_core.specs.Rows.{AreChanges};

use super::*;
use crate::caller::first_at;
use base_core::Want;
use disk_core::{Disk, NoDisk};
use fed_bytes::{Key, Span};
use row_core::{Cell, Row, Rows};
use std::alloc::Global;
use std::test::Fail;

fn span_from(alloc: Global, left: &[u8]) -> Result<Span, Want>
    ensures { IfOk result (λ made. (made.left ≡ left.now) × (made.right ≡ None)) }
{
    let left = Key::of(alloc, left)?;
    Ok(Span { left, right: None })
}

fn row(alloc: Global, key: &[u8], time: u64, value: &[u8]) -> Result<Row, Want>
    ensures { IfOk result (λ made. (made.key ≡ key.now) × (made.time ≡ time)) }
{
    let key = Key::of(alloc, key)?;
    let value = Key::of(alloc, value)?;
    Ok(Row {
        key,
        time,
        cell: Cell::Value(value),
    })
}

/// A change of one row.
fn change(alloc: Global, row: Row) -> Result<Rows, Want>
    ensures { IfOk result (AreChanges row.time) }
{
    Ok(Rows::of(vec![in alloc; row]?))
}

/// A window over the keys from this one on, with no rows.
fn window_from(alloc: Global, left: &[u8]) -> Result<LiveWindow, Want> {
    LiveWindow::make(alloc, span_from(alloc, left)?, 0)
}

/// Adds a row of the next time. One of another time isn't added.
fn add(alloc: Global, live: &mut LiveWindow, row: Row) -> Result<(), Want> {
    let time = row.time;
    if live.upto().checked_add(1) != Some(time) {
        return Ok(());
    }
    live.add(alloc, &change(alloc, row)?, time)
}

fn put(
    alloc: Global,
    live: &mut LiveWindow,
    key: &[u8],
    time: u64,
    value: &[u8],
) -> Result<(), Want> {
    add(alloc, live, row(alloc, key, time, value)?)
}

/// How many rows the first so many keys from this one on have, if the next key is this one.
fn rows_before(
    alloc: Global,
    live: &LiveWindow,
    key: &[u8],
    most: u32,
    next: Option<Key>,
) -> Result<Option<usize>, WindowFault> {
    if most == 0 {
        return Ok(None);
    }
    let chunk = live.chunk(alloc, &mut NoDisk::new(), key, most)?;
    if chunk.next != next {
        return Ok(None);
    }
    Ok(Some(chunk.rows.items().len()))
}

#[test]
fn a_chunk_has_whole_keys_and_names_the_next(rt: HostRuntime) -> Result<(), Fail> {
    let alloc = rt.alloc();
    let mut live = window_from(alloc, b"a")?;
    put(alloc, &mut live, b"b", 1, b"x")?;
    put(alloc, &mut live, b"c", 2, b"y")?;
    put(alloc, &mut live, b"b", 3, b"z")?;
    let next = Some(Key::of(alloc, b"c")?);
    assert_eq!(rt; rows_before(alloc, &live, b"a", 1, next)?, Some(2));
    assert_eq!(rt; rows_before(alloc, &live, b"a", 2, None)?, Some(3));
    Ok(())
}

#[test]
fn a_frozen_window_is_shared(rt: HostRuntime) -> Result<(), Fail> {
    let alloc = rt.alloc();
    let mut disk = NoDisk::new();
    let mut live = LiveWindow::make(alloc, span_from(alloc, b"a")?, 0)?;
    live.add(alloc, &change(alloc, row(alloc, b"b", 1, b"x")?)?, 1)?;
    let frozen = live.freeze();
    let shared = frozen.share(alloc)?;
    drop(frozen);
    assert_eq!(rt; shared.upto(), 1);
    let found = first_at(&shared, alloc, &mut disk, b"a", 1)?;
    assert!(rt; found == Some(row(alloc, b"b", 1, b"x")?));
    assert!(rt; first_at(&shared, alloc, &mut disk, b"c", 1)?.is_none());
    assert_eq!(rt; disk.faults(), 0);
    Ok(())
}

#[test]
fn a_frozen_window_is_made_of_rows(rt: HostRuntime) -> Result<(), Fail> {
    let alloc = rt.alloc();
    let mut disk = NoDisk::new();
    let rows = Rows::of(vec![in alloc; row(alloc, b"b", 7, b"x")?]?);
    let frozen = FrozenWindow::of_rows(alloc, span_from(alloc, b"a")?, 6, 9, 3, rows)?;
    assert_eq!(rt; frozen.from(), 6);
    assert_eq!(rt; frozen.upto(), 9);
    assert_eq!(rt; frozen.floor(), 3);
    let chunk = frozen.chunk(alloc, &mut disk, b"", 5)?;
    assert_eq!(rt; chunk.rows.items().len(), 1);
    assert!(rt; chunk.next.is_none());
    Ok(())
}
