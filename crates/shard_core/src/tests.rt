ghost use Rattle.std.specs.Prelude.{◌≡◌, ◌+◌, ◌≤◌, ℕ, IfOk};
ghost use Rattle.row_core.specs.declared.rows.Index.TheVariants.{Spo};
ghost use Rattle.row_core.specs.Rows.{AreChanges};
ghost use Rattle.shard_core.specs.Shards.{HaveFloorsUpTo};

use super::*;
use base_core::Want;
use change_model::Entry;
use disk_core::NoDisk;
use fed_bytes::{Key, Span};
use row_core::{Cell, Chunk, Index, Row, Rows};
use std::alloc::Global;
use std::test::Fail;

fn span(alloc: Global, left: &[u8], right: &[u8]) -> Result<Span, Want> {
    let left = Key::of(alloc, left)?;
    let right = Some(Key::of(alloc, right)?);
    Ok(Span { left, right })
}

fn row(alloc: Global, key: &[u8], time: u64, cell: Cell) -> Result<Row, Want>
    ensures { IfOk result (λ made. made.time ≡ time) }
{
    let key = Key::of(alloc, key)?;
    Ok(Row { key, time, cell })
}

/// An entry of one row in the index of statements by subject.
fn entry(alloc: Global, row: Row) -> Result<Entry, Want>
    ensures time { IfOk result (λ made. made.time ≡ row.time) }
    ensures rows { IfOk result (λ made. AreChanges row.time made.spo) }
{
    Ok(Entry {
        time: row.time,
        terms: 0,
        t2i: Rows::of(Vec::new(alloc)),
        i2t: Rows::of(Vec::new(alloc)),
        spo: Rows::of(vec![in alloc; row]?),
        pos: Rows::of(Vec::new(alloc)),
        osp: Rows::of(Vec::new(alloc)),
    })
}

/// The shard with the row of the next time.
fn applied(alloc: Global, shard: Shard, row: Row) -> Result<Shard, Want>
    requires index { shard.index ≡ Spo }
    requires next { row.time ≡ shard.upto + 1 }
    ensures index { IfOk result (λ made. made.index ≡ Spo) }
    ensures upto { IfOk result (λ made. made.upto ≡ row.time) }
    ensures floors { (floor : ℕ) → HaveFloorsUpTo floor shard → IfOk result (HaveFloorsUpTo floor) }
{
    let entry = entry(alloc, row)?;
    let mut shard = shard;
    shard.apply(alloc, &entry)?;
    Ok(shard)
}

/// From `b` up to `d`, at the time 3: `b` has a value at 1 and none from 3 on, `c` has one at 2.
fn filled(alloc: Global) -> Result<Shard, Want>
    ensures upto { IfOk result (λ made. made.upto ≡ 3) }
    ensures floors { (floor : ℕ) → IfOk result (HaveFloorsUpTo floor) }
{
    let shard = Shard::fresh(alloc, Index::Spo, span(alloc, b"b", b"d")?)?;
    let value = Cell::Value(Key::of(alloc, b"1")?);
    let shard = applied(alloc, shard, row(alloc, b"b", 1, value)?)?;
    let value = Cell::Value(Key::of(alloc, b"2")?);
    let shard = applied(alloc, shard, row(alloc, b"c", 2, value)?)?;
    applied(alloc, shard, row(alloc, b"b", 3, Cell::Deleted)?)
}

/// What the shard has of so many keys of a span at a time: each row's key, and behind them the next key.
fn told(alloc: Global, shard: &Shard, span: &Span, t: u64, most: u32) -> Result<Vec<u8>, ShardFault>
    requires floors { (floor : ℕ) → HaveFloorsUpTo floor shard.now }
    requires most { 1 ≤ most }
{
    let mut disk = NoDisk::new();
    let chunk = shard.read(alloc, &mut disk, span, t, most)?;
    match keys_of(alloc, &chunk) {
        Ok(keys) => Ok(keys),
        Err(_) => Err(ShardFault::Window(window_core::WindowFault::NoMemory)),
    }
}

fn keys_of(alloc: Global, chunk: &Chunk) -> Result<Vec<u8>, Want> {
    let mut out = Vec::new(alloc);
    'rows: for row in chunk.rows.items() {
        out.extend_from_slice(row.key.bytes())?;
    }
    out.push(b'|')?;
    if let Some(next) = &chunk.next {
        out.extend_from_slice(next.bytes())?;
    }
    Ok(out)
}

/// Whether the shard shows these keys.
fn shows(shard: &Shard, alloc: Global, span: &Span, t: u64, most: u32, keys: &[u8]) -> bool
    requires floors { (floor : ℕ) → HaveFloorsUpTo floor shard.now }
    requires most { 1 ≤ most }
{
    match told(alloc, shard, span, t, most) {
        Ok(found) => found.as_slice() == keys,
        Err(_) => false,
    }
}

#[test]
fn a_shard_shows_the_values_of_a_time(rt: HostRuntime) -> Result<(), Fail> {
    let shard = filled(rt.alloc())?;
    let wide = span(rt.alloc(), b"a", b"z")?;
    assert!(rt; shows(&shard, rt.alloc(), &wide, 2, 1, b"b|c"));
    assert!(rt; shows(&shard, rt.alloc(), &wide, 3, 9, b"c|"));
    assert!(rt; shows(&shard, rt.alloc(), &wide, 0, 1, b"|c"));
    let inner = span(rt.alloc(), b"b", b"c")?;
    assert!(rt; shows(&shard, rt.alloc(), &inner, 2, 1, b"b|"));
    Ok(())
}
