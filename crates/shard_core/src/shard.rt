//! A shard.
ghost use Rattle.std.specs.Prelude.{◌≡◌, ◌↔◌, ◌+◌, ◌<◌, ◌≤◌, ◌∷◌, [], ℕ, length, map, take, false, IfOk, IfErr, OnOk, OnErr, Err};
ghost use Rattle.row_core.specs.Rows.{AreChanges, StandInOrder};
ghost use Rattle.window_core.specs.Windows.{IsPart, IsPassage};
ghost use Rattle.window_merge.specs.Values.{AreValuesAt, AreAskedFor};
ghost use Rattle.change_model.specs.History.{History};
ghost use Rattle.change_model.specs.Laws.{IsWritable};
ghost use Rattle.change_model.specs.Entries.{rows_for};
ghost use Rattle.change_model.specs.WindowLaws.{AreGivenAt, IsNextWindow};
ghost use Rattle.shard_core.specs.declared.fault.ShardFault.TheVariants.{Behind};
ghost use Rattle.shard_core.specs.Shards.{ShardStandsFor, IsNextShard, HaveNextLast, HaveFloorsUpTo, no_rows_yet};
ghost use Rattle.shard_core.specs.Viewing.{data_of, live_data, EndBefore, IsPartIn};
ghost use Rattle.shard_core.specs.Reading.{AreLastValues, IsNoShardDamage, IsShardCounted, shard_rows};

use crate::fault::ShardFault;
use crate::line::ShardLine;
use crate::window::AnyWindow;
use base_core::Want;
use change_model::Entry;
use disk_core::Disk;
use fed_bytes::Span;
use row_core::{Chunk, Index, Row, Rows};
use std::alloc::Global;
use std::marker::Model;
use window_core::{LiveWindow, Window};
use window_merge::{count_before, count_before_end, values_at};

/// The rows of one index whose keys are in one span, up to a time: windows behind each other, the oldest first, of which
/// the last is being filled.
#[derive(Drop)]
pub struct Shard {
    index: Index,
    span: Span,
    upto: u64,
    windows: Vec<AnyWindow>,
}

impl Model for Shard {
    ghost use Rattle.std.specs.Prelude.{map};
    ghost use Rattle.shard_core.specs.Shards.{ShardData, IsShard};
    ghost use Rattle.shard_core.specs.Viewing.{data_of};

    ghost Value = { ShardData };

    ghost view = { λ shard. record { index = shard.index; span = shard.span; upto = shard.upto; windows = map data_of shard.windows.items } };

    ghost invariant = { λ shard. IsShard (record { index = shard.index; span = shard.span; upto = shard.upto; windows = map data_of shard.windows.items }) };
}

impl Shard {
    /// A shard without rows, at the time 0.
    pub fn fresh(alloc: Global, index: Index, span: Span) -> Result<Shard, Want>
        ensures index { IfOk result (λ made. made.index ≡ index) }
        ensures span { IfOk result (λ made. made.span ≡ span) }
        ensures upto { IfOk result (λ made. made.upto ≡ 0) }
        ensures windows { IfOk result (λ made. made.windows ≡ no_rows_yet span ∷ []) }
        ensures floors { (floor : ℕ) → IfOk result (HaveFloorsUpTo floor) }
        ensures stands { (history : History) (floor : ℕ) → IfOk result (ShardStandsFor history floor) }
    {
        let live = LiveWindow::make(alloc, copy_span(alloc, &span)?, 0)?;
        Ok(Shard {
            index,
            span,
            upto: 0,
            windows: vec![in alloc; AnyWindow::Live(live)]?,
        })
    }

    pub fn index(&self) -> Index
        ensures { result ≡ self.now.index }
    {
        self.index
    }

    pub fn span(&self) -> &Span
        ensures { result.now ≡ self.now.span }
    {
        &self.span
    }

    /// The time up to which it has the rows of its index.
    pub fn upto(&self) -> u64
        ensures { result ≡ self.now.upto }
    {
        self.upto
    }

    /// What a summary tells of it under this number.
    pub fn line(&self, number: u32) -> ShardLine
        ensures number { result.number ≡ number }
        ensures index { result.index ≡ self.now.index }
        ensures upto { result.upto ≡ self.now.upto }
        ensures frozen { result.frozen ≡ 0 }
        ensures built { result.built ≡ 0 }
        ensures keys { result.keys ≡ 0 }
        ensures held { result.held ≡ false }
    {
        ShardLine {
            number,
            index: self.index,
            upto: self.upto,
            frozen: 0,
            built: 0,
            keys: 0,
            held: false,
        }
    }

    /// Takes the entry's rows of its index whose keys are in its span, and goes on to the entry's time. After an `Err` it
    /// is as it was.
    pub fn apply(&mut self, alloc: Global, entry: &Entry) -> Result<(), Want>
        requires next { entry.now.time ≡ self.old.upto + 1 }
        requires changes { AreChanges entry.now.time (rows_for self.old.index entry.now) }
        ensures next { OnOk result (IsNextShard (rows_for self.old.index entry.now) self.old self.new) }
        ensures stands { (history : History) (floor : ℕ) → ShardStandsFor history floor self.old → entry.now.time ≤ length history
            → AreGivenAt self.old.index history self.old.span entry.now.time (rows_for self.old.index entry.now) → OnOk result (ShardStandsFor history floor self.new) }
        ensures floors { (floor : ℕ) → HaveFloorsUpTo floor self.old → HaveFloorsUpTo floor self.new }
        ensures err { OnErr result (self.new ≡ self.old) }
    {
        let rows = rows_of(entry, self.index);
        extend(alloc, &mut self.windows, rows, entry.time)?;
        self.upto = entry.time;
        Ok(())
    }

    /// Of the first `most` keys in both spans, the last row at or before a time where it is a value, and the key behind
    /// them. It is behind exactly where it hasn't reached the time.
    pub fn read<D: Disk>(
        &self,
        alloc: Global,
        disk: &mut D,
        span: &Span,
        t: u64,
        most: u32,
    ) -> Result<Chunk, ShardFault>
        requires floors { HaveFloorsUpTo t self.now }
        requires most { 1 ≤ most }
        ensures behind { (upto : ℕ) → ((result ≡ Err (Behind upto)) ↔ ((upto ≡ self.now.upto) × (self.now.upto < t))) }
        // Of the history up to the time it is enough to know that it may be written.
        ensures values { (history : History) (floor : ℕ) → ShardStandsFor history floor self.now → IsWritable (take t history)
            → IfOk result (AreLastValues (take t history) self.now span.now t) }
        ensures rows { IfOk result (AreValuesAt (shard_rows self.now) span.now t most) }
        ensures part { IfOk result (IsPart self.now.span 0 self.now.upto span.now.left) }
        ensures passage { IfOk result (IsPassage self.now.span span.now.left most) }
        ensures asked { IfOk result (AreAskedFor span.now t) }
        ensures whole { IfErr result IsNoShardDamage }
        ensures same { D.told disk.new ≡ D.told disk.old }
        ensures counted { IsShardCounted (D.fault_count disk.old) (D.fault_count disk.new) result }
    {
        if self.upto < t {
            return Err(ShardFault::Behind { upto: self.upto });
        }
        let windows = self.windows.as_slice();
        Ok(values_at(alloc, windows, disk, span, t, most)?)
    }
}

fn copy_span(alloc: Global, span: &Span) -> Result<Span, Want>
    ensures { IfOk result (λ made. made ≡ span.now) }
{
    let left = span.left.copy(alloc)?;
    let right = match &span.right {
        Some(right) => Some(right.copy(alloc)?),
        None => None,
    };
    Ok(Span { left, right })
}

/// The entry's rows of an index.
fn rows_of(entry: &Entry, index: Index) -> &Rows
    ensures { result.now ≡ rows_for index entry.now }
{
    match index {
        Index::T2i => &entry.t2i,
        Index::I2t => &entry.i2t,
        Index::Spo => &entry.spo,
        Index::Pos => &entry.pos,
        Index::Osp => &entry.osp,
    }
}

/// Adds the rows of the next time to the last window. After an `Err` all is as it was.
fn extend(alloc: Global, windows: &mut Vec<AnyWindow>, rows: &Rows, time: u64) -> Result<(), Want>
    requires next { EndBefore time windows.old.items }
    requires changes { AreChanges time rows.now }
    ensures ok { OnOk result (HaveNextLast rows.now (map data_of windows.old.items) (map data_of windows.new.items)) }
    ensures err { OnErr result (map data_of windows.new.items ≡ map data_of windows.old.items) }
{
    match windows.last_mut() {
        Some(last) => extend_last(alloc, last, rows, time),
        None => Err(Want::NoMemory),
    }
}

/// Adds the rows of the next time to the window, which is being filled. After an `Err` it is as it was.
fn extend_last(alloc: Global, last: &mut AnyWindow, rows: &Rows, time: u64) -> Result<(), Want>
    requires next { time ≡ ⟦<AnyWindow as Window>⟧.upto last.old + 1 }
    requires changes { AreChanges time rows.now }
    ensures ok { OnOk result (IsNextWindow (data_of last.old) rows.now (data_of last.new)) }
    ensures err { OnErr result (data_of last.new ≡ data_of last.old) }
{
    match last {
        AnyWindow::Live(live) => add_part(alloc, live, rows, time),
    }
}

/// Adds the rows of the next time whose keys are in the window's span. The window is handed no others.
fn add_part(alloc: Global, live: &mut LiveWindow, rows: &Rows, time: u64) -> Result<(), Want>
    requires next { time ≡ ⟦<LiveWindow as Window>⟧.upto live.old + 1 }
    requires changes { AreChanges time rows.now }
    ensures ok { OnOk result (IsNextWindow (live_data live.old) rows.now (live_data live.new)) }
    ensures err { OnErr result (live_data live.new ≡ live_data live.old) }
{
    let part = part_in(alloc, rows.items(), live.span())?;
    live.add(alloc, &part, time)
}

/// A copy of the rows, which stand in order, whose keys are in the span.
fn part_in(alloc: Global, rows: &[Row], span: &Span) -> Result<Rows, Want>
    requires { StandInOrder rows.now }
    ensures { IfOk result (IsPartIn span.now rows.now) }
{
    let first = count_before(rows, span.left.bytes());
    let end = count_before_end(rows, &span.right).max(first);
    copied(alloc, &rows[first..end])
}

fn copied(alloc: Global, rows: &[Row]) -> Result<Rows, Want>
    ensures { IfOk result (λ made. made ≡ rows.now) }
{
    let mut made = Vec::with_capacity(alloc, rows.len())?;
    'rows: for row in rows {
        made.push(row.copy(alloc)?)?;
    }
    Ok(Rows::of(made))
}
