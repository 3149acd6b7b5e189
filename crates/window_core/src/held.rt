//! What a window in memory holds: runs of rows, and the bounds of what may stand in them.
ghost use Rattle.std.specs.Prelude.{◌≡◌, ◌↔◌, ◌+◌, ◌≤◌, [], IsTrue, IfOk, OnOk, OnErr};
ghost use Rattle.window_core.specs.Held.{AreWithin-prop, StandInOrder-prop, AreRuns-prop};
ghost use Rattle.row_core.specs.Rows.{StandInOrder, AreWithin, AreChanges, AreExtended};
ghost use Rattle.window_core.specs.Runs.{AreRuns, merged};

use crate::packed::Packed;
use crate::run::taken;
use crate::runs::{are_empty, chunk, last, put_run};
use base_core::Want;
use fed_bytes::Span;
use row_core::{Chunk, Row, Rows};
use std::alloc::Global;

#[derive(Drop)]
pub(crate) struct Held {
    pub(crate) span: Span,
    pub(crate) from: u64,
    pub(crate) upto: u64,
    pub(crate) floor: u64,
    pub(crate) runs: Vec<Packed>,
    ghost are_runs: { AreRuns runs.items } by { AreRuns-prop _ },
    ghost ordered: { StandInOrder (merged runs.items) } by { StandInOrder-prop _ },
    ghost within: { AreWithin span from upto (merged runs.items) } by { AreWithin-prop _ _ _ _ },
    ghost times: { from ≤ upto },
}

impl Held {
    ghost use Rattle.row_core.specs.Rows.{IsLast, IsChunk};
    ghost use Rattle.window_core.specs.Windows.{IsFound, IsPart, IsPassage};

    /// Adds the rows whose keys are in the span, and moves `upto` to their time. After an `Err` all is as it was.
    pub(crate) fn add(&mut self, alloc: Global, rows: &Rows, time: u64) -> Result<(), Want>
        requires next { time ≡ self.old.upto + 1 }
        requires changes { AreChanges time rows.now }
        ensures rows { OnOk result (AreExtended self.old.span (merged self.old.runs.items) rows.now (merged self.new.runs.items)) }
        ensures upto { OnOk result (self.new.upto ≡ time) }
        ensures err_rows { OnErr result (self.new.runs.items ≡ self.old.runs.items) }
        ensures err_upto { OnErr result (self.new.upto ≡ self.old.upto) }
        ensures span { self.new.span ≡ self.old.span }
        ensures from { self.new.from ≡ self.old.from }
        ensures floor { self.new.floor ≡ self.old.floor }
    {
        let run = taken(alloc, rows.items(), &self.span)?;
        put_run(alloc, &mut self.runs, run)?;
        self.upto = time;
        Ok(())
    }

    pub(crate) fn is_empty(&self) -> bool
        ensures { IsTrue result ↔ (merged self.now.runs.items ≡ []) }
    {
        are_empty(self.runs.as_slice())
    }

    /// The newest row of the key at or before the time.
    pub(crate) fn last(&self, alloc: Global, key: &[u8], t: u64) -> Result<Option<Row>, Want>
        ensures last { IfOk result (IsLast (merged self.now.runs.items) key.now t) }
        ensures found { IfOk result (IsFound self.now.span self.now.from self.now.upto key.now t) }
    {
        last(alloc, self.runs.as_slice(), key, t)
    }

    /// All rows of the first `most` keys from a key on, and the key behind them.
    pub(crate) fn chunk(&self, alloc: Global, key: &[u8], most: u32) -> Result<Chunk, Want>
        requires { 1 ≤ most }
        ensures chunk { IfOk result (IsChunk (merged self.now.runs.items) key.now most) }
        ensures part { IfOk result (IsPart self.now.span self.now.from self.now.upto key.now) }
        ensures passage { IfOk result (IsPassage self.now.span key.now most) }
    {
        chunk(alloc, self.runs.as_slice(), key, self.upto, most)
    }
}
