//! Rows of an index: what a key had at a time.
ghost use Rattle.std.specs.Prelude.{◌≡◌, IfOk};

use base_core::Want;
use fed_bytes::{Key, Span};
use std::alloc::Global;
use std::marker::Model;

/// An index of the store.
#[derive(Clone, Copy, Debug, PartialEq, Eq)]
pub enum Index {
    /// Terms to ids.
    T2i,
    /// Ids to terms.
    I2t,
    /// Statements by subject, predicate, object.
    Spo,
    /// Statements by predicate, object, subject.
    Pos,
    /// Statements by object, subject, predicate.
    Osp,
}

/// What a key had at a time: a value, or none any more.
#[derive(Debug, PartialEq, Eq, Drop)]
pub enum Cell {
    Value(Key),
    Deleted,
}

impl Cell {
    pub fn copy(&self, alloc: Global) -> Result<Cell, Want>
        ensures { IfOk result (λ made. made ≡ self.now) }
    {
        match self {
            Cell::Value(value) => Ok(Cell::Value(value.copy(alloc)?)),
            Cell::Deleted => Ok(Cell::Deleted),
        }
    }
}

/// What a key had from a time on, up to the time of the key's next row.
#[derive(Debug, PartialEq, Eq, Drop)]
pub struct Row {
    pub key: Key,
    pub time: u64,
    pub cell: Cell,
}

impl Row {
    pub fn copy(&self, alloc: Global) -> Result<Row, Want>
        ensures { IfOk result (λ made. made ≡ self.now) }
    {
        Ok(Row {
            key: self.key.copy(alloc)?,
            time: self.time,
            cell: self.cell.copy(alloc)?,
        })
    }
}

/// A list of rows, which contracts see as a list. It takes no memory of its own.
#[derive(Debug, Drop)]
pub struct Rows {
    items: Vec<Row>,
}

impl Model for Rows {
    ghost use Rattle.std.specs.Prelude.{List};
    ghost use Rattle.row_core.specs.declared.rows.Row.{Row};

    ghost Value = { List Row };

    ghost view = { λ rows. rows.items.items };
}

impl Rows {
    pub fn of(items: Vec<Row>) -> Rows
        ensures { result ≡ items.items }
    {
        Rows { items }
    }

    pub fn items(&self) -> &[Row]
        ensures { result.now ≡ self.now }
    {
        self.items.as_slice()
    }

    /// Gives the `Vec` back.
    pub fn into_items(self) -> Vec<Row>
        ensures { result.items ≡ self }
    {
        self.items
    }
}

/// All rows of some keys that stand next to each other, and the key behind them.
#[derive(Debug, Drop)]
pub struct Chunk {
    pub rows: Rows,
    pub next: Option<Key>,
}

/// What a shard answers of a span that it was asked for: the keys of both spans, and what it has of them.
#[derive(Debug, Drop)]
pub struct Reply {
    /// The keys that are in the span that was asked for and in the shard's own.
    pub part: Span,
    pub chunk: Chunk,
}
