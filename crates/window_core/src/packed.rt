//! Rows in two flat buffers, in place of a key and a value on the heap for each row.
ghost use Rattle.std.specs.Prelude.{◌≡◌, ◌<◌, ◌++◌, ◌∷◌, [], length, IfOk, OnOk, OnErr, MatchOption};
ghost use Rattle.row_core.specs.declared.rows.Cell.TheVariants.{Value, Deleted};
ghost use Rattle.window_core.specs.Packed.{row_with, row_at};

use base_core::Want;
use fed_bytes::Key;
use row_core::{Cell, Row};
use std::alloc::Global;
use std::marker::Model;

/// Where a row stands in the buffer of bytes: its key, and right behind it its value.
#[derive(Clone, Copy, Debug)]
pub(crate) struct Spot {
    pub(crate) begins: usize,
    pub(crate) key_len: u32,
    /// None where the key was deleted.
    pub(crate) value_len: Option<u32>,
    pub(crate) time: u64,
}

/// A list of rows: the keys and values of all of them one behind the other, and for each row where it stands.
#[derive(Debug, Drop)]
pub(crate) struct Packed {
    bytes: Vec<u8>,
    spots: Vec<Spot>,
}

impl Model for Packed {
    ghost use Rattle.std.specs.Prelude.{List};
    ghost use Rattle.std.specs.List.{AllByRecursion};
    ghost use Rattle.row_core.specs.declared.rows.Row.{Row};
    ghost use Rattle.window_core.specs.Packed.{rows_in, IsStored};

    ghost Value = { List Row };

    ghost view = { λ packed. rows_in packed.bytes.items packed.spots.items };

    ghost invariant = { λ packed. AllByRecursion (IsStored packed.bytes.items) packed.spots.items };
}

impl Packed {
    /// An empty list with room for so many rows, and for so many bytes of keys and values.
    pub(crate) fn with_capacity(alloc: Global, rows: usize, bytes: usize) -> Result<Packed, Want>
        ensures { IfOk result (λ made. made ≡ []) }
    {
        let bytes = Vec::with_capacity(alloc, bytes)?;
        let spots = Vec::with_capacity(alloc, rows)?;
        Ok(Packed { bytes, spots })
    }

    pub(crate) fn len(&self) -> usize
        ensures { result ≡ length self.now }
    {
        self.spots.len()
    }

    /// How many bytes all keys and values take.
    pub(crate) fn size(&self) -> usize {
        self.bytes.len()
    }

    /// Puts a row with a value at the end. After an `Err` the list is as it was.
    pub(crate) fn push_value(&mut self, key: &[u8], time: u64, value: &[u8]) -> Result<(), Want>
        ensures ok { OnOk result (self.new ≡ self.old ++ row_with key.now time (Value value.now) ∷ []) }
        ensures err { OnErr result (self.new ≡ self.old) }
    {
        let (Ok(key_len), Ok(value_len)) = (u32::try_from(key.len()), u32::try_from(value.len()))
        else {
            return Err(Want::NoMemory);
        };
        let begins = self.bytes.len();
        self.bytes.extend_from_slice(key)?;
        self.bytes.extend_from_slice(value)?;
        self.spots.push(Spot {
            begins,
            key_len,
            value_len: Some(value_len),
            time,
        })?;
        Ok(())
    }

    /// Puts a row of a deleted key at the end. After an `Err` the list is as it was.
    pub(crate) fn push_deleted(&mut self, key: &[u8], time: u64) -> Result<(), Want>
        ensures ok { OnOk result (self.new ≡ self.old ++ row_with key.now time Deleted ∷ []) }
        ensures err { OnErr result (self.new ≡ self.old) }
    {
        let Ok(key_len) = u32::try_from(key.len()) else {
            return Err(Want::NoMemory);
        };
        let begins = self.bytes.len();
        self.bytes.extend_from_slice(key)?;
        self.spots.push(Spot {
            begins,
            key_len,
            value_len: None,
            time,
        })?;
        Ok(())
    }

    /// Puts a copy of a row at the end. After an `Err` the list is as it was.
    pub(crate) fn push_row(&mut self, row: &Row) -> Result<(), Want>
        ensures ok { OnOk result (self.new ≡ self.old ++ row.now ∷ []) }
        ensures err { OnErr result (self.new ≡ self.old) }
    {
        match &row.cell {
            Cell::Value(value) => self.push_value(row.key.bytes(), row.time, value.bytes()),
            Cell::Deleted => self.push_deleted(row.key.bytes(), row.time),
        }
    }

    /// Puts a copy of a row of another list at the end. After an `Err` the list is as it was.
    pub(crate) fn push_from(&mut self, other: &Packed, index: usize) -> Result<(), Want>
        requires { index < length other.now }
        ensures ok { OnOk result (self.new ≡ self.old ++ row_at other.now index ∷ []) }
        ensures err { OnErr result (self.new ≡ self.old) }
    {
        let key = other.key_at(index);
        let time = other.time_at(index);
        match other.value_at(index) {
            Some(value) => self.push_value(key, time, value),
            None => self.push_deleted(key, time),
        }
    }

    pub(crate) fn key_at(&self, index: usize) -> &[u8]
        requires { index < length self.now }
        ensures key { result.now ≡ (row_at self.now index).key }
        ensures within { index < usize.MAX }
    {
        let spot = self.spots[index];
        let ends = spot.begins + spot.key_len as usize;
        &self.bytes[spot.begins..ends]
    }

    pub(crate) fn time_at(&self, index: usize) -> u64
        requires { index < length self.now }
        ensures { result ≡ (row_at self.now index).time }
    {
        self.spots[index].time
    }

    /// The value of a row, where its key wasn't deleted.
    fn value_at(&self, index: usize) -> Option<&[u8]>
        requires { index < length self.now }
        ensures { MatchOption result ((row_at self.now index).cell ≡ Deleted) (λ value. (row_at self.now index).cell ≡ Value value.now) }
    {
        let spot = self.spots[index];
        match spot.value_len {
            None => None,
            Some(value_len) => {
                let begins = spot.begins + spot.key_len as usize;
                let ends = begins + value_len as usize;
                Some(&self.bytes[begins..ends])
            }
        }
    }

    /// A copy of a row.
    pub(crate) fn row(&self, alloc: Global, index: usize) -> Result<Row, Want>
        requires { index < length self.now }
        ensures { IfOk result (λ made. made ≡ row_at self.now index) }
    {
        let key = Key::of(alloc, self.key_at(index))?;
        let time = self.time_at(index);
        let cell = self.cell(alloc, index)?;
        Ok(Row { key, time, cell })
    }

    /// A copy of what the key of a row had.
    fn cell(&self, alloc: Global, index: usize) -> Result<Cell, Want>
        requires { index < length self.now }
        ensures { IfOk result (λ made. made ≡ (row_at self.now index).cell) }
    {
        match self.value_at(index) {
            Some(value) => Ok(Cell::Value(Key::of(alloc, value)?)),
            None => Ok(Cell::Deleted),
        }
    }
}
