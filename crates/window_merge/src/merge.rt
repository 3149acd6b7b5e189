//! Two lists of rows in order made one.
ghost use Rattle.std.specs.Prelude.{IsTrue, IsFalse, IfOk};
ghost use Rattle.row_core.specs.Rows.{StandInOrder};
ghost use Rattle.window_core.specs.Runs.{IsMerge};
ghost use Rattle.window_merge.specs.Merging.{AreEarlier, IsNextRow, IsOlderFirst, IsNewerFirst};

use crate::compare::is_before;
use base_core::Want;
use row_core::Row;
use std::alloc::Global;
use std::collections::VecDeque;

/// The rows of both. Of one key those of the newer list stand first.
pub(crate) fn merge(alloc: Global, older: Vec<Row>, newer: Vec<Row>) -> Result<Vec<Row>, Want>
    requires older { StandInOrder older.items }
    requires newer { StandInOrder newer.items }
    requires times { AreEarlier older.items newer.items }
    ensures { IfOk result (λ made. IsMerge older.items newer.items made.items) }
{
    let count = older.len().saturating_add(newer.len());
    let mut rows = Vec::with_capacity(alloc, count)?;
    let mut older = VecDeque::from_vec(older);
    let mut newer = VecDeque::from_vec(newer);
    'rows: while let Some(row) = next_row(&mut older, &mut newer) {
        rows.push(row)?;
    }
    Ok(rows)
}

/// Takes the first row of both.
fn next_row(older: &mut VecDeque<Row>, newer: &mut VecDeque<Row>) -> Option<Row>
    ensures { IsNextRow older.old.items newer.old.items older.new.items newer.new.items result }
{
    if is_older_next(older, newer) {
        older.pop_front()
    } else {
        newer.pop_front()
    }
}

/// Whether the first row of both is the older list's.
fn is_older_next(older: &VecDeque<Row>, newer: &VecDeque<Row>) -> bool
    ensures older { IsTrue result → IsOlderFirst older.now.items newer.now.items }
    ensures newer { IsFalse result → IsNewerFirst older.now.items newer.now.items }
{
    let Some(one) = older.front() else {
        return false;
    };
    let Some(other) = newer.front() else {
        return true;
    };
    is_before(one.key.bytes(), other.key.bytes())
}
