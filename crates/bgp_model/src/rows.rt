//! The rows of a set of assignments, in the order of their printed lines.
ghost use Rattle.std.specs.Prelude.{◌≡◌, map, IfOk, OnOk};
ghost use Rattle.std.specs.List.Sorted.{IsPermutation, IsSortedByKey};
ghost use Rattle.std.specs.Ordering.{nat_cmp};
ghost use Rattle.std.specs.Cmp.Lexicographic.{slice_cmp};
ghost use Rattle.base_core.specs.Lists.{AreDistinct};
ghost use Rattle.bgp_model.specs.Row.{line_of};
ghost use Rattle.bgp_model.specs.Solutions.{row_of};

use crate::assignment::Assignment;
use crate::printed::Printed;
use crate::query::Query;
use crate::solution::Solution;
use base_core::{List, Want};
use std::alloc::Global;
use std::collections::BTreeSet;

/// One row for each assignment, also where rows are equal, sorted by their lines.
pub fn rows_of(
    alloc: Global,
    query: &Query,
    found: &BTreeSet<Assignment>,
) -> Result<List<Solution>, Want>
    // A set holds nothing twice.
    ensures distinct { OnOk result (AreDistinct found.now.keys) }
    ensures projected { IfOk result (IsPermutation (map (row_of query.now) found.now.keys)) }
    ensures sorted { IfOk result (IsSortedByKey (λ row. line_of row.cells) (slice_cmp nat_cmp)) }
{
    let rows = selected_rows(alloc, query, found)?;
    in_order(alloc, rows)
}

/// The rows, in the order of the assignments.
fn selected_rows(
    alloc: Global,
    query: &Query,
    found: &BTreeSet<Assignment>,
) -> Result<Vec<Solution>, Want>
    ensures distinct { OnOk result (AreDistinct found.now.keys) }
    ensures rows { IfOk result (λ rows. rows.items ≡ map (row_of query.now) found.now.keys) }
{
    let mut rows = Vec::new(alloc);
    'rows: for assignment in found {
        rows.push(row_of(alloc, query, assignment)?)?;
    }
    Ok(rows)
}

/// Solutions in the order of their printed lines.
pub fn in_order(alloc: Global, rows: Vec<Solution>) -> Result<List<Solution>, Want>
    ensures permuted { IfOk result (IsPermutation rows.items) }
    ensures sorted { IfOk result (IsSortedByKey (λ row. line_of row.cells) (slice_cmp nat_cmp)) }
{
    let mut printed = with_lines(alloc, rows)?;
    printed.sort_by(|a, b| a.line().cmp(b.line()))?;
    let rows = without_lines(alloc, printed)?;
    Ok(List::of(rows))
}

/// The rows, each beside its line.
fn with_lines(alloc: Global, rows: Vec<Solution>) -> Result<Vec<Printed>, Want>
    ensures { IfOk result (λ made. map (λ p. p.row) made.items ≡ rows.items) }
{
    let mut made = Vec::new(alloc);
    'rows: for row in rows {
        made.push(Printed::of(alloc, row)?)?;
    }
    Ok(made)
}

/// The rows without their lines.
fn without_lines(alloc: Global, printed: Vec<Printed>) -> Result<Vec<Solution>, Want>
    ensures { IfOk result (λ rows. rows.items ≡ map (λ p. p.row) printed.items) }
{
    let mut rows = Vec::new(alloc);
    'rows: for one in printed {
        rows.push(one.into_row())?;
    }
    Ok(rows)
}

/// The row of the selected variables.
fn row_of(alloc: Global, query: &Query, assignment: &Assignment) -> Result<Solution, Want>
    ensures { IfOk result (λ row. row ≡ row_of query.now assignment.now) }
{
    let mut cells = Vec::new(alloc);
    'columns: for column in query.columns.items() {
        cells.push(assignment.copied_at(alloc, *column as usize)?)?;
    }
    let cells = List::of(cells);
    Ok(Solution { cells })
}
