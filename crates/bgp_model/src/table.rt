//! The rows of an answer.
//!
//! Each distinct term stands once, and a cell names its term by its place among them. To bring the rows in order the
//! distinct cells are sorted and ranked, and rows are compared by the ranks of their cells alone: lists of ranks
//! compare as lines do, since no byte that may follow where one cell is a front of another is below the tab
//! (`proofs/Lines.antt`).
ghost use Rattle.std.specs.Prelude.{◌≡◌, [], ◌∷◌, ◌++◌, length, IfOk, OnOk};
ghost use Rattle.std.specs.List.Sorted.{IsPermutation, IsSortedByKey};
ghost use Rattle.std.specs.Ordering.{nat_cmp};
ghost use Rattle.std.specs.Cmp.Lexicographic.{slice_cmp};
ghost use Rattle.bgp_model.specs.Row.{line_of};
ghost use Rattle.bgp_model.specs.Table.{table_rows, HasTerms, lines_text, placed_line};

use crate::cells::Cells;
use crate::draft::Draft;
use crate::part::row_in;
use crate::ranks::{numbers_below, ranks_at, ranks_of};
use base_core::Want;
use std::alloc::Global;
use std::marker::Model;
use term_core::Term;

/// A clause sees the list of the solutions.
#[derive(Debug, Drop)]
pub struct Table {
    terms: Vec<Term>,
    columns: usize,
    /// Row by row, the place of each cell's term in `terms`; none where the variable is unbound.
    places: Vec<Option<u32>>,
    /// The numbers of the rows, in the order in which they come.
    numbers: Vec<usize>,
}

impl Model for Table {
    ghost use Rattle.std.specs.Prelude.{List};
    ghost use Rattle.bgp_model.specs.declared.solution.Solution.{Solution};
    ghost use Rattle.bgp_model.specs.Table.{numbered_rows};

    ghost Value = { List Solution };

    ghost view = { λ table. numbered_rows table.terms.items table.columns table.places.items table.numbers.items };
}

impl Table {
    /// So many rows of so many cells. A place that names no term is that of an unbound variable.
    pub fn of(
        alloc: Global,
        terms: Vec<Term>,
        columns: usize,
        count: usize,
        places: Vec<Option<u32>>,
    ) -> Result<Table, Want>
        ensures { IfOk result (λ made. made ≡ table_rows terms.items columns count places.items) }
    {
        let numbers = numbers_below(alloc, count)?;
        Ok(Table {
            terms,
            columns,
            places,
            numbers,
        })
    }

    /// How many rows there are.
    pub fn count(&self) -> usize
        ensures { result ≡ length self.now }
    {
        self.numbers.len()
    }

    /// The rows in the order of their lines. Sorts each distinct cell once, and then compares rows by numbers.
    pub fn in_order(self, alloc: Global) -> Result<Table, Want>
        requires { HasTerms self }
        ensures permuted { IfOk result (IsPermutation self) }
        ensures sorted { IfOk result (IsSortedByKey (λ row. line_of row.cells) (slice_cmp nat_cmp)) }
    {
        let Table {
            terms,
            columns,
            places,
            mut numbers,
        } = self;
        let cells = Cells::of(alloc, &terms)?;
        let ranks = ranks_of(alloc, &cells)?;
        let ranks = ranks_at(alloc, &ranks, &places)?;
        numbers.sort_by(|one, other| {
            row_in(&ranks, columns, *one).cmp(row_in(&ranks, columns, *other))
        })?;
        Ok(Table {
            terms,
            columns,
            places,
            numbers,
        })
    }

    /// Appends the lines of the rows, each with its end. Each distinct cell is made once.
    pub fn write_lines(&self, alloc: Global, draft: &mut Draft) -> Result<(), Want>
        ensures text { OnOk result (draft.new.text ≡ draft.old.text ++ lines_text self.now) }
        ensures kept { draft.new.kept ≡ draft.old.kept }
    {
        let cells = Cells::of(alloc, &self.terms)?;
        'rows: for number in &self.numbers {
            write_line(&cells, row_in(&self.places, self.columns, *number), draft)?;
        }
        Ok(())
    }
}

/// Appends the line of a row, with its end.
fn write_line(cells: &Cells, row: &[Option<u32>], draft: &mut Draft) -> Result<(), Want>
    ensures text { OnOk result (draft.new.text ≡ draft.old.text ++ placed_line cells.now row.now ++ 10 ∷ []) }
    ensures kept { draft.new.kept ≡ draft.old.kept }
{
    write_cells(cells, row, draft)?;
    draft.push(b'\n')
}

/// Appends the cells of a row, with tabs between them.
fn write_cells(cells: &Cells, row: &[Option<u32>], draft: &mut Draft) -> Result<(), Want>
    ensures text { OnOk result (draft.new.text ≡ draft.old.text ++ placed_line cells.now row.now) }
    ensures kept { draft.new.kept ≡ draft.old.kept }
{
    let Some((first, others)) = row.split_first() else {
        return Ok(());
    };
    draft.append(cells.at_place(*first))?;
    'cells: for place in others {
        draft.push(b'\t')?;
        draft.append(cells.at_place(*place))?;
    }
    Ok(())
}
