//! A solution, and the line in which it is printed.
ghost use Rattle.std.specs.Prelude.{◌≡◌, ◌++◌, OnOk, OnErr};
ghost use Rattle.nt_text.specs.Cell.{cell_of};
ghost use Rattle.bgp_model.specs.Row.{line_of};

use base_core::{List, Want};
use nt_text::write_term;
use std::alloc::Global;
use term_core::Term;

/// What the selected variables stand for, in their order; nothing where a variable is unbound.
#[derive(Debug, Drop)]
pub struct Solution {
    pub cells: List<Option<Term>>,
}

/// Appends the solution's cells with tabs between them, and no end of line.
#[tactic(auto, unfolding(crate::specs::Row::line_of))]
pub fn row_line(alloc: Global, solution: &Solution, out: &mut Vec<u8>) -> Result<(), Want>
    ensures ok { OnOk result (out.new.items ≡ out.old.items ++ line_of solution.now.cells) }
    ensures err { OnErr result (out.new.items ≡ out.old.items) }
{
    let Some((first, others)) = solution.cells.items().split_first() else {
        return Ok(());
    };
    let mut line = Vec::new(alloc);
    push_cell(alloc, first, &mut line)?;
    'cells: for cell in others {
        line.push(b'\t')?;
        push_cell(alloc, cell, &mut line)?;
    }
    out.extend_from_slice(&line)?;
    Ok(())
}

/// Appends one cell, which is empty where the variable is unbound.
fn push_cell(alloc: Global, cell: &Option<Term>, line: &mut Vec<u8>) -> Result<(), Want>
    ensures { OnOk result (line.new.items ≡ line.old.items ++ cell_of cell.now) }
{
    match cell {
        None => Ok(()),
        Some(term) => write_term(alloc, term, line),
    }
}
