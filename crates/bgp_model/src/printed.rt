//! A solution beside its line, for sorting.
ghost use Rattle.std.specs.Prelude.{◌≡◌, IfOk};
ghost use Rattle.bgp_model.specs.Row.{line_of};

use crate::solution::{Solution, row_line};
use base_core::Want;
use std::alloc::Global;

/// A solution and the line in which it is printed.
#[derive(Drop)]
pub struct Printed {
    line: Vec<u8>,
    row: Solution,
    ghost tied: { line.items ≡ line_of row.cells },
}

impl Printed {
    pub fn of(alloc: Global, row: Solution) -> Result<Printed, Want>
        ensures { IfOk result (λ made. made.row ≡ row) }
    {
        let mut line = Vec::new(alloc);
        row_line(alloc, &row, &mut line)?;
        Ok(Printed { line, row })
    }

    pub fn line(&self) -> &[u8]
        ensures { result.now ≡ line_of self.now.row.cells }
    {
        self.line.as_slice()
    }

    pub fn into_row(self) -> Solution
        ensures { result ≡ self.row }
    {
        self.row
    }
}
