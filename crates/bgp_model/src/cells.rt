//! The cells of distinct terms. Each is made once, and they stand in one list of bytes.
ghost use Rattle.std.specs.Prelude.{◌≡◌, length, map, Some, IfOk};
ghost use Rattle.nt_text.specs.Cell.{cell};
ghost use Rattle.bgp_model.specs.Table.{text_at};

use crate::part::part_of;
use base_core::Want;
use nt_text::put_term;
use std::alloc::Global;
use std::marker::Model;
use term_core::Term;

/// Where a text stands.
#[derive(Clone, Copy, Debug)]
pub struct Span {
    pub start: usize,
    pub length: usize,
}

/// A clause sees the list of the texts.
#[derive(Drop)]
pub(crate) struct Cells {
    bytes: Vec<u8>,
    spans: Vec<Span>,
}

impl Model for Cells {
    ghost use Rattle.std.specs.Prelude.{ℕ, List};
    ghost use Rattle.bgp_model.specs.Cells.{texts_in};

    ghost Value = { List (List ℕ) };

    ghost view = { λ cells. texts_in cells.bytes.items cells.spans.items };
}

impl Cells {
    /// The cells of these terms.
    pub(crate) fn of(alloc: Global, terms: &[Term]) -> Result<Cells, Want>
        ensures { IfOk result (λ made. made ≡ map cell terms.now) }
    {
        let mut bytes = Vec::new(alloc);
        let mut spans = Vec::with_capacity(alloc, terms.len())?;
        'terms: for term in terms {
            let start = bytes.len();
            put_term(alloc, term, &mut bytes)?;
            let length = bytes.len() - start;
            spans.push(Span { start, length })?;
        }
        Ok(Cells { bytes, spans })
    }

    pub(crate) fn count(&self) -> usize
        ensures { result ≡ length self.now }
    {
        self.spans.len()
    }

    /// The cell of the term of this number, from 0.
    pub(crate) fn at(&self, number: usize) -> &[u8]
        ensures { result.now ≡ text_at self.now (Some number) }
    {
        match self.spans.get(number) {
            Some(span) => part_of(&self.bytes, span.start, span.length),
            None => &[],
        }
    }

    /// The cell of a place, which is empty where a variable is unbound.
    pub(crate) fn at_place(&self, place: Option<u32>) -> &[u8]
        ensures { result.now ≡ text_at self.now place }
    {
        match place {
            Some(number) => self.at(number as usize),
            None => &[],
        }
    }
}
