//! What is too much for one document. Contracts name these limits by the words of `specs/Limits.antt`.
ghost use Rattle.std.specs.Prelude.{◌≡◌, ◌↔◌, ◌+◌, ◌≤◌, IsTrue};
ghost use Rattle.nt_text.specs.Limits.{IsShort, HasShortTerms, longest_spelling};

use term_core::{Statement, Term};

/// How many bytes a document may have.
pub const LARGEST_DOCUMENT: usize = 33554432;

/// How many statements a document may have.
pub const MOST_STATEMENTS: usize = 100000;

/// How many bytes the spelling of a term may have.
pub const LONGEST_SPELLING: usize = 65535;

/// Whether no term of the statement is too long.
pub fn has_short_terms(statement: &Statement) -> bool
    ensures { IsTrue result ↔ HasShortTerms statement.now }
{
    is_short(&statement.subject) && is_short(&statement.predicate) && is_short(&statement.object)
}

fn is_short(term: &Term) -> bool
    ensures { IsTrue result ↔ IsShort term.now }
{
    match term {
        Term::Iri(iri) => is_within(1, iri.text().len(), 0),
        Term::Literal { form, datatype } => is_within(5, form.text().len(), datatype.text().len()),
        Term::Tagged { form, tag } => is_within(5, form.text().len(), tag.text().len()),
        Term::Blank { label, .. } => is_within(9, label.text().len(), 0),
    }
}

/// Whether a spelling of these parts is short enough.
fn is_within(front: usize, first: usize, second: usize) -> bool
    ensures { IsTrue result ↔ (front + first + second ≤ longest_spelling) }
{
    front.saturating_add(first).saturating_add(second) <= LONGEST_SPELLING
}
