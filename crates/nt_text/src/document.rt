//! Reading N-Triples documents.
ghost use Rattle.std.specs.Prelude.{◌≡◌, ◌≤◌, ◌+◌, ◌*◌, ◌++◌, List, length, None, IfOk, IfErr, IsErrAnd, OnOk, MatchResult};
ghost use Rattle.std.specs.List.{AllByRecursion};
ghost use Rattle.std.specs.Option.{option_to_list};
ghost use Rattle.base_core.specs.declared.lines.LineEnd.TheVariants.{Any};
ghost use Rattle.term_core.specs.declared.statement.Statement.{Statement as Triple};
ghost use Rattle.base_core.specs.Lines.{lines_of};
ghost use Rattle.term_core.specs.Term.{IsStatement};
ghost use Rattle.nt_text.specs.declared.document.DocFault.TheVariants.{NoMemory};
ghost use Rattle.nt_text.specs.Document.{IsDocument, IsFirstLabel, HasNoBlankNode, HasNoTimes};
ghost use Rattle.nt_text.specs.Faults.{IsDocumentFault, IsFirstBadLine, IsNoMemory, IsNoMemoryOr};
ghost use Rattle.nt_text.specs.Limits.{AreWithinLimits, all_spelled, largest_document, most_spelled};
ghost use Rattle.nt_text.specs.Reading.{IsRead, line_at, noted_label, has_blank_node, is_blank_node};

use crate::limits::{MOST_STATEMENTS, has_short_terms};
use crate::line::{Line, read_line};
use base_core::{LineEnd, List, Want, first_line};
use std::alloc::Global;
use term_core::{Statement, Term};

/// What a document says.
#[derive(Debug, Drop)]
pub struct Document {
    /// Its statements, in order; one that stands twice is here twice.
    pub statements: List<Statement>,
    /// The first line, counted from 1, that has a blank node.
    pub first_label: Option<u32>,
}

/// Why a document could not be read: the first line, counted from 1, that has a fault, by the first of its faults.
#[derive(Clone, Copy, Debug, PartialEq, Eq)]
pub enum DocFault {
    NoMemory,
    /// The line has no form of the grammar.
    Line { line: u32 },
    /// The line has a term whose spelling is longer than 65,535 bytes.
    TooLong { line: u32 },
    /// The line brings the 100,001st statement.
    TooMany { line: u32 },
}

impl From<Want> for DocFault {
    ghost from_gives = { λ _ e. e ≡ NoMemory };

    fn from(_e: Want) -> DocFault {
        DocFault::NoMemory
    }
}

/// Reads a document: RDF 1.1 N-Triples, section 2.
pub fn read_document(alloc: Global, bytes: &[u8]) -> Result<Document, DocFault>
    requires { length bytes.now ≤ largest_document }
    // What is read is what the document says.
    ensures found { IfOk result (λ document. IsDocument bytes.now document.statements) }
    ensures label { IfOk result (λ document. IsFirstLabel (lines_of Any bytes.now) 1 document.first_label) }
    ensures plain { IfOk result (λ document. document.first_label ≡ None → AllByRecursion HasNoBlankNode document.statements) }
    ensures statements { IfOk result (λ document. AllByRecursion IsStatement document.statements) }
    ensures times { IfOk result (λ document. AllByRecursion HasNoTimes document.statements) }
    ensures few { IfOk result (λ document. AreWithinLimits document.statements) }
    // A plain literal has 42 bytes more in its spelling than in its token, and a subject 7; an IRI has one less, and
    // the full stop is one more.
    ensures spelled { IfOk result (λ document. all_spelled document.statements ≤ length bytes.now + 47 * length document.statements) }
    ensures size { IfOk result (λ document. all_spelled document.statements ≤ most_spelled) }
    // A document says nothing else.
    ensures only { (statements : List Triple) → IsDocument bytes.now statements → AreWithinLimits statements →
        MatchResult result (λ document. document.statements ≡ statements) IsNoMemory }
    ensures fault { IfErr result (IsDocumentFault bytes.now) }
    // Bytes with a bad line are refused for the first one, or memory ran out.
    ensures bad { (fault : DocFault) → IsFirstBadLine bytes.now fault → IsErrAnd result (IsNoMemoryOr fault) }
{
    let mut statements = Vec::new(alloc);
    let mut first_label = None;
    let mut number: u32 = 0;
    let mut rest = bytes;
    'lines: while let Some((line, behind)) = first_line(rest, LineEnd::Any) {
        number += 1;
        let brought = statement_of(alloc, line, number, statements.len())?;
        first_label = noted(first_label, &brought, number);
        keep(&mut statements, brought)?;
        rest = behind;
    }
    Ok(Document {
        statements: List::of(statements),
        first_label,
    })
}

/// What the line of this number brings, behind so many statements.
#[tactic(auto, unfolding(crate::specs::Reading::line_at))]
fn statement_of(
    alloc: Global,
    bytes: &[u8],
    number: u32,
    count: usize,
) -> Result<Option<Statement>, DocFault>
    ensures { IsRead number count result (line_at bytes.now) }
{
    match read_line(bytes) {
        None => Err(DocFault::Line { line: number }),
        Some(Line::Empty) => Ok(None),
        Some(Line::Triple(triple)) => match triple.statement(alloc)? {
            None => Err(DocFault::Line { line: number }),
            Some(statement) => admitted(statement, number, count),
        },
    }
}

/// The statement, if it is not too much.
fn admitted(statement: Statement, number: u32, count: usize) -> Result<Option<Statement>, DocFault>
    ensures { IsRead number count result (Some (Some statement)) }
{
    if !has_short_terms(&statement) {
        return Err(DocFault::TooLong { line: number });
    }
    if count >= MOST_STATEMENTS {
        return Err(DocFault::TooMany { line: number });
    }
    Ok(Some(statement))
}

fn keep(statements: &mut Vec<Statement>, brought: Option<Statement>) -> Result<(), Want>
    ensures { OnOk result (statements.new.items ≡ statements.old.items ++ option_to_list brought) }
{
    if let Some(statement) = brought {
        statements.push(statement)?;
    }
    Ok(())
}

/// The number of the first line that has a blank node, once the line of this number is read too.
fn noted(first: Option<u32>, brought: &Option<Statement>, number: u32) -> Option<u32>
    ensures { result ≡ noted_label first brought.now number }
{
    if first.is_some() {
        return first;
    }
    match brought {
        Some(statement) if has_blank_node(statement) => Some(number),
        _ => None,
    }
}

fn has_blank_node(statement: &Statement) -> bool
    ensures { result ≡ has_blank_node statement.now }
{
    is_blank_node(&statement.subject) || is_blank_node(&statement.object)
}

fn is_blank_node(term: &Term) -> bool
    ensures { result ≡ is_blank_node term.now }
{
    matches!(term, Term::Blank { .. })
}
