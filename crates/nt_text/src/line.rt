//! Reading one line (RDF 1.1 N-Triples, section 7).
ghost use Rattle.std.specs.Prelude.{◌≡◌, IfOk};
ghost use Rattle.std.specs.Str.{is_utf8};
ghost use Rattle.nt_text.specs.Reading.{ReadsFront, Makes, is_stop, is_comment, statement_of, are_texts, brought, triple_at, form_at};

use crate::run::skip_white;
use crate::token::{Token, read_iri_ref, read_object, read_subject};
use crate::utf8::as_text;
use base_core::Want;
use std::alloc::Global;
use term_core::Statement;

/// What a line says.
#[derive(Clone, Copy)]
pub enum Line<'a> {
    /// Nothing: it is white space, and a comment if there is one.
    Empty,
    Triple(Triple<'a>),
}

/// The three tokens of a triple, where they stand in the line.
#[derive(Clone, Copy)]
pub struct Triple<'a> {
    subject: Token<'a>,
    predicate: Token<'a>,
    object: Token<'a>,
}

impl Triple<'_> {
    /// The statement that the tokens are; `None` where a text of them is no UTF-8.
    pub fn statement(&self, alloc: Global) -> Result<Option<Statement>, Want>
        ensures { IfOk result (λ made. Makes (λ statement. statement) made (are_texts (statement_of self.now)) (statement_of self.now)) }
    {
        let Some(subject) = self.subject.term(alloc)? else {
            return Ok(None);
        };
        let Some(predicate) = self.predicate.term(alloc)? else {
            return Ok(None);
        };
        let Some(object) = self.object.term(alloc)? else {
            return Ok(None);
        };
        Ok(Some(Statement {
            subject,
            predicate,
            object,
        }))
    }
}

/// A line of the document, without its end: `ntriplesDoc ::= triple? (EOL triple)* EOL?`, where white space and a
/// comment may stand alone.
#[tactic(auto, unfolding(crate::specs::Reading::form_at))]
pub fn read_line(bytes: &[u8]) -> Option<Line<'_>>
    ensures { ReadsFront brought result (form_at bytes.now) }
{
    let rest = skip_white(bytes);
    let Some((first, text)) = rest.split_first() else {
        return Some(Line::Empty);
    };
    if *first == b'#' {
        return if is_text(text) {
            Some(Line::Empty)
        } else {
            None
        };
    }
    let triple = read_triple(rest)?;
    Some(Line::Triple(triple))
}

/// `triple ::= subject predicate object '.'`, with white space between and behind, and a comment at most.
#[tactic(auto, unfolding(crate::specs::Reading::triple_at))]
fn read_triple(bytes: &[u8]) -> Option<Triple<'_>>
    ensures { ReadsFront statement_of result (triple_at bytes.now) }
{
    let (subject, rest) = read_subject(bytes)?;
    let (predicate, rest) = read_iri_ref(skip_white(rest))?;
    let (object, rest) = read_object(skip_white(rest))?;
    if !is_stop(skip_white(rest)) {
        return None;
    }
    Some(Triple {
        subject,
        predicate,
        object,
    })
}

/// The triple's `'.'`, and nothing behind it but white space and a comment.
fn is_stop(bytes: &[u8]) -> bool
    ensures { result ≡ is_stop bytes.now }
{
    match bytes {
        [b'.', behind @ ..] => is_comment(skip_white(behind)),
        _ => false,
    }
}

/// Nothing, or `#` and any text.
fn is_comment(bytes: &[u8]) -> bool
    ensures { result ≡ is_comment bytes.now }
{
    match bytes {
        [] => true,
        [b'#', text @ ..] => is_text(text),
        _ => false,
    }
}

fn is_text(bytes: &[u8]) -> bool
    ensures { result ≡ is_utf8 bytes.now }
{
    as_text(bytes).is_some()
}
