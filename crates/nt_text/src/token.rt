//! Reading tokens: a function for each rule of the grammar, in its sequence (RDF 1.1 N-Triples, section 7).
ghost use Rattle.std.specs.Prelude.{◌≡◌, IfOk, map};
ghost use Rattle.std.specs.Char.{to_ascii_lowercase};
ghost use Rattle.std.specs.Str.{is_utf8};
ghost use Rattle.term_core.specs.declared.term.Term.TheVariants.{Iri, Literal, Tagged};
ghost use Rattle.nt_text.specs.declared.pieces.Between.TheVariants.{Brackets, Quotes};
ghost use Rattle.nt_text.specs.Cell.{xsd_string};
ghost use Rattle.nt_text.specs.Escapes.{opening, closing};
ghost use Rattle.nt_text.specs.Reading.{ReadsFront, Makes, enclosed_at, iriref_at, node_at, behind_colon, labelled, without_dot, run, is_label_byte, literal_at, mark_at, typed, tagged, subject_at, object_at, term_of, text_of, has_texts};

use crate::label::{label_of, without_dot};
use crate::pieces::{Between, cut_text, meaning_of};
use crate::run::{Class, cut_run, skip_white};
use crate::tag::{is_tag, lower_case};
use crate::utf8::text_from;
use base_core::{Text, Want};
use std::alloc::Global;
use term_core::Term;

const XSD_STRING: &str = "http://www.w3.org/2001/XMLSchema#string";

/// A token as it is written, without its brackets, quotes and marks.
#[derive(Clone, Copy)]
pub enum Token<'a> {
    Iri(&'a [u8]),
    Blank(&'a str),
    Plain(&'a [u8]),
    Typed { form: &'a [u8], datatype: &'a [u8] },
    Tagged { form: &'a [u8], tag: &'a [u8] },
}

impl Token<'_> {
    /// The term that the token is; `None` where a text of it is no UTF-8.
    pub fn term(&self, alloc: Global) -> Result<Option<Term>, Want>
        ensures { IfOk result (λ made. Makes (λ term. term) made (has_texts (term_of self.now)) (term_of self.now)) }
    {
        match self {
            Token::Iri(raw) => iri_term(alloc, raw),
            Token::Blank(label) => Ok(Some(Term::Blank {
                at: 0,
                label: Text::of(alloc, label)?,
            })),
            Token::Plain(form) => plain_term(alloc, form),
            Token::Typed { form, datatype } => typed_term(alloc, form, datatype),
            Token::Tagged { form, tag } => tagged_term(alloc, form, tag),
        }
    }
}

fn iri_term(alloc: Global, raw: &[u8]) -> Result<Option<Term>, Want>
    ensures { IfOk result (λ made. let term = Iri (text_of Brackets raw.now) in Makes (λ x. x) made (has_texts term) term) }
{
    match meaning_of(alloc, raw, Between::Brackets)? {
        Some(iri) => Ok(Some(Term::Iri(iri))),
        None => Ok(None),
    }
}

/// A literal without a mark has the datatype `xsd:string`.
#[tactic(auto, using(crate::proofs::TextTests::xsd_utf8))]
fn plain_term(alloc: Global, form: &[u8]) -> Result<Option<Term>, Want>
    ensures { IfOk result (λ made. let term = Literal (text_of Quotes form.now) xsd_string in Makes (λ x. x) made (has_texts term) term) }
{
    let Some(form) = meaning_of(alloc, form, Between::Quotes)? else {
        return Ok(None);
    };
    Ok(Some(Term::Literal {
        form,
        datatype: xsd_string(alloc)?,
    }))
}

#[tactic(auto, unfolding(crate::specs::Cell::xsd_string))]
fn xsd_string(alloc: Global) -> Result<Text, Want>
    ensures { IfOk result (λ made. made ≡ xsd_string) }
{
    Text::of(alloc, XSD_STRING)
}

fn typed_term(alloc: Global, form: &[u8], datatype: &[u8]) -> Result<Option<Term>, Want>
    ensures { IfOk result (λ made. let term = Literal (text_of Quotes form.now) (text_of Brackets datatype.now) in Makes (λ x. x) made (has_texts term) term) }
{
    let Some(form) = meaning_of(alloc, form, Between::Quotes)? else {
        return Ok(None);
    };
    match meaning_of(alloc, datatype, Between::Brackets)? {
        Some(datatype) => Ok(Some(Term::Literal { form, datatype })),
        None => Ok(None),
    }
}

fn tagged_term(alloc: Global, form: &[u8], tag: &[u8]) -> Result<Option<Term>, Want>
    ensures { IfOk result (λ made. let term = Tagged (text_of Quotes form.now) (map to_ascii_lowercase tag.now) in Makes (λ x. x) made (has_texts term) term) }
{
    let Some(form) = meaning_of(alloc, form, Between::Quotes)? else {
        return Ok(None);
    };
    let lower = lower_case(alloc, tag)?;
    match text_from(alloc, &lower)? {
        Some(tag) => Ok(Some(Term::Tagged { form, tag })),
        None => Ok(None),
    }
}

/// `subject ::= IRIREF | BLANK_NODE_LABEL`
#[tactic(auto, unfolding(crate::specs::Reading::subject_at))]
pub fn read_subject(bytes: &[u8]) -> Option<(Token<'_>, &[u8])>
    ensures { ReadsFront (λ found. (term_of found.0, found.1.now)) result (subject_at bytes.now) }
{
    match bytes.first() {
        None => None,
        Some(b'<') => read_iri_ref(bytes),
        Some(_) => read_node(bytes),
    }
}

/// `object ::= IRIREF | BLANK_NODE_LABEL | literal`
#[tactic(auto, unfolding(crate::specs::Reading::object_at))]
pub fn read_object(bytes: &[u8]) -> Option<(Token<'_>, &[u8])>
    ensures { ReadsFront (λ found. (term_of found.0, found.1.now)) result (object_at bytes.now) }
{
    match bytes.first() {
        None => None,
        Some(b'<') => read_iri_ref(bytes),
        Some(b'_') => read_node(bytes),
        Some(_) => read_literal(bytes),
    }
}

/// ``IRIREF ::= '<' ([^#x00-#x20<>"{}|^`\] | UCHAR)* '>'``, and `predicate ::= IRIREF`.
#[tactic(auto, unfolding(crate::specs::Reading::iriref_at))]
pub fn read_iri_ref(bytes: &[u8]) -> Option<(Token<'_>, &[u8])>
    ensures { ReadsFront (λ found. (term_of found.0, found.1.now)) result (iriref_at bytes.now) }
{
    let (iri, behind) = read_enclosed(bytes, Between::Brackets)?;
    Some((Token::Iri(iri), behind))
}

/// `BLANK_NODE_LABEL ::= '_:' (PN_CHARS_U | [0-9]) ((PN_CHARS | '.')* PN_CHARS)?`
#[tactic(auto, unfolding(crate::specs::Reading::node_at))]
fn read_node(bytes: &[u8]) -> Option<(Token<'_>, &[u8])>
    ensures { ReadsFront (λ found. (term_of found.0, found.1.now)) result (node_at bytes.now) }
{
    match bytes {
        [b'_', rest @ ..] => read_behind_colon(rest),
        _ => None,
    }
}

/// A BLANK_NODE_LABEL behind its `'_'`.
fn read_behind_colon(bytes: &[u8]) -> Option<(Token<'_>, &[u8])>
    ensures { ReadsFront (λ found. (term_of found.0, found.1.now)) result (behind_colon bytes.now) }
{
    match bytes {
        [b':', inside @ ..] => read_label(inside),
        _ => None,
    }
}

/// A BLANK_NODE_LABEL behind its `'_:'`, as far as it goes.
fn read_label(bytes: &[u8]) -> Option<(Token<'_>, &[u8])>
    ensures { ReadsFront (λ found. (term_of found.0, found.1.now)) result (labelled (without_dot (run is_label_byte bytes.now)) bytes.now) }
{
    let (run, _) = cut_run(bytes, Class::LabelCharacter);
    let label = without_dot(run);
    let (_, behind) = bytes.split_at(label.len());
    let Some(label) = label_of(label) else {
        return None;
    };
    Some((Token::Blank(label), behind))
}

/// `literal ::= STRING_LITERAL_QUOTE ('^^' IRIREF | LANGTAG)?`
#[tactic(auto, unfolding(crate::specs::Reading::literal_at))]
fn read_literal(bytes: &[u8]) -> Option<(Token<'_>, &[u8])>
    ensures { ReadsFront (λ found. (term_of found.0, found.1.now)) result (literal_at bytes.now) }
{
    let (form, rest) = read_enclosed(bytes, Between::Quotes)?;
    read_mark(form, rest)
}

/// The literal's mark, if there is one: `('^^' IRIREF | LANGTAG)?`.
#[tactic(auto, unfolding(crate::specs::Reading::mark_at))]
fn read_mark<'a>(form: &'a [u8], rest: &'a [u8]) -> Option<(Token<'a>, &'a [u8])>
    ensures { ReadsFront (λ found. (term_of found.0, found.1.now)) result (mark_at (text_of Quotes form.now) rest.now) }
{
    let Some((first, behind)) = skip_white(rest).split_first() else {
        return Some((Token::Plain(form), rest));
    };
    match *first {
        b'^' => read_typed(form, behind),
        b'@' => read_tagged(form, behind),
        _ => Some((Token::Plain(form), rest)),
    }
}

/// `'^^' IRIREF`, behind the first `'^'`.
fn read_typed<'a>(form: &'a [u8], bytes: &'a [u8]) -> Option<(Token<'a>, &'a [u8])>
    ensures { ReadsFront (λ found. (term_of found.0, found.1.now)) result (typed (text_of Quotes form.now) bytes.now) }
{
    let [b'^', rest @ ..] = bytes else {
        return None;
    };
    let (datatype, behind) = read_enclosed(skip_white(rest), Between::Brackets)?;
    Some((Token::Typed { form, datatype }, behind))
}

/// `LANGTAG ::= '@' [a-zA-Z]+ ('-' [a-zA-Z0-9]+)*`, behind its `'@'`.
fn read_tagged<'a>(form: &'a [u8], bytes: &'a [u8]) -> Option<(Token<'a>, &'a [u8])>
    ensures { ReadsFront (λ found. (term_of found.0, found.1.now)) result (tagged (text_of Quotes form.now) bytes.now) }
{
    let (tag, behind) = cut_run(bytes, Class::TagCharacter);
    if is_tag(tag) {
        Some((Token::Tagged { form, tag }, behind))
    } else {
        None
    }
}

/// A text between its brackets or quotes, and the bytes behind them: an IRIREF, or
/// `STRING_LITERAL_QUOTE ::= '"' ([^#x22#x5C#xA#xD] | ECHAR | UCHAR)* '"'`.
#[tactic(auto, unfolding(crate::specs::Reading::enclosed_at))]
fn read_enclosed(bytes: &[u8], between: Between) -> Option<(&[u8], &[u8])>
    ensures { ReadsFront (λ found. (text_of between found.0.now, found.1.now)) result (enclosed_at between bytes.now) }
{
    let Some((first, inside)) = bytes.split_first() else {
        return None;
    };
    if *first != opening(between) {
        return None;
    }
    let (text, rest) = cut_text(inside, between);
    let Some((last, behind)) = rest.split_first() else {
        return None;
    };
    if *last == closing(between) {
        Some((text, behind))
    } else {
        None
    }
}

fn opening(between: Between) -> u8
    ensures { result ≡ opening between }
{
    match between {
        Between::Brackets => b'<',
        Between::Quotes => b'"',
    }
}

fn closing(between: Between) -> u8
    ensures { result ≡ closing between }
{
    match between {
        Between::Brackets => b'>',
        Between::Quotes => b'"',
    }
}
