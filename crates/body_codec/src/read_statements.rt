//! Reading the statements of a body. Each names its terms by their places, and a place is named only where each lower
//! one is named before. So one number tells which places may be named.
ghost use Rattle.std.specs.Prelude.{◌≡◌, ◌≢◌, ◌<◌, ◌≤◌, ◌+◌, ◌^◌, ◌++◌, [], ◌∷◌, ℕ, List as Items, length, MatchOption, IfOk, IfErr, IfSome, IfNone};
ghost use Rattle.term_core.specs.Term.{MayBeSubject, MayBePredicate};
ghost use Rattle.change_model.specs.declared.vocabulary.Places.{Places as AnyPlaces};
ghost use Rattle.change_model.specs.Vocabulary.{StandsAt};
ghost use Rattle.body_codec.specs.Body.{statement_field, numbers, NamesA, IsInTurn, AreInTurn, NameTerms, IsPlacing, spelled_total};
ghost use Rattle.body_codec.specs.Reading.{AreReadStatements, IsBadStatementAt, AreNamed, AreSmall, named_in, IsStatementIn, IsStatementOf, IsNext};

use crate::fault::BodyFault;
use crate::field::{MOST_SPELLED, number_in};
use crate::spelled::spelled_size;
use base_core::Want;
use change_model::Places;
use std::alloc::Global;
use term_core::{Statement, Term};

/// The statements of a body, and the bytes behind them.
#[derive(Drop)]
pub(crate) struct ReadStatements<'a> {
    pub(crate) statements: Vec<Statement>,
    /// The least place that no statement names.
    pub(crate) next: usize,
    pub(crate) rest: &'a [u8],
    /// The offset of the rest in the body.
    pub(crate) at: u32,
}

/// So many statements over these terms. They begin at the offset.
pub(crate) fn read_statements<'a>(
    alloc: Global,
    terms: &[Term],
    count: u32,
    bytes: &'a [u8],
    start: u32,
) -> Result<ReadStatements<'a>, BodyFault>
    requires few { length terms.now < 2 ^ 32 }
    requires fits { start + length bytes.now < 2 ^ 32 }
    ensures found { IfOk result (λ read. AreReadStatements terms.now bytes.now read.statements.items read.next read.rest.now) }
    ensures all { IfOk result (λ read. length read.statements.items ≡ count) }
    ensures small { IfOk result (λ read. spelled_total read.statements.items ≤ 38254432) }
    ensures at { IfOk result (λ read. read.at + length read.rest.now ≡ start + length bytes.now) }
    ensures fault { IfErr result (IsBadStatementAt terms.now count bytes.now start) }
{
    let mut statements = Vec::new(alloc);
    let mut next = 0;
    let mut rest = bytes;
    let mut at = start;
    let mut spelled = 0;
    'statements: for _place in 0..count {
        let Some(read) = read_statement(terms, next, rest) else {
            return Err(BodyFault::BadBody { at });
        };
        let Some(more) = with_statement(spelled, read.terms) else {
            return Err(BodyFault::NoMemory);
        };
        statements.push(statement_of(alloc, read.terms)?)?;
        spelled = more;
        next = read.next;
        rest = read.rest;
        at += 12;
    }
    Ok(ReadStatements {
        statements,
        next,
        rest,
        at,
    })
}

/// The terms of a statement, where they stand in a list.
#[derive(Clone, Copy)]
struct Named<'a> {
    subject: &'a Term,
    predicate: &'a Term,
    object: &'a Term,
}

/// In how many bytes the terms of all statements are spelled with those of this one, unless that is too much.
fn with_statement(spelled: u64, terms: Named<'_>) -> Option<u64>
    ensures { IfSome result (λ more. (more ≡ spelled + named_in terms.entry) × (more ≤ 38254432)) }
{
    let more = spelled
        .saturating_add(spelled_size(terms.subject))
        .saturating_add(spelled_size(terms.predicate))
        .saturating_add(spelled_size(terms.object));
    if more > MOST_SPELLED {
        return None;
    }
    Some(more)
}

/// The statement of these terms.
fn statement_of(alloc: Global, terms: Named<'_>) -> Result<Statement, Want>
    ensures { IfOk result (IsStatementOf terms.entry) }
{
    Ok(Statement {
        subject: terms.subject.copy(alloc)?,
        predicate: terms.predicate.copy(alloc)?,
        object: terms.object.copy(alloc)?,
    })
}

/// A statement and the bytes behind it.
#[derive(Clone, Copy)]
struct ReadStatement<'t, 'b> {
    terms: Named<'t>,
    /// The least place that no statement names up to here.
    next: usize,
    rest: &'b [u8],
}

/// The statement that the bytes begin with, where its terms may stand in it and in their turn.
fn read_statement<'t, 'b>(
    terms: &'t [Term],
    next: usize,
    bytes: &'b [u8],
) -> Option<ReadStatement<'t, 'b>>
    requires { length terms.now < 2 ^ 32 }
    ensures none { IfNone result ((before : Items ℕ) (places : AnyPlaces) (behind : Items ℕ) → IsNext before next →
        IsPlacing terms.now before places → bytes.now ≢ statement_field places ++ behind) }
    ensures found { IfSome result (λ read. IsStatementIn terms.now next bytes.now read.terms read.next read.rest.now) }
{
    let Some((places, rest)) = places_in(bytes) else {
        return None;
    };
    let Some(named) = terms_at(terms, places) else {
        return None;
    };
    let Some(next) = after_statement(next, places) else {
        return None;
    };
    Some(ReadStatement {
        terms: named,
        next,
        rest,
    })
}

/// The places that the bytes begin with, and what is behind them. There are none where there are fewer than twelve bytes.
fn places_in(bytes: &[u8]) -> Option<(Places, &[u8])>
    ensures cases { MatchOption result (length bytes.now < 12) (λ found. bytes.now ≡ statement_field found.0 ++ found.1.now) }
    ensures small { IfSome result (λ found. AreSmall found.0) }
{
    let Some(subject) = number_in(bytes) else {
        return None;
    };
    let Some(predicate) = number_in(subject.rest) else {
        return None;
    };
    let Some(object) = number_in(predicate.rest) else {
        return None;
    };
    let places = Places {
        subject: subject.value,
        predicate: predicate.value,
        object: object.value,
    };
    Some((places, object.rest))
}

/// The terms at these places, where they may stand in a statement so.
fn terms_at(terms: &[Term], places: Places) -> Option<Named<'_>>
    ensures none { IfNone result (¬ NameTerms terms.now places) }
    ensures names { IfSome result (λ found. NameTerms terms.now places) }
    ensures named { IfSome result (AreNamed terms.now places) }
{
    let Some(subject) = subject_at(terms, places.subject) else {
        return None;
    };
    let Some(predicate) = predicate_at(terms, places.predicate) else {
        return None;
    };
    let Some(object) = terms.get(places.object as usize) else {
        return None;
    };
    Some(Named {
        subject,
        predicate,
        object,
    })
}

fn subject_at(terms: &[Term], place: u32) -> Option<&Term>
    ensures none { IfNone result (¬ NamesA MayBeSubject terms.now place) }
    ensures stands { IfSome result (λ term. StandsAt terms.now term.now place) }
    ensures may { IfSome result (λ term. MayBeSubject term.now) }
{
    let Some(term) = terms.get(place as usize) else {
        return None;
    };
    match term {
        Term::Iri(_) | Term::Blank { .. } => Some(term),
        Term::Literal { .. } | Term::Tagged { .. } => None,
    }
}

fn predicate_at(terms: &[Term], place: u32) -> Option<&Term>
    ensures none { IfNone result (¬ NamesA MayBePredicate terms.now place) }
    ensures stands { IfSome result (λ term. StandsAt terms.now term.now place) }
    ensures may { IfSome result (λ term. MayBePredicate term.now) }
{
    let Some(term) = terms.get(place as usize) else {
        return None;
    };
    match term {
        Term::Iri(_) => Some(term),
        Term::Literal { .. } | Term::Tagged { .. } | Term::Blank { .. } => None,
    }
}

/// The least place that isn't named after these three are, each of which must stand in its turn.
fn after_statement(next: usize, places: Places) -> Option<usize>
    ensures none { IfNone result ((before : Items ℕ) → IsNext before next → ¬ AreInTurn before places) }
    ensures turns { IfSome result (λ after. (before : Items ℕ) → IsNext before next → AreInTurn before places) }
    ensures after { IfSome result (λ after. (before : Items ℕ) → IsNext before next → IsNext (before ++ numbers places) after) }
{
    let Some(next) = after_place(next, places.subject) else {
        return None;
    };
    let Some(next) = after_place(next, places.predicate) else {
        return None;
    };
    after_place(next, places.object)
}

/// The least place that isn't named after this one is. It must be at most the least that isn't named before.
fn after_place(next: usize, place: u32) -> Option<usize>
    ensures none { IfNone result ((before : Items ℕ) → IsNext before next → ¬ IsInTurn before place) }
    ensures turn { IfSome result (λ after. (before : Items ℕ) → IsNext before next → IsInTurn before place) }
    ensures after { IfSome result (λ after. (before : Items ℕ) → IsNext before next → IsNext (before ++ place ∷ []) after) }
{
    let place = place as usize;
    if place > next {
        return None;
    }
    Some(if place == next { place + 1 } else { next })
}
