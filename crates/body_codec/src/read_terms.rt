//! Reading the terms of a body. None may stand there twice, so the spellings that were read are kept in a set.
ghost use Rattle.std.specs.Prelude.{◌≡◌, ◌↔◌, ◌⊎◌, ◌<◌, ◌+◌, ◌^◌, ◌++◌, [], ℕ, List as Items, length, IfOk, IfErr, IsTrue};
ghost use Rattle.std.specs.List.{AllByRecursion};
ghost use Rattle.term_core.specs.declared.term.Term.{Term as AnyTerm};
ghost use Rattle.base_core.specs.Lists.{Has};
ghost use Rattle.term_core.specs.Spelling.{spelling};
ghost use Rattle.body_codec.specs.Body.{term_field, head_and_terms, MayStandIn, IsTermOf};
ghost use Rattle.body_codec.specs.Faults.{BeginWithTerms};
ghost use Rattle.body_codec.specs.Reading.{IsBadBodyAt, IsBadTermAt, IsNoTermAt, AreSpellings};

use crate::fault::BodyFault;
use crate::field::number_in;
use crate::spelled::Spelled;
use change_model::Kind;
use std::alloc::Global;
use std::collections::BTreeSet;
use term_core::{Term, TermFault};

/// The offset of the first term.
const BEHIND_COUNT: u32 = 6;

/// The terms of a body, and the bytes behind them.
#[derive(Drop)]
pub(crate) struct ReadTerms<'a> {
    pub(crate) terms: Vec<Term>,
    pub(crate) rest: &'a [u8],
    /// The offset of the rest in the body.
    pub(crate) at: u32,
}

/// So many terms, which stand in the body of a change of this kind behind their count.
pub(crate) fn read_terms(
    alloc: Global,
    kind: Kind,
    count: u32,
    bytes: &[u8],
) -> Result<ReadTerms<'_>, BodyFault>
    requires { length bytes.now + 6 < 2 ^ 32 }
    ensures found { IfOk result (λ found.
        BeginWithTerms (head_and_terms kind count [] ++ bytes.now) kind count found.terms.items found.rest.now) }
    ensures all { IfOk result (λ found. length found.terms.items ≡ count) }
    ensures at { IfOk result (λ found. found.at + length found.rest.now ≡ length bytes.now + 6) }
    ensures fault { IfErr result (IsBadBodyAt (head_and_terms kind count [] ++ bytes.now)) }
{
    let mut terms = Vec::new(alloc);
    let mut seen = BTreeSet::new(alloc);
    let mut rest = bytes;
    let mut at = BEHIND_COUNT;
    'terms: for _place in 0..count {
        let next = read_new_term(alloc, kind, &mut seen, rest, at)?;
        terms.push(next.term)?;
        rest = next.rest;
        at = next.end;
    }
    Ok(ReadTerms { terms, rest, at })
}

/// A term and the bytes behind it.
#[derive(Drop)]
struct ReadTerm<'a> {
    term: Term,
    rest: &'a [u8],
    /// The offset of the rest in the body.
    end: u32,
}

/// The term that the bytes begin with, at this offset, where its spelling is none of those that were seen. It is one of
/// them then.
fn read_new_term<'a>(
    alloc: Global,
    kind: Kind,
    seen: &mut BTreeSet<Spelled<'a>>,
    bytes: &'a [u8],
    at: u32,
) -> Result<ReadTerm<'a>, BodyFault>
    requires { at + length bytes.now < 2 ^ 32 }
    ensures is { IfOk result (λ found. IsTermOf kind found.term) }
    ensures cut { IfOk result (λ found. bytes.now ≡ term_field found.term ++ found.rest.now) }
    ensures end { IfOk result (λ found. found.end + length found.rest.now ≡ at + length bytes.now) }
    ensures new { IfOk result (λ found. ¬ Has seen.old.keys (spelling found.term)) }
    ensures seen { IfOk result (λ found. (spelled : Items ℕ) →
        Has seen.new.keys spelled ↔ (Has seen.old.keys spelled ⊎ (spelling found.term ≡ spelled))) }
    ensures fault { (before : Items AnyTerm) → AllByRecursion (IsTermOf kind) before → AreSpellings before seen.old.keys →
        IfErr result (IsBadTermAt kind before bytes.now at) }
{
    let Some(size) = number_in(bytes) else {
        return Err(BodyFault::BadBody { at });
    };
    let start = at + 4;
    let Some((spelled, rest)) = size.rest.split_at_checked(size.value as usize) else {
        return Err(BodyFault::BadBody { at: start });
    };
    let term = term_of(alloc, kind, spelled, start)?;
    if !seen.insert(Spelled::of(spelled))? {
        return Err(BodyFault::BadBody { at: start });
    }
    let end = start + size.value;
    Ok(ReadTerm { term, rest, end })
}

/// The term of this spelling, where it may stand in a change of this kind. The spelling begins at the offset.
fn term_of(alloc: Global, kind: Kind, spelled: &[u8], at: u32) -> Result<Term, BodyFault>
    requires { length spelled.now < 2 ^ 32 }
    ensures is { IfOk result (IsTermOf kind) }
    ensures spelled { IfOk result (λ term. spelled.now ≡ spelling term) }
    ensures fault { IfErr result (IsNoTermAt kind spelled.now at) }
{
    let term = match Term::decode(alloc, spelled) {
        Ok(term) => term,
        Err(TermFault::NoMemory) => return Err(BodyFault::NoMemory),
        Err(TermFault::BadTerm { .. }) => return Err(BodyFault::BadBody { at }),
    };
    if !may_stand_in(kind, &term) {
        return Err(BodyFault::BadBody { at });
    }
    Ok(term)
}

/// Whether the term may stand in a change of this kind.
fn may_stand_in(kind: Kind, term: &Term) -> bool
    ensures { IsTrue result ↔ MayStandIn kind term.now }
{
    match term {
        Term::Iri(_) | Term::Literal { .. } | Term::Tagged { .. } => true,
        Term::Blank { at, .. } => may_have_nodes(kind) && *at == 0,
    }
}

/// A Remove has no blank nodes.
fn may_have_nodes(kind: Kind) -> bool
    ensures { IsTrue result ↔ (kind ≡ Kind.Add) }
{
    match kind {
        Kind::Add => true,
        Kind::Remove => false,
    }
}
