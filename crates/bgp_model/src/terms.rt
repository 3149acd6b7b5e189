//! The distinct terms of a query, for each of which an id is looked up once.
ghost use Rattle.std.specs.Prelude.{◌≡◌, ◌++◌, ◌↔◌, List as Items, IfOk, OnOk, IsTrue};
ghost use Rattle.term_core.specs.declared.term.Term.{Term as Meaning};
ghost use Rattle.base_core.specs.Lists.{Has};
ghost use Rattle.bgp_model.specs.QueryTerms.{fixed_in, terms_of};
ghost use Rattle.bgp_model.specs.GatheredTerms.{IsGathered, fixed_in_pattern};

use crate::query::{Pattern, Query, Slot};
use base_core::{List, Want};
use std::alloc::Global;
use std::collections::BTreeSet;
use term_core::Term;

/// The distinct terms of a query's patterns, by first appearance: by pattern, then subject, predicate, object.
pub fn query_terms(alloc: Global, query: &Query) -> Result<List<Term>, Want>
    ensures { IfOk result (λ terms. terms ≡ terms_of query.now) }
{
    let mut terms = Vec::new(alloc);
    let mut seen = BTreeSet::new(alloc);
    'patterns: for pattern in query.patterns.items() {
        gather_pattern(alloc, pattern, &mut terms, &mut seen)?;
    }
    Ok(List::of(terms))
}

/// Adds the terms of a pattern that aren't there yet.
fn gather_pattern(
    alloc: Global,
    pattern: &Pattern,
    terms: &mut Vec<Term>,
    seen: &mut BTreeSet<Term>,
) -> Result<(), Want>
    ensures { OnOk result ((before : Items Meaning) → IsGathered before terms.old.items seen.old.keys
        → IsGathered (before ++ fixed_in_pattern pattern.now) terms.new.items seen.new.keys) }
{
    gather(alloc, &pattern.subject, terms, seen)?;
    gather(alloc, &pattern.predicate, terms, seen)?;
    gather(alloc, &pattern.object, terms, seen)?;
    Ok(())
}

/// Adds the term of a slot, if it has one that isn't there yet.
fn gather(
    alloc: Global,
    slot: &Slot,
    terms: &mut Vec<Term>,
    seen: &mut BTreeSet<Term>,
) -> Result<(), Want>
    ensures { OnOk result ((before : Items Meaning) → IsGathered before terms.old.items seen.old.keys
        → IsGathered (before ++ fixed_in slot.now) terms.new.items seen.new.keys) }
{
    let Slot::Fixed(term) = slot else {
        return Ok(());
    };
    if is_seen(seen, term) {
        return Ok(());
    }
    let copy = term.copy(alloc)?;
    seen.insert(copy)?;
    let copy = term.copy(alloc)?;
    terms.push(copy)?;
    Ok(())
}

fn is_seen(seen: &BTreeSet<Term>, term: &Term) -> bool
    ensures { IsTrue result ↔ Has seen.now.keys term.now }
{
    seen.contains(term)
}
