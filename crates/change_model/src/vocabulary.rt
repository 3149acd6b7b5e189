//! The terms of a change.
ghost use Rattle.std.specs.Prelude.{◌≡◌, ◌∷◌, [], map, IfOk, OnOk};
ghost use Rattle.term_core.specs.Spelling.{spelling};
ghost use Rattle.change_model.specs.Entries.{IsVocabularyOf, IsPlaced};
ghost use Rattle.change_model.specs.Lexicon.{with_term, with_terms};
ghost use Rattle.change_model.specs.Vocabulary.{StandsAt};

use crate::spelled::spelled;
use crate::term_key::TermKey;
use base_core::{List, Want};
use fed_bytes::Key;
use indexmap::IndexSet;
use std::alloc::Global;
use term_core::{Statement, Term};

/// Where the terms of a statement stand in a list of terms, from 0.
#[derive(Clone, Copy, Debug, PartialEq, Eq)]
pub struct Places {
    pub subject: u32,
    pub predicate: u32,
    pub object: u32,
}

/// The distinct terms of a change by first appearance, and where each statement's terms stand there.
#[derive(Debug, Drop)]
pub struct Vocabulary {
    pub terms: List<Term>,
    /// For each of the terms its spelling.
    pub spellings: List<Key>,
    pub places: List<Places>,
}

/// The distinct terms so far.
type Known<'a> = IndexSet<TermKey<'a>>;

/// The terms of these statements.
pub fn vocabulary_of(alloc: Global, statements: &List<Statement>) -> Result<Vocabulary, Want>
    ensures { IfOk result (IsVocabularyOf statements.now) }
{
    let statements = statements.items();
    let mut known = IndexSet::new(alloc);
    let mut places = Vec::with_capacity(alloc, statements.len())?;
    'statements: for statement in statements {
        places.push(places_of(&mut known, statement)?)?;
    }
    let terms = copies(alloc, &known)?;
    let spellings = spellings(alloc, &terms)?;
    Ok(Vocabulary {
        terms: List::of(terms),
        spellings: List::of(spellings),
        places: List::of(places),
    })
}

/// The places of the statement's terms, after those that are new have one.
fn places_of<'a>(known: &mut Known<'a>, statement: &'a Statement) -> Result<Places, Want>
    ensures terms { OnOk result (known.new.keys ≡ with_terms known.old.keys
        (statement.now.subject ∷ statement.now.predicate ∷ statement.now.object ∷ [])) }
    ensures placed { IfOk result (IsPlaced known.new.keys statement.now) }
{
    Ok(Places {
        subject: place_of(known, &statement.subject)?,
        predicate: place_of(known, &statement.predicate)?,
        object: place_of(known, &statement.object)?,
    })
}

/// The place of the term, the next one if it is new.
fn place_of<'a>(known: &mut Known<'a>, term: &'a Term) -> Result<u32, Want>
    ensures terms { OnOk result (known.new.keys ≡ with_term known.old.keys term.now) }
    ensures place { IfOk result (StandsAt known.new.keys term.now) }
{
    let (place, _) = known.insert_full(TermKey::of(term))?;
    match u32::try_from(place) {
        Ok(place) => Ok(place),
        Err(_) => Err(Want::NoMemory),
    }
}

fn copies(alloc: Global, known: &Known<'_>) -> Result<Vec<Term>, Want>
    ensures { IfOk result (λ made. made.items ≡ known.now.keys) }
{
    let mut terms = Vec::with_capacity(alloc, known.len())?;
    'terms: for key in known {
        terms.push(key.term().copy(alloc)?)?;
    }
    Ok(terms)
}

fn spellings(alloc: Global, terms: &[Term]) -> Result<Vec<Key>, Want>
    ensures { IfOk result (λ made. made.items ≡ map spelling terms.now) }
{
    let mut spellings = Vec::with_capacity(alloc, terms.len())?;
    'terms: for term in terms {
        spellings.push(spelled(alloc, term)?)?;
    }
    Ok(spellings)
}
