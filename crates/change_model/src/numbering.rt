//! The ids of the terms and statements of a change once it is committed.
ghost use Rattle.std.specs.Prelude.{◌≡◌, ℕ, ◌+◌, ◌<◌, ◌^◌, ◌++◌, ◌∷◌, [], map, slice_index_or, slice_get, option_copied, IfOk, IfSome, OnOk, MatchOption, None};
ghost use Rattle.std.specs.List.{filter_map};
ghost use Rattle.std.specs.Prelude.{List as Items};
ghost use Rattle.term_core.specs.declared.term.Term.{Term as AnyTerm};
ghost use Rattle.term_core.specs.declared.term.Term.TheVariants.{Blank};
ghost use Rattle.term_core.specs.Spelling.{spelling as spelling_of};
ghost use Rattle.term_core.specs.Term.{IsTerm};
ghost use Rattle.change_model.specs.History.{bound_term};
ghost use Rattle.change_model.specs.Lexicon.{with_terms, brought};
ghost use Rattle.change_model.specs.Numbering.{AreIdsAt, AreSpelled, AreNextTo, IsNumbering, IsBase, IsUnlabelled, IsNext, IsGiving, IsGiven, BindWell, nodes_of, ids_at};

use crate::entry::Resolved;
use crate::history::Kind;
use crate::label::Label;
use crate::spelled::spelled;
use crate::vocabulary::{Places, Vocabulary};
use base_core::{Text, Want};
use fed_bytes::Key;
use std::alloc::Global;
use std::collections::HashMap;
use term_core::Term;
use triple_keys::Ids;

/// A term that got a new id.
#[derive(Debug, Drop)]
pub(crate) struct NewTerm {
    /// The spelling of the term, with its label bound.
    pub(crate) key: Key,
    pub(crate) id: u64,
}

/// The ids of the terms of a vocabulary.
#[derive(Drop)]
pub(crate) struct Numbered {
    /// How many ids there are.
    pub(crate) count: u64,
    /// For each term its id.
    pub(crate) ids: Vec<Option<u64>>,
    /// The terms that have a new id, in the sequence of these.
    pub(crate) brought: Vec<NewTerm>,
}

/// The ids of the terms of a change that is committed at this time, when `terms` ids were given out before, and its terms
/// have these. An Add gives the next ones to terms that have none.
pub(crate) fn number_terms(
    alloc: Global,
    resolved: &Resolved,
    known: Vec<Option<u64>>,
    terms: u64,
    time: u64,
) -> Result<Numbered, Want>
    ensures ids { IfOk result (λ made. (base : Items AnyTerm) → IsBase base terms time → AreSpelled resolved.now.vocabulary →
        BindWell time resolved.now.vocabulary.terms → AreIdsAt time base resolved.now.vocabulary.terms known.items →
        AreIdsAt time (with_terms base (brought resolved.now.change.kind (map (bound_term time) resolved.now.vocabulary.terms)))
        resolved.now.vocabulary.terms made.ids.items) }
    ensures numbering { IfOk result (λ made. (base : Items AnyTerm) → IsBase base terms time → AreSpelled resolved.now.vocabulary →
        BindWell time resolved.now.vocabulary.terms → AreIdsAt time base resolved.now.vocabulary.terms known.items →
        IsNumbering base (with_terms base (brought resolved.now.change.kind (map (bound_term time) resolved.now.vocabulary.terms)))
        made.count made.brought.items) }
    ensures rising { IfOk result (λ made. AreNextTo terms made.brought.items made.count) }
{
    match resolved.change.kind {
        Kind::Add => give_ids(alloc, &resolved.vocabulary, &known, terms, time),
        Kind::Remove => Ok(Numbered {
            count: terms,
            ids: known,
            brought: Vec::new(alloc),
        }),
    }
}

/// The ids of these terms, bound at the time, the next ones for those that have none.
fn give_ids(
    alloc: Global,
    vocabulary: &Vocabulary,
    ids: &[Option<u64>],
    count: u64,
    time: u64,
) -> Result<Numbered, Want>
    ensures ids { IfOk result (λ made. (base : Items AnyTerm) → IsBase base count time → AreSpelled vocabulary.now →
        BindWell time vocabulary.now.terms → AreIdsAt time base vocabulary.now.terms ids.now →
        AreIdsAt time (with_terms base (map (bound_term time) vocabulary.now.terms)) vocabulary.now.terms made.ids.items) }
    ensures numbering { IfOk result (λ made. (base : Items AnyTerm) → IsBase base count time → AreSpelled vocabulary.now →
        BindWell time vocabulary.now.terms → AreIdsAt time base vocabulary.now.terms ids.now →
        IsNumbering base (with_terms base (map (bound_term time) vocabulary.now.terms)) made.count made.brought.items) }
    ensures rising { IfOk result (λ made. AreNextTo count made.brought.items made.count) }
{
    let terms = vocabulary.terms.items();
    let mut giving = Giving {
        count,
        brought: Vec::new(alloc),
        nodes: HashMap::new(alloc),
    };
    let mut given = Vec::with_capacity(alloc, terms.len())?;
    'terms: for (place, term) in terms.iter().enumerate() {
        let spelling = key_at(vocabulary.spellings.items(), place);
        let id = giving.id_for(alloc, term, spelling, id_at(ids, place), time)?;
        given.push(Some(id))?;
    }
    Ok(Numbered {
        count: giving.count,
        ids: given,
        brought: giving.brought,
    })
}

/// Ids as they are given to the terms of a change, one term after the other.
#[derive(Drop)]
struct Giving<'a> {
    /// How many ids there are.
    count: u64,
    brought: Vec<NewTerm>,
    /// The ids of the labels of the terms so far.
    nodes: HashMap<Label<'a>, u64>,
}

impl<'a> Giving<'a> {
    /// The id of the term, bound at the time: the one that it has, or the next one.
    fn id_for(
        &mut self,
        alloc: Global,
        term: &'a Term,
        spelling: Option<&Key>,
        id: Option<u64>,
        time: u64,
    ) -> Result<u64, Want>
        ensures given { IfOk result (λ given. (base known : Items AnyTerm) → IsNext base known time term.now id →
            IfSome spelling.entry (λ key. key.now ≡ spelling_of term.now) →
            IsGiving base known time self.old.count self.old.brought.items (nodes_of self.old.nodes) →
            IsGiven base known time term.now given self.new.count self.new.brought.items (nodes_of self.new.nodes)) }
        ensures rising { OnOk result ((first : ℕ) → AreNextTo first self.old.brought.items self.old.count → AreNextTo first self.new.brought.items self.new.count) }
    {
        match label_of(term) {
            Some(label) => self.node_id(alloc, label, time),
            None => self.plain_id(alloc, term, spelling, id),
        }
    }

    /// The id of a term without a label.
    fn plain_id(
        &mut self,
        alloc: Global,
        term: &Term,
        spelling: Option<&Key>,
        id: Option<u64>,
    ) -> Result<u64, Want>
        ensures given { IfOk result (λ given. (base known : Items AnyTerm) (time : ℕ) → IsUnlabelled term.now →
            IsNext base known time term.now id → IfSome spelling.entry (λ key. key.now ≡ spelling_of term.now) →
            IsGiving base known time self.old.count self.old.brought.items (nodes_of self.old.nodes) →
            IsGiven base known time term.now given self.new.count self.new.brought.items (nodes_of self.new.nodes)) }
        ensures rising { OnOk result ((first : ℕ) → AreNextTo first self.old.brought.items self.old.count → AreNextTo first self.new.brought.items self.new.count) }
    {
        if let Some(id) = id {
            return Ok(id);
        }
        let key = spelling_for(alloc, term, spelling)?;
        let id = self.next_id(key)?;
        Ok(id)
    }

    /// The id of the label's node, the next one if the label is new.
    fn node_id(&mut self, alloc: Global, label: &'a Text, time: u64) -> Result<u64, Want>
        ensures given { IfOk result (λ given. (base known : Items AnyTerm) → IsTerm (Blank time label.now) →
            IsGiving base known time self.old.count self.old.brought.items (nodes_of self.old.nodes) →
            IsGiven base known time (Blank time label.now) given self.new.count self.new.brought.items (nodes_of self.new.nodes)) }
        ensures rising { OnOk result ((first : ℕ) → AreNextTo first self.old.brought.items self.old.count → AreNextTo first self.new.brought.items self.new.count) }
    {
        if let Some(id) = self.nodes.get(&Label::of(label.text())) {
            return Ok(*id);
        }
        let node = Term::Blank {
            at: time,
            label: label.copy(alloc)?,
        };
        let id = self.next_id(spelled(alloc, &node)?)?;
        self.nodes.insert(Label::of(label.text()), id)?;
        Ok(id)
    }

    /// Gives the next id to the term of this spelling.
    fn next_id(&mut self, key: Key) -> Result<u64, Want>
        ensures id { IfOk result (λ given. given ≡ self.old.count + 1) }
        ensures fits { IfOk result (λ given. given < 2 ^ 64) }
        ensures count { IfOk result (λ given. self.new.count ≡ given) }
        ensures brought { IfOk result (λ given. self.new.brought.items ≡ self.old.brought.items ++ record { key = key; id = given } ∷ []) }
        ensures nodes { OnOk result (self.new.nodes ≡ self.old.nodes) }
    {
        let Some(id) = self.count.checked_add(1) else {
            return Err(Want::NoMemory);
        };
        self.brought.push(NewTerm { key, id })?;
        self.count = id;
        Ok(id)
    }
}

/// The label of the term, if it bears one.
pub(crate) fn label_of(term: &Term) -> Option<&Text>
    ensures { MatchOption result (IsUnlabelled term.now) (λ label. (at : ℕ) × (term.now ≡ Blank at label.now)) }
{
    match term {
        Term::Blank { label, .. } => Some(label),
        Term::Iri(_) | Term::Literal { .. } | Term::Tagged { .. } => None,
    }
}

/// The spelling at the place, if there is one.
pub(crate) fn key_at(spellings: &[Key], place: usize) -> Option<&Key>
    ensures { option_copied result ≡ slice_get spellings.now place }
{
    spellings.get(place)
}

/// The spelling of the term: a copy of the one that is at hand, if there is one.
fn spelling_for(alloc: Global, term: &Term, spelling: Option<&Key>) -> Result<Key, Want>
    ensures { IfOk result (λ made. IfSome spelling.entry (λ key. key.now ≡ spelling_of term.now) → made ≡ spelling_of term.now) }
{
    match spelling {
        Some(spelling) => spelling.copy(alloc),
        None => spelled(alloc, term),
    }
}

/// The id at the place, if there is one.
pub(crate) fn id_at(ids: &[Option<u64>], place: usize) -> Option<u64>
    ensures { result ≡ slice_index_or ids.now place None }
{
    ids.get(place).copied().unwrap_or(None)
}

/// The ids of the statements whose three terms have ids.
pub(crate) fn statement_ids(
    alloc: Global,
    places: &[Places],
    ids: &[Option<u64>],
) -> Result<Vec<Ids>, Want>
    ensures { IfOk result (λ made. made.items ≡ filter_map (ids_at ids.now) places.now) }
{
    let made = places
        .iter()
        .filter_map(|places| ids_of(*places, ids))
        .collect(alloc)?;
    Ok(made)
}

/// The ids of a statement's terms.
fn ids_of(places: Places, ids: &[Option<u64>]) -> Option<Ids>
    ensures { result ≡ ids_at ids.now places }
{
    let Some(subject) = id_at(ids, places.subject as usize) else {
        return None;
    };
    let Some(predicate) = id_at(ids, places.predicate as usize) else {
        return None;
    };
    let Some(object) = id_at(ids, places.object as usize) else {
        return None;
    };
    Some(Ids {
        subject,
        predicate,
        object,
    })
}
