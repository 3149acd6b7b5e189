//! The five indexes of the history, each a window in memory over all keys.
ghost use Rattle.std.specs.Prelude.{◌≡◌, ◌↔◌, ◌++◌, ◌∷◌, ◌<◌, ◌^◌, [], List as Items, length, map, take, drop, IfOk, OnOk, IsNone, IfSome, MatchOption};
ghost use Rattle.std.specs.List.{AllByRecursion};
ghost use Rattle.term_core.specs.declared.term.Term.{Term as AnyTerm};
ghost use Rattle.term_core.specs.Spelling.{spelling};
ghost use Rattle.term_core.specs.Term.{IsTerm, IsStatement};
ghost use Rattle.base_core.specs.Numbers.{number_bytes};
ghost use Rattle.triple_keys.specs.declared.key.Ids.{Ids as TheIds};
ghost use Rattle.row_core.specs.declared.rows.Index.{Index as AnyIndex};
ghost use Rattle.change_model.specs.History.{History};
ghost use Rattle.change_model.specs.Entries.{IsLastEntry, IsIdOf, AreIdsOf, IsResolved};
ghost use Rattle.change_model.specs.Laws.{IsWritable};
ghost use Rattle.change_model.specs.declared.history.Committed.{Committed as AnyCommitted};
ghost use Rattle.bigfed.specs.Indexed.{AreIndexesOf, IsIndexOf, IsLastValue, IsTermOf, window_by, value_in};
ghost use Rattle.bigfed.specs.Adding.{IsNextOf};
ghost use Rattle.join_core.specs.Asking.{Agrees};
ghost use Rattle.bigfed.specs.Solving.{AreGraphIds};

use crate::shown::shown_ids;
use base_core::{List, Want, get_u64, put_u64};
use change_model::{Change, Entry, Resolved, vocabulary_of};
use disk_core::NoDisk;
use fed_bytes::{Key, Span};
use join_core::Ask;
use row_core::{Cell, Row};
use std::alloc::Global;
use term_core::{Term, TermFault};
use triple_keys::{Ids, Order};
use window_core::{LiveWindow, Window};

#[derive(Drop)]
pub struct Indexes {
    t2i: LiveWindow,
    i2t: LiveWindow,
    spo: LiveWindow,
    pos: LiveWindow,
    osp: LiveWindow,
    /// How many ids there are.
    terms: u64,
}

impl Indexes {
    /// The indexes of the empty history.
    pub fn new(alloc: Global) -> Result<Indexes, Want>
        ensures { IfOk result (AreIndexesOf []) }
    {
        Ok(Indexes {
            t2i: empty_index(alloc)?,
            i2t: empty_index(alloc)?,
            spo: empty_index(alloc)?,
            pos: empty_index(alloc)?,
            osp: empty_index(alloc)?,
            terms: 0,
        })
    }

    /// How many ids there are.
    pub fn terms(&self) -> u64
        ensures { result ≡ self.now.terms }
    {
        self.terms
    }

    /// Adds the rows of the next change. After an `Err` some of the windows may have them, and the indexes stand for no
    /// history any more.
    pub fn add(&mut self, alloc: Global, entry: &Entry) -> Result<(), Want>
        requires { IsNextOf self.old entry.now }
        ensures { (history : History) (committed : AnyCommitted) → AreIndexesOf history self.old
            → IsWritable (history ++ committed ∷ []) → IsLastEntry (history ++ committed ∷ []) entry.now
            → OnOk result (AreIndexesOf (history ++ committed ∷ []) self.new) }
    {
        self.t2i.add(alloc, &entry.t2i, entry.time)?;
        self.i2t.add(alloc, &entry.i2t, entry.time)?;
        self.spo.add(alloc, &entry.spo, entry.time)?;
        self.pos.add(alloc, &entry.pos, entry.time)?;
        self.osp.add(alloc, &entry.osp, entry.time)?;
        self.terms = entry.terms;
        Ok(())
    }

    /// The terms of a change, and the ids that they have so far.
    pub fn resolve(&self, alloc: Global, change: Change) -> Result<Resolved, Want>
        requires { AllByRecursion IsStatement change.statements }
        ensures resolved { (history : History) → AreIndexesOf history self.now → IfOk result (IsResolved history) }
        ensures change { IfOk result (λ resolved. resolved.change ≡ change) }
    {
        let vocabulary = vocabulary_of(alloc, &change.statements)?;
        let ids = self.ids_of_spellings(alloc, vocabulary.spellings.items())?;
        Ok(Resolved {
            change,
            vocabulary,
            ids,
        })
    }

    /// For each of the terms its id, if it has one.
    pub fn ids_of_terms(&self, alloc: Global, terms: &[Term]) -> Result<List<Option<u64>>, Want>
        requires { AllByRecursion IsTerm terms.now }
        ensures ids { (history : History) → AreIndexesOf history self.now → IfOk result (AreIdsOf history terms.now) }
        ensures one_each { IfOk result (λ ids. length ids ≡ length terms.now) }
    {
        let mut ids = Vec::new(alloc);
        'terms: for term in terms {
            ids.push(self.id_of(alloc, term)?)?;
        }
        Ok(List::of(ids))
    }

    /// For each of the terms with these spellings its id, if it has one.
    fn ids_of_spellings(&self, alloc: Global, spellings: &[Key]) -> Result<List<Option<u64>>, Want>
        ensures { (history : History) (terms : Items AnyTerm) → AreIndexesOf history self.now → AllByRecursion IsTerm terms
            → spellings.now ≡ map spelling terms → IfOk result (AreIdsOf history terms) }
    {
        let mut ids = Vec::with_capacity(alloc, spellings.len())?;
        'spellings: for spelling in spellings {
            ids.push(self.id_spelled(alloc, spelling.bytes())?)?;
        }
        Ok(List::of(ids))
    }

    /// The id of the term, if it has one.
    pub fn id_of(&self, alloc: Global, term: &Term) -> Result<Option<u64>, Want>
        requires { IsTerm term.now }
        ensures { (history : History) → AreIndexesOf history self.now → IfOk result (IsIdOf history term.now) }
    {
        let key = term.encode(alloc)?;
        self.id_spelled(alloc, key.as_slice())
    }

    /// The id of the term with this spelling, if it has one.
    fn id_spelled(&self, alloc: Global, key: &[u8]) -> Result<Option<u64>, Want>
        ensures { (history : History) (term : AnyTerm) → AreIndexesOf history self.now → IsTerm term
            → key.now ≡ spelling term → IfOk result (IsIdOf history term) }
    {
        match last_value(alloc, &self.t2i, key)? {
            Some(value) => Ok(number_in(value.bytes())),
            None => Ok(None),
        }
    }

    /// The term of the id, if there is one.
    pub fn term_of(&self, alloc: Global, id: u64) -> Result<Option<Term>, Want>
        ensures term { (history : History) → AreIndexesOf history self.now → IfOk result (IsTermOf history id) }
        ensures rules { IfOk result (λ found. IfSome found IsTerm) }
    {
        let mut key = Vec::with_capacity(alloc, 8)?;
        put_u64(id, &mut key)?;
        match last_value(alloc, &self.i2t, key.as_slice())? {
            Some(value) => term_in(alloc, value.bytes()),
            None => Ok(None),
        }
    }

    fn window(&self, order: Order) -> &LiveWindow
        ensures { result.now ≡ window_by self.now order }
    {
        match order {
            Order::Spo => &self.spo,
            Order::Pos => &self.pos,
            Order::Osp => &self.osp,
        }
    }

    /// The ids of the triples in the span of an ask. Takes the logarithm of the index of its order, and the rows of the span.
    pub fn asked(&self, alloc: Global, ask: &Ask) -> Result<List<Ids>, Want>
        ensures { (history : History) (graph : Items TheIds) → AreIndexesOf history self.now → AreGraphIds history graph →
            IfOk result (λ triples. Agrees ask.now triples graph) }
    {
        let window = self.window(ask.order);
        let found = shown_ids(alloc, ask.order, window, &ask.span)?;
        Ok(List::of(found))
    }
}

/// A window over all keys, with no rows.
fn empty_index(alloc: Global) -> Result<LiveWindow, Want>
    ensures { (index : AnyIndex) → IfOk result (IsIndexOf index []) }
{
    let span = Span {
        left: Key::from_bytes(Vec::new(alloc)),
        right: None,
    };
    LiveWindow::make(alloc, span, 0)
}

/// The value of the key's last row, if it is one.
fn last_value(alloc: Global, window: &LiveWindow, key: &[u8]) -> Result<Option<Key>, Want>
    ensures { IfOk result (IsLastValue window.now key.now) }
{
    match window.last(alloc, &mut NoDisk::new(), key, window.upto()) {
        Ok(row) => Ok(value_in(row)),
        // A window in memory answers nothing else.
        Err(_) => Err(Want::NoMemory),
    }
}

fn value_in(row: Option<Row>) -> Option<Key>
    ensures { result ≡ value_in row }
{
    let Some(row) = row else {
        return None;
    };
    let Row {
        key: _,
        time: _,
        cell,
    } = row;
    match cell {
        Cell::Value(value) => Some(value),
        Cell::Deleted => None,
    }
}

/// The number that the first eight bytes spell.
fn number_in(bytes: &[u8]) -> Option<u64>
    ensures short { IsNone result ↔ (length bytes.now < 8) }
    ensures spelled { IfSome result (λ n. take 8 (drop 0 bytes.now) ≡ number_bytes n) }
    ensures fits { IfSome result (λ n. n < 2 ^ 64) }
{
    get_u64(bytes, 0)
}

/// The term that the bytes spell, if they do.
fn term_in(alloc: Global, bytes: &[u8]) -> Result<Option<Term>, Want>
    ensures { IfOk result (λ found. MatchOption found ((term : AnyTerm) → IsTerm term → bytes.now ≡ spelling term → ⊥)
        (λ term. IsTerm term × (bytes.now ≡ spelling term))) }
{
    // There is no room for a term of 4 GB and its spelling.
    if bytes.len() > u32::MAX as usize {
        return Err(Want::NoMemory);
    }
    match Term::decode(alloc, bytes) {
        Ok(term) => Ok(Some(term)),
        Err(TermFault::BadTerm { .. }) => Ok(None),
        Err(TermFault::NoMemory) => Err(Want::NoMemory),
    }
}
