//! The history of a run, kept as its five indexes and where each of its changes came from.
ghost use Rattle.std.specs.Prelude.{◌≡◌, ◌≤◌, ◌<◌, ◌+◌, ◌*◌, ◌^◌, ◌∷◌, ◌++◌, [], length, Some, IfOk, OnOk, slice_get, unwrap_or};
ghost use Rattle.std.specs.List.{AllByRecursion};
ghost use Rattle.term_core.specs.Term.{IsStatement};
ghost use Rattle.change_model.specs.History.{History};
ghost use Rattle.work_text.specs.Outside.{IsWithin};
ghost use Rattle.bigfed.specs.Legal.{ChangeStep, QueryStep, QueryFileStep, refusal_of, refused_label, query_refusal_of, column_names};
ghost use Rattle.nt_text.specs.Limits.{largest_document};

use crate::indexes::Indexes;
use crate::solve::solve;
use base_core::{List, Text, Want};
use bgp_model::{BgpFault, Query};
use change_model::{Change, Kind, Origin, entry_of};
use nt_text::{DocFault, read_document};
use query_text::{QueryFault, read_query};
use std::alloc::Global;
use work_text::{Doc, Outcome};

/// A query's text may be this long.
const MOST_QUERY_BYTES: usize = 65_536;

/// A query may have so many rows.
const MOST_ROWS: u32 = 1_000_000;

#[derive(Drop)]
pub struct Store {
    indexes: Indexes,
    /// Where each change came from.
    origins: List<Origin>,
}

impl Store {
    ghost use Rattle.bigfed.specs.Standing.{StoreStandsFor};

    /// The store without a change.
    pub fn new(alloc: Global) -> Result<Store, Want>
        ensures { IfOk result (λ store. StoreStandsFor store []) }
    {
        Ok(Store {
            indexes: Indexes::new(alloc)?,
            origins: List::of(Vec::new(alloc)),
        })
    }

    /// Where each change came from, in the order of their times.
    pub fn into_origins(self) -> List<Origin>
        ensures { result ≡ self.origins }
    {
        self.origins
    }

    /// Commits the statements of a document as one change of this kind, or refuses it whole. A document whose statements
    /// are to be taken out may have no blank node, which would be one of this very change. After an `Err` the store
    /// stands for no history any more.
    pub fn change(
        &mut self,
        alloc: Global,
        kind: Kind,
        doc: &Doc,
        origin: Origin,
    ) -> Result<Outcome, Want>
        requires within { IsWithin largest_document doc.now }
        requires standing { (history : History) × StoreStandsFor self.old history }
        ensures step { (history : History) → StoreStandsFor self.old history → IfOk result (λ outcome.
            (after : History) × ChangeStep kind doc.now origin history outcome after × StoreStandsFor self.new after) }
        ensures commits { OnOk result (length self.new.origins ≤ length self.old.origins + 1) }
    {
        let bytes = match doc {
            Doc::Missing => return Ok(Outcome::NoDocument),
            Doc::TooLarge => return Ok(Outcome::DocumentTooLarge),
            Doc::Bytes(bytes) => bytes,
        };
        let document = match read_document(alloc, bytes.items()) {
            Ok(document) => document,
            Err(fault) => return refusal(fault),
        };
        if let Some(line) = refused_label(kind, document.first_label) {
            return Ok(Outcome::LabelInRemoval { line });
        }
        let change = Change {
            kind,
            statements: document.statements,
        };
        self.commit(alloc, change, origin)
    }

    /// Commits a change. Its labels are bound to its time.
    fn commit(&mut self, alloc: Global, change: Change, origin: Origin) -> Result<Outcome, Want>
        requires statements { AllByRecursion IsStatement change.statements }
        requires standing { (history : History) × StoreStandsFor self.old history }
        ensures time { IfOk result (λ outcome. outcome ≡ Outcome.Changed (length self.old.origins + 1)) }
        ensures stands { (history : History) → StoreStandsFor self.old history
            → OnOk result (StoreStandsFor self.new (history ++ record { change = change; origin = origin } ∷ [])) }
        ensures commits { OnOk result (length self.new.origins ≡ length self.old.origins + 1) }
    {
        let time = self.next_time(change.statements.items().len())?;
        let resolved = self.indexes.resolve(alloc, change)?;
        let later = List::of(Vec::new(alloc));
        let entry = entry_of(alloc, &resolved, &later, self.indexes.terms(), time)?;
        self.indexes.add(alloc, &entry)?;
        self.origins.append(List::of(vec![in alloc; origin]?))?;
        Ok(Outcome::Changed { time })
    }

    /// The time of the next change, of so many statements. So many changes that their times don't fit 64 bits, or so
    /// many terms that their ids don't, would not fit in memory either.
    fn next_time(&self, statements: usize) -> Result<u64, Want>
        ensures time { IfOk result (λ time. time ≡ length self.now.origins + 1) }
        ensures times { OnOk result (length self.now.origins + 1 < 2 ^ 64) }
        ensures ids { OnOk result (self.now.indexes.terms + 3 * statements < 2 ^ 64) }
    {
        let Some(new) = (statements as u64).checked_mul(3) else {
            return Err(Want::NoMemory);
        };
        if self.indexes.terms().checked_add(new).is_none() {
            return Err(Want::NoMemory);
        }
        match (self.origins.items().len() as u64).checked_add(1) {
            Some(time) => Ok(time),
            None => Err(Want::NoMemory),
        }
    }

    /// Answers the query that is a document.
    pub fn query_document(&self, alloc: Global, doc: &Doc) -> Result<Outcome, Want>
        ensures { (history : History) → StoreStandsFor self.now history → IfOk result (QueryFileStep doc.now history) }
    {
        match doc {
            Doc::Missing => Ok(Outcome::NoDocument),
            Doc::TooLarge => Ok(Outcome::DocumentTooLarge),
            Doc::Bytes(text) => self.query(alloc, text.items()),
        }
    }

    /// Answers a query over the triples that all changes so far left.
    pub fn query(&self, alloc: Global, text: &[u8]) -> Result<Outcome, Want>
        ensures { (history : History) → StoreStandsFor self.now history → IfOk result (QueryStep text.now history) }
    {
        if text.len() > MOST_QUERY_BYTES {
            return Ok(Outcome::DocumentTooLarge);
        }
        let query = match read_query(alloc, text) {
            Ok(query) => query,
            Err(fault) => return query_refusal(fault),
        };
        let time = self.origins.items().len() as u64;
        match solve(alloc, &self.indexes, &query, MOST_ROWS) {
            Ok(rows) => Ok(Outcome::Answered {
                time,
                columns: column_names(alloc, &query)?,
                rows,
            }),
            Err(BgpFault::TooMany) => Ok(Outcome::TooManyRows { time }),
            Err(BgpFault::NoMemory) => Err(Want::NoMemory),
        }
    }
}

/// The line of the first blank node, where a change of this kind may have none.
fn refused_label(kind: Kind, first_label: Option<u32>) -> Option<u32>
    ensures { result ≡ refused_label kind first_label }
{
    match kind {
        Kind::Add => None,
        Kind::Remove => first_label,
    }
}

/// What is said of a text that is no query, or of a query of too many patterns.
fn query_refusal(fault: QueryFault) -> Result<Outcome, Want>
    ensures { IfOk result (λ outcome. query_refusal_of fault ≡ Some outcome) }
{
    match fault {
        QueryFault::NoMemory => Err(Want::NoMemory),
        QueryFault::At { place } => Ok(Outcome::QueryAt { place }),
        QueryFault::LeftOut { place, word } => Ok(Outcome::QueryLeftOut { place, word }),
        QueryFault::TooManyPatterns => Ok(Outcome::TooManyPatterns),
    }
}

/// What is said of a document's first bad line.
fn refusal(fault: DocFault) -> Result<Outcome, Want>
    ensures { IfOk result (λ outcome. refusal_of fault ≡ Some outcome) }
{
    match fault {
        DocFault::NoMemory => Err(Want::NoMemory),
        DocFault::Line { line } => Ok(Outcome::BadLine { line }),
        DocFault::TooLong { line } => Ok(Outcome::TermTooLong { line }),
        DocFault::TooMany { line } => Ok(Outcome::TooManyStatements { line }),
    }
}

/// The names of the selected variables, in order.
fn column_names(alloc: Global, query: &Query) -> Result<List<Text>, Want>
    ensures { IfOk result (λ names. names ≡ column_names query.now) }
{
    let names = query.names.items();
    let mut columns = Vec::new(alloc);
    for column in query.columns.items() {
        columns.push(name_at(alloc, names, *column)?)?;
    }
    Ok(List::of(columns))
}

/// The name at a place, or no letters where there is none.
fn name_at(alloc: Global, names: &[Text], place: u32) -> Result<Text, Want>
    ensures { IfOk result (λ name. name ≡ unwrap_or (slice_get names.now place) []) }
{
    match names.get(place as usize) {
        Some(name) => name.copy(alloc),
        None => Text::of(alloc, ""),
    }
}
