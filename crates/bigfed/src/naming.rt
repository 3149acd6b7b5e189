//! The terms of ids. In a query's rows an id stands many times; its term is looked up once, and stands once in the table.
ghost use Rattle.std.specs.Prelude.{◌≡◌, ℕ, List as Items, [], ◌∷◌, ◌++◌, length, map, IfOk, OnOk};
ghost use Rattle.std.specs.List.{AllByRecursion, AllZip};
ghost use Rattle.term_core.specs.Term.{IsTerm};
ghost use Rattle.bgp_model.specs.Table.{HasTerms};
ghost use Rattle.change_model.specs.History.{History};
ghost use Rattle.bigfed.specs.Indexed.{AreIndexesOf};
ghost use Rattle.bigfed.specs.Naming.{IsPlaceIn, IsGrownFrom, AreSeatsOf, IsSeatOf, seat_at};
ghost use Rattle.bigfed.specs.Solving.{row_at};

use crate::indexes::Indexes;
use base_core::Want;
use bgp_model::Table;
use indexmap::IndexSet;
use join_core::IdRows;
use std::alloc::Global;
use term_core::Term;

/// The rows with terms in place of ids. Each distinct id is looked up once.
pub fn named_rows(alloc: Global, indexes: &Indexes, rows: &IdRows) -> Result<Table, Want>
    ensures named { (history : History) → AreIndexesOf history indexes.now →
        IfOk result (λ made. made ≡ map (row_at history) rows.now) }
    ensures terms { IfOk result HasTerms }
    ensures one_each { IfOk result (λ made. length made ≡ length rows.now) }
{
    let mut distinct = IndexSet::new(alloc);
    let places = places_of(alloc, rows.cells(), &mut distinct)?;
    let named = Named::of(alloc, indexes, &distinct)?;
    let cells = seated(alloc, &places, named.seats.as_slice())?;
    let Named { terms, seats: _ } = named;
    Table::of(alloc, terms, rows.columns(), rows.len(), cells)
}

/// Where each of the ids stands among the distinct ones.
fn places_of(
    alloc: Global,
    ids: &[Option<u64>],
    distinct: &mut IndexSet<u64>,
) -> Result<Vec<Option<u32>>, Want>
    ensures { IfOk result (λ places. AllZip (IsPlaceIn distinct.new.keys) ids.now places.items) }
{
    let mut places = Vec::with_capacity(alloc, ids.len())?;
    'ids: for id in ids {
        places.push(place_of(*id, distinct)?)?;
    }
    Ok(places)
}

/// The place of the id, the next one where it is new.
fn place_of(id: Option<u64>, distinct: &mut IndexSet<u64>) -> Result<Option<u32>, Want>
    ensures place { IfOk result (IsPlaceIn distinct.new.keys id) }
    ensures grown { IsGrownFrom distinct.old.keys distinct.new.keys }
{
    let Some(id) = id else {
        return Ok(None);
    };
    let (place, _) = distinct.insert_full(id)?;
    match u32::try_from(place) {
        Ok(place) => Ok(Some(place)),
        Err(_) => Err(Want::NoMemory),
    }
}

/// Terms, and the seat of each of the distinct ids among them: none where the id has no term.
#[derive(Drop)]
struct Named {
    terms: Vec<Term>,
    seats: Vec<Option<u32>>,
}

impl Named {
    /// The terms of these ids.
    fn of(alloc: Global, indexes: &Indexes, ids: &IndexSet<u64>) -> Result<Named, Want>
        ensures seats { (history : History) → AreIndexesOf history indexes.now →
            IfOk result (λ made. AreSeatsOf history ids.now.keys made) }
        ensures terms { IfOk result (λ made. AllByRecursion IsTerm made.terms.items) }
    {
        let mut named = Named {
            terms: Vec::with_capacity(alloc, ids.len())?,
            seats: Vec::with_capacity(alloc, ids.len())?,
        };
        'ids: for id in ids {
            named.add(alloc, indexes, *id)?;
        }
        Ok(named)
    }

    /// Gives the term of the id the next seat.
    fn add(&mut self, alloc: Global, indexes: &Indexes, id: u64) -> Result<(), Want>
        ensures seats { (history : History) (ids : Items ℕ) → AreIndexesOf history indexes.now → AreSeatsOf history ids self.old →
            OnOk result (AreSeatsOf history (ids ++ id ∷ []) self.new) }
        ensures terms { AllByRecursion IsTerm self.old.terms.items → OnOk result (AllByRecursion IsTerm self.new.terms.items) }
    {
        match indexes.term_of(alloc, id)? {
            None => self.seat(None),
            Some(term) => {
                let seat = self.sit(term)?;
                self.seat(Some(seat))
            }
        }
    }

    /// Notes the seat of the next id.
    fn seat(&mut self, seat: Option<u32>) -> Result<(), Want>
        ensures seats { OnOk result (self.new.seats.items ≡ self.old.seats.items ++ seat ∷ []) }
        ensures terms { self.new.terms.items ≡ self.old.terms.items }
    {
        self.seats.push(seat)?;
        Ok(())
    }

    /// Puts a term behind the others, and answers its seat.
    fn sit(&mut self, term: Term) -> Result<u32, Want>
        ensures seat { IfOk result (λ seat. seat ≡ length self.old.terms.items) }
        ensures terms { OnOk result (self.new.terms.items ≡ self.old.terms.items ++ term ∷ []) }
        ensures seats { self.new.seats.items ≡ self.old.seats.items }
    {
        let Ok(seat) = u32::try_from(self.terms.len()) else {
            return Err(Want::NoMemory);
        };
        self.terms.push(term)?;
        Ok(seat)
    }
}

/// The seats of the ids at these places.
fn seated(
    alloc: Global,
    places: &[Option<u32>],
    seats: &[Option<u32>],
) -> Result<Vec<Option<u32>>, Want>
    ensures { IfOk result (λ made. made.items ≡ map (seat_at seats.now) places.now) }
{
    let mut made = Vec::with_capacity(alloc, places.len())?;
    'places: for place in places {
        made.push(seat_at(*place, seats))?;
    }
    Ok(made)
}

fn seat_at(place: Option<u32>, seats: &[Option<u32>]) -> Option<u32>
    ensures { result ≡ seat_at seats.now place }
{
    match seats.get(place? as usize) {
        Some(seat) => *seat,
        None => None,
    }
}
