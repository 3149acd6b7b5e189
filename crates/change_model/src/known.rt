//! The ids that the terms of a change have already. They had them when they were looked up, or an entry since then gave
//! them one.
ghost use Rattle.std.specs.Prelude.{◌≡◌, ◌<◌, ◌^◌, ℕ, map, Some, IfOk, IfSome, MatchOption, option_copied};
ghost use Rattle.std.specs.Prelude.{List as Items};
ghost use Rattle.std.specs.Arc.{arc_value};
ghost use Rattle.std.specs.List.{AllByRecursion};
ghost use Rattle.base_core.specs.Lists.{Has};
ghost use Rattle.base_core.specs.Numbers.{number_bytes};
ghost use Rattle.term_core.specs.declared.term.Term.{Term as AnyTerm};
ghost use Rattle.term_core.specs.Spelling.{spelling as spelling_of};
ghost use Rattle.term_core.specs.Term.{IsTerm};
ghost use Rattle.row_core.specs.declared.rows.Cell.TheVariants.{Value};
ghost use Rattle.change_model.specs.History.{bound_term};
ghost use Rattle.change_model.specs.Known.{AreTold, GiveId, GiveNoId, HaveNotKey, EntriesGiveId};
ghost use Rattle.change_model.specs.Numbering.{AreIdsIn, AreIdsAt, AreSpelled, BindWell, IsIdIn};

use crate::entry::Entry;
use crate::numbering::{id_at, key_at, label_of};
use crate::vocabulary::Vocabulary;
use base_core::{Want, first_u64};
use fed_bytes::Key;
use row_core::{Cell, Row};
use std::alloc::Global;
use std::sync::Arc;
use term_core::Term;

/// The ids that these terms have once their labels are bound, if `ids` are those of an earlier time, and `later` are the
/// entries since.
pub(crate) fn known_ids(
    alloc: Global,
    vocabulary: &Vocabulary,
    ids: &[Option<u64>],
    later: &[Arc<Entry>],
) -> Result<Vec<Option<u64>>, Want>
    ensures { IfOk result (λ known. (time : ℕ) (early base : Items AnyTerm) → AreTold time early base (map arc_value later.now) →
        AreSpelled vocabulary.now → BindWell time vocabulary.now.terms → AreIdsIn early vocabulary.now.terms ids.now →
        AreIdsAt time base vocabulary.now.terms known.items) }
{
    let terms = vocabulary.terms.items();
    let mut known = Vec::with_capacity(alloc, terms.len())?;
    'terms: for (place, term) in terms.iter().enumerate() {
        let spelling = key_at(vocabulary.spellings.items(), place);
        known.push(known_id(term, spelling, id_at(ids, place), later))?;
    }
    Ok(known)
}

/// The id of a term. A label stands for a new node, which has none.
fn known_id(
    term: &Term,
    spelling: Option<&Key>,
    id: Option<u64>,
    later: &[Arc<Entry>],
) -> Option<u64>
    ensures { (time : ℕ) (early base : Items AnyTerm) → AreTold time early base (map arc_value later.now) → IsTerm (bound_term time term.now) →
        option_copied spelling.entry ≡ Some (spelling_of term.now) → IsIdIn early term.now id → IsIdIn base (bound_term time term.now) result }
{
    match label_of(term) {
        Some(_) => None,
        None => plain_id(spelling, id, later),
    }
}

/// The id of the term of this spelling, which is no label.
fn plain_id(spelling: Option<&Key>, id: Option<u64>, later: &[Arc<Entry>]) -> Option<u64>
    ensures { (time : ℕ) (early base : Items AnyTerm) (term : AnyTerm) → AreTold time early base (map arc_value later.now) → IsTerm term →
        option_copied spelling.entry ≡ Some (spelling_of term) → IsIdIn early term id → IsIdIn base term result }
{
    if let Some(id) = id {
        return Some(id);
    }
    let Some(spelling) = spelling else {
        return None;
    };
    later_id(spelling, later)
}

/// The id that one of the entries gives to the key, if one does.
fn later_id(key: &Key, later: &[Arc<Entry>]) -> Option<u64>
    ensures found { MatchOption result (AllByRecursion (λ entry. GiveNoId entry.t2i key.now) (map arc_value later.now))
        (EntriesGiveId (map arc_value later.now) key.now) }
    ensures fits { IfSome result (λ id. id < 2 ^ 64) }
{
    'entries: for entry in later {
        let Some(id) = id_in(entry.t2i.items(), key) else {
            continue 'entries;
        };
        return Some(id);
    }
    None
}

/// The id that one of the rows gives to the key, if one does.
fn id_in(rows: &[Row], key: &Key) -> Option<u64>
    ensures found { MatchOption result (GiveNoId rows.now key.now) (GiveId rows.now key.now) }
    ensures fits { IfSome result (λ id. id < 2 ^ 64) }
{
    let Some(row) = row_of(rows, key) else {
        return None;
    };
    id_of(row)
}

/// The row of the key, if there is one.
fn row_of<'a>(rows: &'a [Row], key: &Key) -> Option<&'a Row>
    ensures { MatchOption result (HaveNotKey rows.now key.now) (λ row. Has rows.now row.now × (row.now.key ≡ key.now)) }
{
    match rows.binary_search_by(|row| row.key.cmp(key)) {
        Ok(place) => Some(&rows[place]),
        Err(_) => None,
    }
}

/// The id that the row's value spells, if it spells one.
fn id_of(row: &Row) -> Option<u64>
    ensures found { MatchOption result ((id : ℕ) → row.now.cell ≡ Value (number_bytes id) → ⊥) (λ id. row.now.cell ≡ Value (number_bytes id)) }
    ensures fits { IfSome result (λ id. id < 2 ^ 64) }
{
    match &row.cell {
        Cell::Value(value) => number_of(value.bytes()),
        Cell::Deleted => None,
    }
}

/// The number that these eight bytes spell.
fn number_of(bytes: &[u8]) -> Option<u64>
    ensures found { MatchOption result ((n : ℕ) → bytes.now ≡ number_bytes n → ⊥) (λ n. bytes.now ≡ number_bytes n) }
    ensures fits { IfSome result (λ n. n < 2 ^ 64) }
{
    let Some((number, rest)) = first_u64(bytes) else {
        return None;
    };
    if !rest.is_empty() {
        return None;
    }
    Some(number)
}
