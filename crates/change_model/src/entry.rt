//! The rows that a change gives to the five indexes.
ghost use Rattle.std.specs.Prelude.{◌≡◌, ℕ, ◌+◌, ◌∷◌, ◌++◌, [], map, length, take, IfOk};
ghost use Rattle.std.specs.Arc.{arc_value};
ghost use Rattle.std.specs.List.{AllByRecursion};
ghost use Rattle.term_core.specs.Term.{IsStatement};
ghost use Rattle.change_model.specs.History.{History};
ghost use Rattle.change_model.specs.Lexicon.{lexicon_at};
ghost use Rattle.change_model.specs.Entries.{IsVocabularyOf, IsResolved, IsEntry, IsLastEntry, AreEntriesAfter};
ghost use Rattle.change_model.specs.Laws.{IsWritable};
ghost use Rattle.change_model.specs.Numbering.{AreIdsAt};
ghost use Rattle.change_model.specs.declared.history.Origin.{Origin as TheOrigin};

use crate::history::Change;
use crate::index_rows::{id_rows, statement_rows, term_rows};
use crate::known::known_ids;
use crate::numbering::{number_terms, statement_ids};
use crate::vocabulary::Vocabulary;
use base_core::{List, Want};
use row_core::Rows;
use std::alloc::Global;
use std::sync::Arc;

/// A change with its terms, and the ids that these have at some time. A term without an id there has none yet.
#[derive(Debug, Drop)]
pub struct Resolved {
    /// Its labels are unbound.
    pub change: Change,
    pub vocabulary: Vocabulary,
    /// For each term of the vocabulary its id.
    pub ids: List<Option<u64>>,
}

/// The rows of one commit, each index's by key, each key once.
#[derive(Debug, Drop)]
pub struct Entry {
    pub time: u64,
    /// How many ids there are after it.
    pub terms: u64,
    pub t2i: Rows,
    pub i2t: Rows,
    pub spo: Rows,
    pub pos: Rows,
    pub osp: Rows,
}

/// The rows of a change that is committed at this time, after which there are ids for its new terms too. Until then
/// there are `terms` of them. The change has the ids of an earlier time, and `later` are the entries that came since: a
/// term that one of these brought has the id that it got there.
pub fn entry_of(
    alloc: Global,
    resolved: &Resolved,
    later: &List<Arc<Entry>>,
    terms: u64,
    time: u64,
) -> Result<Entry, Want>
    ensures entry { IfOk result (IsEntry time) }
    ensures last { (history : History) (pinned : ℕ) (origin : TheOrigin) → IsResolved (take pinned history) resolved.now
        → AreEntriesAfter history pinned (map arc_value later.now)
        → IsWritable (history ++ record { change = resolved.now.change; origin = origin } ∷ [])
        → terms ≡ length (lexicon_at history (length history)) → time ≡ length history + 1
        → IfOk result (IsLastEntry (history ++ record { change = resolved.now.change; origin = origin } ∷ [])) }
    ensures fits { (history : History) (pinned : ℕ) (origin : TheOrigin) → IsResolved (take pinned history) resolved.now
        → AreEntriesAfter history pinned (map arc_value later.now)
        → IsWritable history → AllByRecursion IsStatement resolved.now.change.statements
        → terms ≡ length (lexicon_at history (length history)) → time ≡ length history + 1
        → IfOk result (λ entry. IsWritable (history ++ record { change = resolved.now.change; origin = origin } ∷ [])) }
{
    let known = known_ids(
        alloc,
        &resolved.vocabulary,
        resolved.ids.items(),
        later.items(),
    )?;
    entry_with(alloc, resolved, known, terms, time)
}

/// The rows of a change whose terms have these ids before it.
fn entry_with(
    alloc: Global,
    resolved: &Resolved,
    known: Vec<Option<u64>>,
    terms: u64,
    time: u64,
) -> Result<Entry, Want>
    ensures entry { IfOk result (IsEntry time) }
    ensures last { (history : History) (origin : TheOrigin) → IsVocabularyOf resolved.now.change.statements resolved.now.vocabulary
        → AreIdsAt time (lexicon_at history (length history)) resolved.now.vocabulary.terms known.items
        → IsWritable (history ++ record { change = resolved.now.change; origin = origin } ∷ [])
        → terms ≡ length (lexicon_at history (length history)) → time ≡ length history + 1
        → IfOk result (IsLastEntry (history ++ record { change = resolved.now.change; origin = origin } ∷ [])) }
    ensures fits { (history : History) (origin : TheOrigin) → IsVocabularyOf resolved.now.change.statements resolved.now.vocabulary
        → AreIdsAt time (lexicon_at history (length history)) resolved.now.vocabulary.terms known.items
        → IsWritable history → AllByRecursion IsStatement resolved.now.change.statements
        → terms ≡ length (lexicon_at history (length history)) → time ≡ length history + 1
        → IfOk result (λ entry. IsWritable (history ++ record { change = resolved.now.change; origin = origin } ∷ [])) }
{
    let kind = resolved.change.kind;
    let numbered = number_terms(alloc, resolved, known, terms, time)?;
    let ids = statement_ids(alloc, resolved.vocabulary.places.items(), &numbered.ids)?;
    let statements = statement_rows(alloc, kind, ids, time)?;
    let i2t = id_rows(alloc, &numbered.brought, time)?;
    let t2i = term_rows(alloc, numbered.brought, time)?;
    Ok(Entry {
        time,
        terms: numbered.count,
        t2i,
        i2t,
        spo: statements.spo,
        pos: statements.pos,
        osp: statements.osp,
    })
}
