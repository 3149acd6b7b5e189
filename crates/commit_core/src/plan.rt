//! What a commit makes before its first call of the device: its record, and the entry for each place that it may come to.
ghost use Rattle.std.specs.Prelude.{◌≡◌, ◌+◌, ◌^◌, ◌<◌, ◌≤◌, ◌++◌, ◌∷◌, ◌↔◌, ℕ, List, Option, None, Some, [], length, map, option_map, take, drop, slice_range, IfOk, IfSome, OnOk, OnErr};
ghost use Rattle.std.specs.Arc.{arc_value};
ghost use Rattle.std.specs.List.{AllByRecursion};
ghost use Rattle.term_core.specs.Term.{IsStatement};
ghost use Rattle.disk_core.specs.Moments.{Told};
ghost use Rattle.base_core.specs.Numbers.{number_bytes};
ghost use Rattle.change_model.specs.History.{History};
ghost use Rattle.change_model.specs.Lexicon.{lexicon_at};
ghost use Rattle.change_model.specs.declared.history.Origin.{Origin as AnyOrigin};
ghost use Rattle.change_model.specs.Entries.{IsEntry, IsResolved, AreEntriesAfter};
ghost use Rattle.change_model.specs.Laws.{IsWritable};
ghost use Rattle.record_log.specs.Items.{with_one};
ghost use Rattle.record_log.specs.Items.{Carries};
ghost use Rattle.record_log.specs.Logs.{IsSameLog, IsFull, HasRoom};
ghost use Rattle.commit_core.specs.Ledgers.{IsLedger};
ghost use Rattle.commit_core.specs.Rooms.{change_of};
ghost use Rattle.commit_core.specs.Resolving.{HaveRows, IsResolvedFor, committed_by};
ghost use Rattle.commit_core.specs.Puts.{IsBehind, IsNextEntry, HavePlannedRows, chosen};

use crate::ledger::Ledger;
use crate::parts::Parts;
use crate::record::record_of;
use base_core::{List, Want};
use body_codec::Receipt;
use change_model::{
    Entry, Resolved, counted_entries_law, entry_of, grown_entries_law, some_entries_law,
};
use disk_core::Disk;
use record_log::Prepared;
use std::alloc::Global;
use std::sync::Arc;

/// A change that is ready to be put.
#[derive(Drop)]
pub struct Planned {
    pub prepared: Prepared,
    pub entries: PlannedEntries,
}

/// The entries of a change for the places that it may come to.
#[derive(Drop)]
pub struct PlannedEntries {
    /// Behind the history.
    pub alone: Arc<Entry>,
    /// Where a change is undecided, behind that.
    pub behind: Option<Arc<Entry>>,
}

impl PlannedEntries {
    /// The entry for the place to which the change came.
    pub fn choose(self, kept: bool) -> Arc<Entry>
        ensures { arc_value result ≡ chosen kept (arc_value self.alone) (option_map arc_value self.behind) }
    {
        let PlannedEntries { alone, behind } = self;
        match behind {
            Some(behind) if kept => behind,
            _ => alone,
        }
    }
}

/// Further handles of the same entries.
pub fn shared(alloc: Global, entries: &[Arc<Entry>]) -> Result<Vec<Arc<Entry>>, Want>
    ensures { IfOk result (λ made. map arc_value made.items ≡ map arc_value entries.now) }
{
    let mut copies = Vec::with_capacity(alloc, entries.len())?;
    'entries: for entry in entries {
        copies.push(Arc::try_clone(entry)?)?;
    }
    Ok(copies)
}

/// How many ids there are after these entries, from the first time on.
fn terms_after(entries: &[Arc<Entry>]) -> u64
    ensures { (history : History) → AreEntriesAfter history 0 (map arc_value entries.now) → result ≡ length (lexicon_at history (length history)) }
{
    match entries.last() {
        Some(entry) => entry.terms,
        None => 0,
    }
}

impl<D: Disk> Parts<D> {
    /// Takes all the memory of a commit. After an `Err` nothing has changed but that the ledger may have taken memory.
    pub fn plan(
        &mut self,
        alloc: Global,
        receipt: &Receipt,
        resolved: &Resolved,
        pinned: u64,
    ) -> Result<Planned, Want>
        requires home { receipt.now.home < 2 ^ 8 }
        requires sound { IsLedger self.old.ledger }
        ensures record { IfOk result (λ planned. planned.prepared ≡ receipt.now.home ∷ number_bytes receipt.now.body) }
        ensures alone { IfOk result (λ planned. IsEntry (length self.old.ledger.keeper.seen + 1) (arc_value planned.entries.alone)) }
        ensures behind { IfOk result (λ planned. IsBehind self.old.ledger.waiting (length self.old.ledger.keeper.seen + 2) (option_map arc_value planned.entries.behind)) }
        ensures rows { IfOk result (λ planned. (origin : AnyOrigin) → HaveRows self.old.ledger.keeper.seen self.old.ledger.entries self.old.ledger.waiting
            → IsResolvedFor self.old.ledger.keeper.seen pinned resolved.now
            → HavePlannedRows self.old.ledger.keeper.seen self.old.ledger.waiting (committed_by resolved.now origin) (arc_value planned.entries.alone) (option_map arc_value planned.entries.behind)) }
        ensures ledger { self.new.ledger ≡ record self.old.ledger { room = self.new.ledger.room } }
        ensures sound { IsLedger self.new.ledger }
        ensures room { OnOk result (2 ≤ self.new.ledger.room) }
        ensures disk { self.new.disk ≡ self.old.disk }
        ensures log { IsSameLog self.old.log self.new.log }
        ensures log_room { OnOk result (HasRoom self.new.log) }
        ensures full { (size : ℕ) → IsFull self.new.log size ↔ IsFull self.old.log size }
        ensures carries { (told : Option Told) (bodies : List (List ℕ)) (waiting : Option (List ℕ)) → Carries self.old.log told bodies waiting → Carries self.new.log told bodies waiting }
        ensures err { OnErr result (self.new.log ≡ self.old.log) }
    {
        let entries = plan_entries(alloc, &self.ledger, resolved, pinned)?;
        let record = record_of(alloc, receipt.home as u8, receipt.body)?;
        self.ledger.reserve()?;
        let prepared = self.log.prepare(alloc, &record)?;
        Ok(Planned { prepared, entries })
    }
}

/// The entries of the change for the places that it may come to.
fn plan_entries(
    alloc: Global,
    ledger: &Ledger,
    resolved: &Resolved,
    pinned: u64,
) -> Result<PlannedEntries, Want>
    ensures alone { IfOk result (λ planned. IsEntry (length ledger.now.keeper.seen + 1) (arc_value planned.alone)) }
    ensures behind { IfOk result (λ planned. IsBehind ledger.now.waiting (length ledger.now.keeper.seen + 2) (option_map arc_value planned.behind)) }
    ensures rows { IfOk result (λ planned. (origin : AnyOrigin) → HaveRows ledger.now.keeper.seen ledger.now.entries ledger.now.waiting
        → IsResolvedFor ledger.now.keeper.seen pinned resolved.now
        → HavePlannedRows ledger.now.keeper.seen ledger.now.waiting (committed_by resolved.now origin) (arc_value planned.alone) (option_map arc_value planned.behind)) }
{
    some_entries_law();
    counted_entries_law();
    let entries = ledger.entries();
    let length = ledger.length();
    let later = List::of(shared(alloc, after(entries, pinned as usize))?);
    let Some(time) = length.checked_add(1) else {
        return Err(Want::NoMemory);
    };
    let alone = entry_of(alloc, resolved, &later, terms_after(entries), time)?;
    let alone = Arc::new(alloc, alone)?;
    let behind = plan_behind(alloc, ledger, resolved, later)?;
    Ok(PlannedEntries { alone, behind })
}

/// The entries after a time.
fn after(entries: &[Arc<Entry>], time: usize) -> &[Arc<Entry>]
    ensures { time ≤ length entries.now → result.now ≡ drop time entries.now }
{
    entries.get(time..).unwrap_or(&[])
}

/// The entry of the change behind the undecided one, if there is one.
fn plan_behind(
    alloc: Global,
    ledger: &Ledger,
    resolved: &Resolved,
    later: List<Arc<Entry>>,
) -> Result<Option<Arc<Entry>>, Want>
    ensures is { IfOk result (λ behind. IsBehind ledger.now.waiting (length ledger.now.keeper.seen + 2) (option_map arc_value behind)) }
    ensures rows { IfOk result (λ behind. (pinned : ℕ) (origin : AnyOrigin) → HaveRows ledger.now.keeper.seen ledger.now.entries ledger.now.waiting
        → IsResolvedFor ledger.now.keeper.seen pinned resolved.now → AreEntriesAfter ledger.now.keeper.seen pinned (map arc_value later)
        → IfSome (option_map arc_value behind) (IsNextEntry (with_one ledger.now.keeper.seen (change_of ledger.now.waiting)) (committed_by resolved.now origin))) }
{
    grown_entries_law();
    let Some(earlier) = ledger.undecided_entry()? else {
        return Ok(None);
    };
    let terms = earlier.terms;
    let Some(time) = ledger.length().checked_add(2) else {
        return Err(Want::NoMemory);
    };
    let mut later = later.into_items();
    later.push(earlier)?;
    let entry = entry_of(alloc, resolved, &List::of(later), terms, time)?;
    Ok(Some(Arc::new(alloc, entry)?))
}

/// The entry of the change that comes next, whose ids are those after the whole history.
pub fn plan_next(
    alloc: Global,
    ledger: &Ledger,
    resolved: &Resolved,
    time: u64,
) -> Result<Arc<Entry>, Want>
    ensures is { IfOk result (λ entry. IsEntry time (arc_value entry)) }
    ensures rows { IfOk result (λ entry. (origin : AnyOrigin) → AreEntriesAfter ledger.now.keeper.seen 0 ledger.now.entries → IsResolved ledger.now.keeper.seen resolved.now
        → IsWritable ledger.now.keeper.seen → AllByRecursion IsStatement resolved.now.change.statements → time ≡ length ledger.now.keeper.seen + 1
        → IsNextEntry ledger.now.keeper.seen (committed_by resolved.now origin) (arc_value entry)) }
{
    let later = List::of(Vec::new(alloc));
    let entry = entry_of(alloc, resolved, &later, terms_after(ledger.entries()), time)?;
    Ok(Arc::new(alloc, entry)?)
}
