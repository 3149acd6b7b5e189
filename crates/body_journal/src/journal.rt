//! The journals of one service.
//!
//! A flush puts one record, a group that begins with the body that is asked for. Those behind it in the group are stored
//! with it, and are answered without a device call when they are asked for. Where a put fails, the members of its group
//! stay in the queue until a mend has decided: then they are stored, or wait as before. No other body gets a receipt from
//! a group that failed.
ghost use Rattle.std.specs.Prelude.{◌≡◌, ◌≢◌, ◌+◌, ◌<◌, ◌≤◌, ◌^◌, ◌↔◌, ◌⊎◌, ℕ, List as Items, [], ◌∷◌, ◌++◌, map, length, take, Option, Some, None, Ok, Err, IsTrue, true, false, IfOk, IfErr, OnOk, OnErr, IsOk, if◌then◌else◌};
ghost use Rattle.std.specs.Arc.{arc_value};
ghost use Rattle.disk_core.specs.Moments.{Told};
ghost use Rattle.record_log.specs.Devices.{ChangesOnly, MomentsHave};
ghost use Rattle.record_log.specs.Items.{CarriesItems, IsPutOf, LogsItems, Decides};
ghost use Rattle.record_log.specs.Faults.{IsCountedBy, IsPutFault};
ghost use Rattle.record_log.specs.Logs.{file_of, limit_of, sizes_of, needs_mend, IsFull};
ghost use Rattle.record_log.specs.declared.fault.LogFault.{LogFault as AnyLogFault};
ghost use Rattle.body_journal.specs.Faults.{IsCaused};
ghost use Rattle.body_journal.specs.Groups.{group_bytes, group_size, IsFullest};
ghost use Rattle.body_journal.specs.Held.{Queued, decided_held, grouped_in, marked};
ghost use Rattle.body_journal.specs.Journals.{IsAt};
ghost use Rattle.body_journal.specs.Marks.{AreAllTakenIn, AreUnmarked, IsPut, IsStoredBy, IsLeftBy, IsDecidedBy, IsDecidedAfter, is_failed, held_left, StoresPut, StoresMend, StoresAt};
ghost use Rattle.body_journal.specs.Rooms.{home_of, log_of, journals_of, stored_of, serials_of, queue_of, others_of, HasBody, number_behind, queue_after, others_after, stored_after, sizes_after, IsAnswered, IsFlushed, IsGivenUp};
ghost use Rattle.body_journal.specs.Stores.{Stores, IsOpened, MomentsKeep};

use crate::fault::JournalFault;
use crate::gather::{Gathered, gather, record_of};
use crate::held::{Held, Stage};
use crate::passes::{decide, find_stored, forget, mark};
use crate::tally::Tally;
use base_core::{List, Want};
use body_codec::{Receipt, Ticket};
use disk_core::Disk;
use record_log::{LogFault, RecordLog};
use std::alloc::Global;
use std::sync::Arc;

/// The bodies of one service. The disk is lent to each call.
#[derive(Drop)]
pub struct BodyJournal {
    home: u32,
    /// The log of the last journal, and how many journals there are.
    log: RecordLog,
    journals: u64,
    tally: Tally,
    /// How many bodies were queued.
    serials: u64,
    /// The bodies that nobody has asked for yet, in the order in which they were queued.
    held: Vec<Held>,
}

impl BodyJournal {
    /// The journals of this service, with so many bodies. The log is that of the last one.
    pub fn make(alloc: Global, home: u32, log: RecordLog, journals: u64, bodies: u64) -> BodyJournal
        ensures home { home_of result ≡ home }
        ensures log { log_of result ≡ log }
        ensures journals { journals_of result ≡ journals }
        ensures stored { stored_of result ≡ bodies }
        ensures queue { queue_of result ≡ [] }
        ensures stores { (told : Option Told) (stored : Items (Items ℕ)) → IsOpened told log journals bodies stored → Stores told result stored }
    {
        BodyJournal {
            home,
            log,
            journals,
            tally: Tally::of(bodies),
            serials: 0,
            held: Vec::new(alloc),
        }
    }

    /// The service.
    pub fn home(&self) -> u32
        ensures { result ≡ home_of self.now }
    {
        self.home
    }

    /// How many journals there are.
    pub fn journals(&self) -> u64
        ensures { result ≡ journals_of self.now }
    {
        self.journals
    }

    /// How many bodies are stored, without a group that is undecided.
    pub fn stored(&self) -> u64
        ensures { result ≡ stored_of self.now }
    {
        self.tally.stored
    }

    /// Puts a body behind those that wait.
    pub fn queue_body(&mut self, alloc: Global, body: Vec<u8>) -> Result<Ticket, Want>
        requires { length body.items ≤ 67108864 }
        ensures home { IfOk result (λ ticket. ticket.home ≡ home_of self.old) }
        ensures serial { IfOk result (λ ticket. ticket.serial ≡ serials_of self.old + 1) }
        ensures body { IfOk result (λ ticket. arc_value ticket.body ≡ body.items) }
        ensures serials { OnOk result (serials_of self.new ≡ serials_of self.old + 1) }
        ensures queue { OnOk result (queue_of self.new ≡ queue_of self.old ++ record { serial = serials_of self.old + 1; bytes = body.items } ∷ []) }
        ensures same_home { home_of self.new ≡ home_of self.old }
        ensures same_log { log_of self.new ≡ log_of self.old }
        ensures same_journals { journals_of self.new ≡ journals_of self.old }
        ensures same_stored { stored_of self.new ≡ stored_of self.old }
        ensures err { OnErr result (queue_of self.new ≡ queue_of self.old) }
        ensures err_serials { OnErr result (serials_of self.new ≡ serials_of self.old) }
        ensures known { (serial : ℕ) (bytes : Items ℕ) (before : ℕ) → HasBody self.new serial bytes before ↔ HasBody self.old serial bytes before }
        ensures stores { (told : Option Told) (bodies : Items (Items ℕ)) → Stores told self.old bodies → Stores told self.new bodies }
    {
        let Some(serial) = self.serials.checked_add(1) else {
            return Err(Want::NoMemory);
        };
        let body = Arc::new(alloc, List::of(body))?;
        let held = Held {
            serial,
            body: Arc::try_clone(&body)?,
            stage: Stage::Waiting,
        };
        self.held.push(held)?;
        self.serials = serial;
        Ok(Ticket {
            home: self.home,
            serial,
            body,
        })
    }

    /// Whether the record of this ticket's flush fits the last journal, where an undecided one counts as kept. It is true
    /// where the body is stored already.
    pub fn fits(&self, ticket: &Ticket) -> bool
        requires { length (arc_value ticket.now.body) ≤ 67108864 }
        ensures known { (before : ℕ) → HasBody self.now ticket.now.serial (arc_value ticket.now.body) before → IsTrue result }
        ensures fits { ((before : ℕ) → ¬ HasBody self.now ticket.now.serial (arc_value ticket.now.body) before)
            → (others : ℕ) × IsFullest (arc_value ticket.now.body) (others_of self.now ticket.now.serial) others
            × ((result ≡ false) ↔ IsFull (log_of self.now) (group_size (arc_value ticket.now.body ∷ take others (others_of self.now ticket.now.serial)))) }
    {
        let body = ticket.body.items();
        if find_stored(&self.held, ticket.serial, body).is_some() {
            return true;
        }
        self.log.fits(gather(&self.held, ticket.serial, body).size)
    }

    /// Stores the body of the ticket, unless it is stored already, and others that wait with it. After `DiskFault` and
    /// `Full` this body alone has left the queue.
    pub fn flush_group<D: Disk>(
        &mut self,
        alloc: Global,
        disk: &mut D,
        ticket: Ticket,
    ) -> Result<Receipt, JournalFault>
        requires { length (arc_value ticket.body) ≤ 67108864 }
        ensures home { IfOk result (λ receipt. receipt.home ≡ home_of self.old) }
        ensures spelling { IfOk result (λ receipt. arc_value receipt.spelling ≡ arc_value ticket.body) }
        ensures number { IfOk result (λ receipt. 0 < receipt.body) }
        ensures same_home { home_of self.new ≡ home_of self.old }
        ensures same_journals { journals_of self.new ≡ journals_of self.old }
        ensures same_serials { serials_of self.new ≡ serials_of self.old }
        ensures file { file_of (log_of self.new) ≡ file_of (log_of self.old) }
        ensures limit { limit_of (log_of self.new) ≡ limit_of (log_of self.old) }

        // A body that is stored already is answered without a device call. Else its record was put, and is in.
        ensures known { (before : ℕ) → HasBody self.old ticket.serial (arc_value ticket.body) before → IsOk result × (disk.new ≡ disk.old) × IsAnswered self.old self.new ticket.serial }
        ensures opened { IfOk result (λ receipt. ((before : ℕ) × HasBody self.old ticket.serial (arc_value ticket.body) before × (receipt.body ≡ number_behind before))
            ⊎ IsFlushed self.old self.new ticket.serial (arc_value ticket.body) receipt.body) }

        // Others that are stored stay so until they are asked for.
        ensures keeps { (serial : ℕ) (bytes : Items ℕ) (before : ℕ) → serial ≢ ticket.serial → HasBody self.old serial bytes before → HasBody self.new serial bytes before }

        // When each fault comes, and what stands after it.
        ensures counted { D.fault_count disk.old ≤ D.fault_count disk.new }
        ensures cause { IfErr result (IsCaused (home_of self.old) (D.fault_count disk.old) (D.fault_count disk.new)) }
        ensures full { needs_mend (log_of self.old) ≡ false → ((before : ℕ) → ¬ HasBody self.old ticket.serial (arc_value ticket.body) before)
            → (others : ℕ) × IsFullest (arc_value ticket.body) (others_after self.old false ticket.serial) others
            × ((result ≡ Err (JournalFault.Full (home_of self.old))) ↔ IsFull (log_of self.old) (group_size (arc_value ticket.body ∷ take others (others_after self.old false ticket.serial)))) }
        ensures given_up { IfErr result (IsGivenUp self.old self.new ticket.serial) }

        // What the device keeps, and what a crash leaves at any moment of the call.
        ensures others { ChangesOnly (file_of (log_of self.old)) (D.told disk.old) (D.told disk.new) }
        ensures stores { (bodies : Items (Items ℕ)) → Stores (D.told disk.old) self.old bodies
            → (more : Items (Items ℕ)) × Stores (D.told disk.new) self.new (bodies ++ more) × IfOk result (λ receipt. IsAt (bodies ++ more) receipt.body (arc_value ticket.body)) }
        ensures moments { (bodies : Items (Items ℕ)) → Stores (D.told disk.old) self.old bodies → MomentsKeep bodies (D.told disk.old) (D.told disk.new) }
    {
        let body = ticket.body.items();
        if let Some(before) = find_stored(&self.held, ticket.serial, body) {
            forget(&mut self.held, ticket.serial);
            return Ok(self.receipt(ticket, before));
        }
        match self.store(alloc, disk, ticket.serial, body) {
            Ok(before) => {
                forget(&mut self.held, ticket.serial);
                Ok(self.receipt(ticket, before))
            }
            Err(fault) => {
                let fault = JournalFault::of(fault, self.home, disk.faults());
                give_up(&mut self.held, ticket.serial, fault);
                Err(fault)
            }
        }
    }

    /// The receipt of a body that is stored behind so many others.
    fn receipt(&self, ticket: Ticket, before: u64) -> Receipt
        ensures home { result.home ≡ home_of self.now }
        ensures body { result.body ≡ number_behind before }
        ensures positive { 0 < result.body }
        ensures spelling { arc_value result.spelling ≡ arc_value ticket.body }
    {
        Receipt {
            home: self.home,
            body: before.saturating_add(1),
            spelling: ticket.body,
        }
    }

    /// Decides what is undecided, and puts one record more. Answers how many bodies stand before this one.
    fn store<D: Disk>(
        &mut self,
        alloc: Global,
        disk: &mut D,
        serial: u64,
        body: &[u8],
    ) -> Result<u64, LogFault>
        requires short { length body.now ≤ 67108864 }
        ensures home { home_of self.new ≡ home_of self.old }
        ensures journals { journals_of self.new ≡ journals_of self.old }
        ensures serials { serials_of self.new ≡ serials_of self.old }
        ensures file { file_of (log_of self.new) ≡ file_of (log_of self.old) }
        ensures limit { limit_of (log_of self.new) ≡ limit_of (log_of self.old) }
        ensures counted { IsCountedBy (D.fault_count disk.old) (D.fault_count disk.new) result }
        ensures faults { IfErr result IsPutFault }
        ensures put { IfOk result (IsStoredBy self.old self.new serial body.now) }
        ensures left { OnErr result (IsLeftBy self.old self.new) }
        ensures known { (serial : ℕ) (bytes : Items ℕ) (before : ℕ) → HasBody self.old serial bytes before → HasBody self.new serial bytes before }
        ensures full { needs_mend (log_of self.old) ≡ false → (others : ℕ) × IsFullest body.now (others_after self.old false serial) others
            × ((result ≡ Err LogFault.Full) ↔ IsFull (log_of self.old) (group_size (body.now ∷ take others (others_after self.old false serial)))) }
        ensures others { ChangesOnly (file_of (log_of self.old)) (D.told disk.old) (D.told disk.new) }
        ensures stores { (bodies : Items (Items ℕ)) → Stores (D.told disk.old) self.old bodies → StoresAt (D.told disk.new) self.new bodies body.now result }
        ensures moments { (bodies : Items (Items ℕ)) → Stores (D.told disk.old) self.old bodies → MomentsKeep bodies (D.told disk.old) (D.told disk.new) }
    {
        self.settle(disk)?;
        self.put_group(alloc, disk, serial, body)
    }

    /// Decides whether the group of a put that failed is in, and answers that. It takes no memory.
    fn settle<D: Disk>(&mut self, disk: &mut D) -> Result<bool, LogFault>
        ensures home { home_of self.new ≡ home_of self.old }
        ensures journals { journals_of self.new ≡ journals_of self.old }
        ensures serials { serials_of self.new ≡ serials_of self.old }
        ensures file { file_of (log_of self.new) ≡ file_of (log_of self.old) }
        ensures limit { limit_of (log_of self.new) ≡ limit_of (log_of self.old) }
        ensures settled { OnOk result (needs_mend (log_of self.new) ≡ false) }
        ensures unmarked { OnOk result (AreUnmarked self.new.held.items) }
        ensures known { (serial : ℕ) (bytes : Items ℕ) (before : ℕ) → HasBody self.old serial bytes before → HasBody self.new serial bytes before }
        ensures members { IfOk result (λ is_in. is_in ≡ true → AreAllTakenIn self.old self.new) }
        ensures held { IfOk result (λ is_in. self.new.held.items ≡ map (decided_held self.old.tally.stored is_in) self.old.held.items) }
        ensures stored { IfOk result (λ is_in. stored_of self.new ≡ stored_after self.old is_in) }
        ensures sizes { IfOk result (λ is_in. sizes_of (log_of self.new) ≡ sizes_after self.old is_in) }
        ensures not_needed { needs_mend (log_of self.old) ≡ false → (result ≡ Ok false) × (log_of self.new ≡ log_of self.old) × (disk.new ≡ disk.old) }
        ensures failed { IfErr result (λ fault. fault ≡ LogFault.Failed) }
        ensures err { OnErr result (self.new ≡ self.old) }
        ensures counted { IsCountedBy (D.fault_count disk.old) (D.fault_count disk.new) result }
        ensures others { ChangesOnly (file_of (log_of self.old)) (D.told disk.old) (D.told disk.new) }
        ensures stores { (bodies : Items (Items ℕ)) → Stores (D.told disk.old) self.old bodies → StoresMend (D.told disk.new) self.new bodies result }
        ensures moments { (bodies : Items (Items ℕ)) → Stores (D.told disk.old) self.old bodies → MomentsKeep bodies (D.told disk.old) (D.told disk.new) }
    {
        let is_in = self.log.mend(disk)?;
        self.decide(is_in);
        Ok(is_in)
    }

    /// Puts the record of the group that begins with this body, and answers how many bodies stand before it.
    fn put_group<D: Disk>(
        &mut self,
        alloc: Global,
        disk: &mut D,
        serial: u64,
        body: &[u8],
    ) -> Result<u64, LogFault>
        requires short { length body.now ≤ 67108864 }
        requires settled { needs_mend (log_of self.old) ≡ false }
        requires unmarked { AreUnmarked self.old.held.items }
        ensures home { home_of self.new ≡ home_of self.old }
        ensures journals { journals_of self.new ≡ journals_of self.old }
        ensures serials { serials_of self.new ≡ serials_of self.old }
        ensures file { file_of (log_of self.new) ≡ file_of (log_of self.old) }
        ensures limit { limit_of (log_of self.new) ≡ limit_of (log_of self.old) }
        ensures before { IfOk result (λ before. before ≡ stored_of self.old) }
        ensures put { OnOk result (IsPut self.old self.new serial body.now) }
        ensures full { (others : ℕ) × IsFullest body.now (others_of self.old serial) others
            × ((result ≡ Err LogFault.Full) ↔ IsFull (log_of self.old) (group_size (body.now ∷ take others (others_of self.old serial)))) }
        ensures queue { OnErr result (queue_of self.new ≡ queue_of self.old) }
        ensures known { (serial : ℕ) (bytes : Items ℕ) (before : ℕ) → HasBody self.old serial bytes before → HasBody self.new serial bytes before }
        ensures faults { IfErr result IsPutFault }
        ensures mended { result ≢ Err LogFault.NeedsMend }
        ensures counted { IsCountedBy (D.fault_count disk.old) (D.fault_count disk.new) result }
        ensures others { ChangesOnly (file_of (log_of self.old)) (D.told disk.old) (D.told disk.new) }
        ensures stores { (bodies : Items (Items ℕ)) → Stores (D.told disk.old) self.old bodies → StoresPut (D.told disk.new) self.new bodies body.now result }
        ensures moments { (bodies : Items (Items ℕ)) → Stores (D.told disk.old) self.old bodies → MomentsKeep bodies (D.told disk.old) (D.told disk.new) }
    {
        let group = gather(&self.held, serial, body);
        if !self.log.fits(group.size) {
            return Err(LogFault::Full);
        }
        let before = self.tally.stored;
        let Some(tally) = self.tally.with_group(group.others + 1) else {
            return Err(LogFault::NoMemory);
        };
        self.mark_group(serial, tally);
        let put = self.put_record(alloc, disk, body, group);
        self.after_put(&put);
        match put {
            Ok(_) => Ok(before),
            Err(fault) => Err(fault),
        }
    }

    /// Puts the record of the group that begins with this body, and whose others are marked.
    fn put_record<D: Disk>(
        &mut self,
        alloc: Global,
        disk: &mut D,
        body: &[u8],
        group: Gathered,
    ) -> Result<u64, LogFault>
        requires few { group.others < 2 ^ 30 }
        requires short { length body.now ≤ 67108864 }
        requires others { group.others ≡ length (grouped_in self.old.held.items) }
        requires within { group_size (body.now ∷ grouped_in self.old.held.items) ≤ 2 ^ 30 }
        ensures same { self.new ≡ record self.old { log = self.new.log } }
        ensures file { file_of (log_of self.new) ≡ file_of (log_of self.old) }
        ensures limit { limit_of (log_of self.new) ≡ limit_of (log_of self.old) }
        ensures settled { OnOk result (needs_mend (log_of self.new) ≡ false) }
        ensures sizes { OnOk result (sizes_of (log_of self.new) ≡ sizes_of (log_of self.old) ++ group_size (body.now ∷ grouped_in self.old.held.items) ∷ []) }
        ensures mended { needs_mend (log_of self.old) ≡ false → result ≢ Err LogFault.NeedsMend }
        ensures full { needs_mend (log_of self.old) ≡ false → result ≡ Err LogFault.Full → IsFull (log_of self.old) (group_size (body.now ∷ grouped_in self.old.held.items)) }
        ensures faults { IfErr result IsPutFault }
        ensures counted { IsCountedBy (D.fault_count disk.old) (D.fault_count disk.new) result }
        ensures others { ChangesOnly (file_of (log_of self.old)) (D.told disk.old) (D.told disk.new) }
        ensures carries { (groups : Items (Items (Items ℕ))) → CarriesItems group_bytes (log_of self.old) (D.told disk.old) groups None
            → IsPutOf group_bytes (log_of self.new) (D.told disk.new) groups (body.now ∷ grouped_in self.old.held.items) result }
        ensures leaves { (groups : Items (Items (Items ℕ))) → CarriesItems group_bytes (log_of self.old) (D.told disk.old) groups None
            → MomentsHave (file_of (log_of self.old)) (LogsItems group_bytes (Decides groups (Some (body.now ∷ grouped_in self.old.held.items)))) (D.told disk.old) (D.told disk.new) }
    {
        let record = record_of(alloc, &self.held, body, group)?;
        self.log.put(alloc, disk, &record)
    }

    /// The others that wait are marked as members of a group of so many bodies, the first of which is another.
    fn mark_group(&mut self, serial: u64, tally: Tally)
        ensures home { home_of self.new ≡ home_of self.old }
        ensures journals { journals_of self.new ≡ journals_of self.old }
        ensures serials { serials_of self.new ≡ serials_of self.old }
        ensures log { log_of self.new ≡ log_of self.old }
        ensures stored { self.new.tally.stored ≡ tally.stored }
        ensures grouped { self.new.tally.grouped ≡ tally.grouped }
        ensures held { self.new.held.items ≡ marked serial tally.grouped 1 self.old.held.items }
    {
        mark(&mut self.held, serial, tally.grouped);
        self.tally = tally;
    }

    /// After an `Ok` the members of the group are stored. After `Failed` they stay marked, and else none is.
    fn after_put(&mut self, put: &Result<u64, LogFault>)
        ensures home { home_of self.new ≡ home_of self.old }
        ensures journals { journals_of self.new ≡ journals_of self.old }
        ensures serials { serials_of self.new ≡ serials_of self.old }
        ensures log { log_of self.new ≡ log_of self.old }
        ensures decided { IsDecidedBy put.now self.old.tally.stored self.old.tally.grouped self.old.held.items self.new.tally.stored self.new.tally.grouped self.new.held.items }
    {
        match put {
            Ok(_) => self.decide(true),
            Err(fault) => self.after_fault(*fault),
        }
    }

    fn after_fault(&mut self, fault: LogFault)
        ensures home { home_of self.new ≡ home_of self.old }
        ensures journals { journals_of self.new ≡ journals_of self.old }
        ensures serials { serials_of self.new ≡ serials_of self.old }
        ensures log { log_of self.new ≡ log_of self.old }
        ensures decided { IsDecidedAfter fault self.old.tally.stored self.old.tally.grouped self.old.held.items self.new.tally.stored self.new.tally.grouped self.new.held.items }
    {
        if is_failed(fault) {
            return;
        }
        self.decide(false);
    }

    /// The group is decided.
    fn decide(&mut self, is_in: bool)
        ensures home { home_of self.new ≡ home_of self.old }
        ensures journals { journals_of self.new ≡ journals_of self.old }
        ensures serials { serials_of self.new ≡ serials_of self.old }
        ensures log { log_of self.new ≡ log_of self.old }
        ensures held { self.new.held.items ≡ map (decided_held self.old.tally.stored is_in) self.old.held.items }
        ensures stored { self.new.tally.stored ≡ (if is_in then self.old.tally.stored + self.old.tally.grouped else self.old.tally.stored) }
        ensures grouped { self.new.tally.grouped ≡ 0 }
    {
        decide(&mut self.held, self.tally.stored, is_in);
        self.tally = self.tally.decided(is_in);
    }
}

/// Whether it leaves a record undecided.
fn is_failed(fault: LogFault) -> bool
    ensures { result ≡ is_failed fault }
{
    match fault {
        LogFault::Failed => true,
        LogFault::NoMemory | LogFault::NeedsMend | LogFault::Full | LogFault::BadRecord { .. } =>
            false,
    }
}

/// A body that is refused leaves the queue, and one for which memory ran out waits as before.
fn give_up(held: &mut Vec<Held>, serial: u64, fault: JournalFault)
    ensures { held.new.items ≡ held_left fault serial held.old.items }
{
    match fault {
        JournalFault::NoMemory => (),
        JournalFault::DiskFault { .. } | JournalFault::Full { .. } => forget(held, serial),
    }
}
