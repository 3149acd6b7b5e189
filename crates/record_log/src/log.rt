//! A log of records in one file.
//!
//! Each record stands behind a gate, and a put opens the gate once the record is on the disk. Between two calls the last
//! gate is closed, unless a put failed: then `mend` decides.
ghost use Rattle.std.specs.Prelude.{◌≡◌, ◌≢◌, ◌+◌, ◌<◌, ◌≤◌, ◌^◌, ◌↔◌, ◌⊎◌, ℕ, List, Option, ◌∷◌, ◌++◌, [], length, map, take, IsTrue, false, OnOk, OnErr, IfOk, IfErr, IsErrAnd, MatchResult, Ok, Err, Some, None, slice_get, if◌then◌else◌};
ghost use Rattle.base_core.specs.Faults.{IsCounted};
ghost use Rattle.disk_core.specs.Moments.{Told};
ghost use Rattle.record_log.specs.Devices.{ChangesOnly, ReadsFile, IsStoredAs, IsFresh, WhereTold, MomentsHave};
ghost use Rattle.record_log.specs.Faults.{IsOutside, IsReadFault, IsCountedBy, IsStartFault, IsPutFault, IsPreparedFault, IsBadRecordAt};
ghost use Rattle.record_log.specs.Items.{Carries, Decides, LogsSome, IsPut, with_one};
ghost use Rattle.record_log.specs.Records.{IsLog, IsBadLog, size_of};
ghost use Rattle.record_log.specs.Logs.{file_of, limit_of, sizes_of, undecided_of, needs_mend, count_of, end_of, gate_of, IsFull, HasRoom, IsSameLog, HasRecords, KeepsRecords, IsUndecided, IsEitherLog};
ghost use Rattle.record_log.specs.Steps.{IsReady, IsClosed, IsPerhapsClosed, with_stage, with_record};
ghost use Rattle.record_log.specs.declared.extent.Stage.{Stage as AnyStage};

use crate::extent::{Extent, HEAD_SIZE, Stage};
use crate::fault::LogFault;
use crate::gates::{CLOSED, OPEN, find_records, is_open_at};
use crate::prepared::Prepared;
use crate::through::write_through;
use base_core::Want;
use disk_core::{Disk, Failed};
use std::alloc::Global;

/// A log in a file of a device.
#[derive(Drop)]
pub struct RecordLog {
    file: u64,
    limit: u64,
    extent: Extent,
}

impl RecordLog {
    /// Starts the log of a file. A file of at most one byte is an empty log, and gets its closed gate.
    pub fn start<D: Disk>(
        alloc: Global,
        disk: &mut D,
        file: u64,
        limit: u64,
    ) -> Result<RecordLog, LogFault>
        ensures file { IfOk result (λ log. file_of log ≡ file) }
        ensures limit { IfOk result (λ log. limit_of log ≡ limit) }
        ensures settled { IfOk result (λ log. needs_mend log ≡ false) }
        ensures faults { IfErr result IsReadFault }
        ensures counted { IsCountedBy (D.fault_count disk.old) (D.fault_count disk.new) result }

        // It answers exactly the records of the file.
        ensures is_log { (bytes : List ℕ) → ReadsFile (D.told disk.old) file bytes → OnOk result ((bodies : List (List ℕ)) × IsLog bytes bodies) }
        ensures records { (bytes : List ℕ) (bodies : List (List ℕ)) → ReadsFile (D.told disk.old) file bytes → IsLog bytes bodies
            → IfOk result (λ log. HasRecords log (D.told disk.new) bodies) }
        ensures bad { (bytes : List ℕ) → ReadsFile (D.told disk.old) file bytes → IfErr result (IsStartFault bytes) }
        ensures is_bad { (bytes : List ℕ) (at : ℕ) → ReadsFile (D.told disk.old) file bytes → IsBadLog bytes at → IsErrAnd result (IsBadRecordAt at) }

        // What a crash leaves.
        ensures same { (bytes : List ℕ) → ReadsFile (D.told disk.old) file bytes → 1 < length bytes → D.told disk.new ≡ D.told disk.old }
        ensures others { ChangesOnly file (D.told disk.old) (D.told disk.new) }
        ensures keeps { (bytes : List ℕ) (bodies : List (List ℕ)) → IsStoredAs (D.told disk.old) file bytes → IsLog bytes bodies
            → IfOk result (λ log. KeepsRecords log (D.told disk.new) bodies) }
        ensures carries { (bytes : List ℕ) (bodies : List (List ℕ)) → IsStoredAs (D.told disk.old) file bytes → IsLog bytes bodies
            → IfOk result (λ log. Carries log (D.told disk.new) bodies None) }
        ensures moments { (bytes : List ℕ) (bodies : List (List ℕ)) → IsStoredAs (D.told disk.old) file bytes → IsLog bytes bodies
            → MomentsHave file (λ image. IsLog image bodies) (D.told disk.old) (D.told disk.new) }

        // A file that an earlier start may have begun.
        ensures fresh { IsFresh (D.told disk.old) file → MatchResult result (λ log. Carries log (D.told disk.new) [] None) (λ _. IsFresh (D.told disk.new) file) }
        ensures fresh_moments { IsFresh (D.told disk.old) file → MomentsHave file (λ image. length image ≤ 1) (D.told disk.old) (D.told disk.new) }
    {
        let size = disk.length(file)?;
        if size <= 1 {
            write_through(disk, file, 0, &[CLOSED])?;
            return Ok(RecordLog {
                file,
                limit,
                extent: Extent::new(alloc),
            });
        }
        let extent = find_records(alloc, disk, file, size)?;
        Ok(RecordLog {
            file,
            limit,
            extent,
        })
    }

    /// How many records are in.
    pub fn count(&self) -> u64
        ensures count { result ≡ count_of self.now }
        ensures records { (told : Told) (bodies : List (List ℕ)) → HasRecords self.now (Some told) bodies → result ≡ length bodies }
        ensures undecided { (told : Told) (bodies : List (List ℕ)) (body : List ℕ) → IsUndecided self.now (Some told) bodies body → result ≡ length bodies }
    {
        self.extent.count()
    }

    /// Whether a put failed, and no mend has decided yet.
    pub fn needs_mend(&self) -> bool
        ensures { result ≡ needs_mend self.now }
    {
        match self.extent.stage() {
            Stage::Settled => false,
            Stage::Begun { .. } | Stage::Opening { .. } => true,
        }
    }

    /// No record ends past this place.
    pub fn limit(&self) -> u64
        ensures { result ≡ limit_of self.now }
    {
        self.limit
    }

    /// Whether a record with a body of this size fits within the limit. An undecided one counts as kept.
    pub fn fits(&self, size: u64) -> bool
        ensures fits { (result ≡ false) ↔ IsFull self.now size }
        ensures ends { IsTrue result → end_of self.now + 6 + size < 2 ^ 64 }
    {
        let left = self.limit.saturating_sub(self.extent.kept_end());
        // The record ends with the next gate.
        match left.checked_sub(HEAD_SIZE + 1) {
            Some(most) => size <= most,
            None => false,
        }
    }

    /// The place of the gate of the k-th record, by which a bad record is named.
    pub fn place(&self, k: u64) -> u64
        requires { k < count_of self.now }
        ensures place { result ≡ gate_of self.now k }
        ensures records { (told : Told) (bodies : List (List ℕ)) → HasRecords self.now (Some told) bodies → result ≡ size_of (take k bodies) }
        ensures undecided { (told : Told) (bodies : List (List ℕ)) (body : List ℕ) → IsUndecided self.now (Some told) bodies body → result ≡ size_of (take k bodies) }
    {
        self.extent.at(k as usize).start.saturating_sub(HEAD_SIZE)
    }

    /// The body of the k-th record.
    pub fn read<D: Disk>(&self, alloc: Global, disk: &mut D, k: u64) -> Result<Vec<u8>, LogFault>
        requires { k < count_of self.now }
        ensures size { IfOk result (λ body. slice_get (sizes_of self.now) k ≡ Some (length body.items)) }
        ensures records { (bodies : List (List ℕ)) → HasRecords self.now (D.told disk.old) bodies
            → WhereTold (D.told disk.old) (MatchResult result (λ body. slice_get bodies k ≡ Some body.items) IsOutside) }
        ensures undecided { (bodies : List (List ℕ)) (last : List ℕ) → IsUndecided self.now (D.told disk.old) bodies last
            → WhereTold (D.told disk.old) (MatchResult result (λ body. slice_get bodies k ≡ Some body.items) IsOutside) }
        ensures faults { IfErr result IsReadFault }
        ensures at { IfErr result (IsBadRecordAt (gate_of self.now k)) }
        ensures same { D.told disk.new ≡ D.told disk.old }
        ensures counted { IsCountedBy (D.fault_count disk.old) (D.fault_count disk.new) result }
    {
        let place = self.extent.at(k as usize);
        let mut body = zeros(alloc, place.size)?;
        let count = disk.read_at(self.file, place.start, &mut body)?;
        if count < body.len() {
            return Err(LogFault::BadRecord { at: self.place(k) });
        }
        Ok(body)
    }

    /// Takes all the memory that a put of this body needs, also if an undecided record is kept before. After an `Err` the
    /// log is as it was.
    pub fn prepare(&mut self, alloc: Global, body: &[u8]) -> Result<Prepared, Want>
        requires { length body.now < 2 ^ 32 }
        ensures body { IfOk result (λ prepared. prepared ≡ body.now) }
        ensures room { OnOk result (HasRoom self.new) }
        ensures same { IsSameLog self.old self.new }
        ensures full { (size : ℕ) → IsFull self.new size ↔ IsFull self.old size }
        ensures err { OnErr result (self.new ≡ self.old) }
        ensures carries { (told : Option Told) (bodies : List (List ℕ)) (waiting : Option (List ℕ)) → Carries self.old told bodies waiting → Carries self.new told bodies waiting }
    {
        let prepared = Prepared::of(alloc, body)?;
        self.extent.reserve()?;
        Ok(prepared)
    }

    /// Puts a record behind the others and answers the new count. After `Failed` the record may be in or not, and the
    /// log needs a mend. After any other fault log and device are as they were.
    pub fn put<D: Disk>(
        &mut self,
        alloc: Global,
        disk: &mut D,
        body: &[u8],
    ) -> Result<u64, LogFault>
        requires { length body.now < 2 ^ 32 }
        ensures file { file_of self.new ≡ file_of self.old }
        ensures limit { limit_of self.new ≡ limit_of self.old }
        ensures count { IfOk result (λ n. n ≡ count_of self.old + 1) }
        ensures new_count { IfOk result (λ n. n ≡ count_of self.new) }
        ensures settled { OnOk result (needs_mend self.new ≡ false) }
        ensures sizes { OnOk result (sizes_of self.new ≡ sizes_of self.old ++ length body.now ∷ []) }

        // When each fault comes, and what stands after it.
        ensures needs_mend { (result ≡ Err LogFault.NeedsMend) ↔ IsTrue (needs_mend self.old) }
        ensures full { needs_mend self.old ≡ false → ((result ≡ Err LogFault.Full) ↔ IsFull self.old (length body.now)) }
        ensures failed { result ≡ Err LogFault.Failed → IsTrue (needs_mend self.new) }
        ensures one_undecided { result ≡ Err LogFault.Failed → undecided_of self.new ≡ Some (length body.now) }
        ensures same_sizes { OnErr result (sizes_of self.new ≡ sizes_of self.old) }
        ensures faults { IfErr result IsPutFault }
        ensures same_log { IfErr result (λ fault. fault ≢ LogFault.Failed → self.new ≡ self.old) }
        ensures same_disk { IfErr result (λ fault. fault ≢ LogFault.Failed → disk.new ≡ disk.old) }
        ensures counted { IsCountedBy (D.fault_count disk.old) (D.fault_count disk.new) result }

        // After an Ok the record is in, whatever was pending before.
        ensures records { (bodies : List (List ℕ)) → HasRecords self.old (D.told disk.old) bodies
            → OnOk result (HasRecords self.new (D.told disk.new) (bodies ++ body.now ∷ [])) }
        ensures keeps { (bodies : List (List ℕ)) → HasRecords self.old (D.told disk.old) bodies
            → OnOk result (KeepsRecords self.new (D.told disk.new) (bodies ++ body.now ∷ [])) }

        // What a crash leaves, at any moment of the call and after a fault.
        ensures others { ChangesOnly (file_of self.old) (D.told disk.old) (D.told disk.new) }
        ensures moments { (bodies : List (List ℕ)) → HasRecords self.old (D.told disk.old) bodies → KeepsRecords self.old (D.told disk.old) bodies
            → MomentsHave (file_of self.old) (IsEitherLog bodies body.now) (D.told disk.old) (D.told disk.new) }
        ensures undecided { (bodies : List (List ℕ)) → HasRecords self.old (D.told disk.old) bodies → KeepsRecords self.old (D.told disk.old) bodies
            → result ≡ Err LogFault.Failed → IsUndecided self.new (D.told disk.new) bodies body.now }

        // The same for the bodies that the log carries.
        ensures carries { (bodies : List (List ℕ)) → Carries self.old (D.told disk.old) bodies None → IsPut self.new (D.told disk.new) bodies body.now result }
        ensures leaves { (bodies : List (List ℕ)) → Carries self.old (D.told disk.old) bodies None
            → MomentsHave (file_of self.old) (LogsSome (Decides bodies (Some body.now))) (D.told disk.old) (D.told disk.new) }
    {
        if self.needs_mend() {
            return Err(LogFault::NeedsMend);
        }
        if !self.fits(body.len() as u64) {
            return Err(LogFault::Full);
        }
        let prepared = self.prepare(alloc, body)?;
        self.put_prepared(disk, &prepared)
    }

    /// Puts a record whose memory is taken, and takes no more. Else it is as `put`.
    pub fn put_prepared<D: Disk>(
        &mut self,
        disk: &mut D,
        prepared: &Prepared,
    ) -> Result<u64, LogFault>
        requires { HasRoom self.old }
        ensures file { file_of self.new ≡ file_of self.old }
        ensures limit { limit_of self.new ≡ limit_of self.old }
        ensures count { IfOk result (λ n. n ≡ count_of self.old + 1) }
        ensures new_count { IfOk result (λ n. n ≡ count_of self.new) }
        ensures settled { OnOk result (needs_mend self.new ≡ false) }
        ensures sizes { OnOk result (sizes_of self.new ≡ sizes_of self.old ++ length prepared.now ∷ []) }

        // When each fault comes, and what stands after it.
        ensures needs_mend { (result ≡ Err LogFault.NeedsMend) ↔ IsTrue (needs_mend self.old) }
        ensures full { needs_mend self.old ≡ false → ((result ≡ Err LogFault.Full) ↔ IsFull self.old (length prepared.now)) }
        ensures failed { result ≡ Err LogFault.Failed → IsTrue (needs_mend self.new) }
        ensures one_undecided { result ≡ Err LogFault.Failed → undecided_of self.new ≡ Some (length prepared.now) }
        ensures same_sizes { OnErr result (sizes_of self.new ≡ sizes_of self.old) }
        ensures faults { IfErr result IsPreparedFault }
        ensures same_log { IfErr result (λ fault. fault ≢ LogFault.Failed → self.new ≡ self.old) }
        ensures same_disk { IfErr result (λ fault. fault ≢ LogFault.Failed → disk.new ≡ disk.old) }
        ensures counted { IsCountedBy (D.fault_count disk.old) (D.fault_count disk.new) result }

        // After an Ok the record is in, whatever was pending before.
        ensures records { (bodies : List (List ℕ)) → HasRecords self.old (D.told disk.old) bodies
            → OnOk result (HasRecords self.new (D.told disk.new) (bodies ++ prepared.now ∷ [])) }
        ensures keeps { (bodies : List (List ℕ)) → HasRecords self.old (D.told disk.old) bodies
            → OnOk result (KeepsRecords self.new (D.told disk.new) (bodies ++ prepared.now ∷ [])) }

        // What a crash leaves, at any moment of the call and after a fault.
        ensures others { ChangesOnly (file_of self.old) (D.told disk.old) (D.told disk.new) }
        ensures moments { (bodies : List (List ℕ)) → HasRecords self.old (D.told disk.old) bodies → KeepsRecords self.old (D.told disk.old) bodies
            → MomentsHave (file_of self.old) (IsEitherLog bodies prepared.now) (D.told disk.old) (D.told disk.new) }
        ensures undecided { (bodies : List (List ℕ)) → HasRecords self.old (D.told disk.old) bodies → KeepsRecords self.old (D.told disk.old) bodies
            → result ≡ Err LogFault.Failed → IsUndecided self.new (D.told disk.new) bodies prepared.now }

        // The same for the bodies that the log carries.
        ensures carries { (bodies : List (List ℕ)) → Carries self.old (D.told disk.old) bodies None → IsPut self.new (D.told disk.new) bodies prepared.now result }
        ensures leaves { (bodies : List (List ℕ)) → Carries self.old (D.told disk.old) bodies None
            → MomentsHave (file_of self.old) (LogsSome (Decides bodies (Some prepared.now))) (D.told disk.old) (D.told disk.new) }
    {
        if self.needs_mend() {
            return Err(LogFault::NeedsMend);
        }
        let size = prepared.size();
        if !self.fits(u64::from(size)) {
            return Err(LogFault::Full);
        }
        self.write_record(disk, prepared.bytes(), size)?;
        Ok(self.count())
    }

    /// Decides whether the record of a put that failed is in, and answers that. It takes no memory. After `Failed` the log
    /// needs a mend as before. A log that needs none answers false.
    pub fn mend<D: Disk>(&mut self, disk: &mut D) -> Result<bool, LogFault>
        ensures file { file_of self.new ≡ file_of self.old }
        ensures limit { limit_of self.new ≡ limit_of self.old }
        ensures room { HasRoom self.old → HasRoom self.new }
        ensures full { (size : ℕ) → IsFull self.new size → IsFull self.old size }
        ensures settled { OnOk result (needs_mend self.new ≡ false) }
        ensures sizes { IfOk result (λ is_in. sizes_of self.new ≡ (if is_in then with_one (sizes_of self.old) (undecided_of self.old) else sizes_of self.old)) }
        ensures count { IfOk result (λ is_in. count_of self.new ≡ (if is_in then count_of self.old + 1 else count_of self.old)) }
        ensures failed { IfErr result (λ fault. fault ≡ LogFault.Failed) }
        ensures err { OnErr result (self.new ≡ self.old) }
        ensures not_needed { needs_mend self.old ≡ false → (result ≡ Ok false) × (self.new ≡ self.old) × (disk.new ≡ disk.old) }
        ensures counted { IsCountedBy (D.fault_count disk.old) (D.fault_count disk.new) result }

        // What a crash leaves, at any moment of the call and after it.
        ensures others { ChangesOnly (file_of self.old) (D.told disk.old) (D.told disk.new) }
        ensures moments { (bodies : List (List ℕ)) (body : List ℕ) → IsUndecided self.old (D.told disk.old) bodies body
            → MomentsHave (file_of self.old) (IsEitherLog bodies body) (D.told disk.old) (D.told disk.new) }
        ensures decided { (bodies : List (List ℕ)) (body : List ℕ) → IsUndecided self.old (D.told disk.old) bodies body
            → IfOk result (λ is_in. HasRecords self.new (D.told disk.new) (if is_in then bodies ++ body ∷ [] else bodies)) }
        ensures keeps { (bodies : List (List ℕ)) (body : List ℕ) → IsUndecided self.old (D.told disk.old) bodies body
            → IfOk result (λ is_in. KeepsRecords self.new (D.told disk.new) (if is_in then bodies ++ body ∷ [] else bodies)) }
        ensures undecided { (bodies : List (List ℕ)) (body : List ℕ) → IsUndecided self.old (D.told disk.old) bodies body
            → OnErr result (IsUndecided self.new (D.told disk.new) bodies body) }

        // The same for the bodies that the log carries, and for what is undecided, if anything is.
        ensures carries { (bodies : List (List ℕ)) (waiting : Option (List ℕ)) → Carries self.old (D.told disk.old) bodies waiting
            → MatchResult result (λ is_in. Carries self.new (D.told disk.new) (if is_in then with_one bodies waiting else bodies) None) (λ _. Carries self.new (D.told disk.new) bodies waiting) }
        ensures leaves { (bodies : List (List ℕ)) (waiting : Option (List ℕ)) → Carries self.old (D.told disk.old) bodies waiting
            → MomentsHave (file_of self.old) (LogsSome (Decides bodies waiting)) (D.told disk.old) (D.told disk.new) }
    {
        if !self.needs_mend() {
            return Ok(false);
        }
        if is_open_at(disk, self.file, self.extent.end())? {
            disk.sync(self.file)?;
            self.extent.keep();
            return Ok(true);
        }
        self.close_gate(disk)?;
        self.extent.leave_out();
        Ok(false)
    }

    /// The four device calls of a put. The bytes are the length, the body and a closed gate.
    fn write_record<D: Disk>(&mut self, disk: &mut D, bytes: &[u8], size: u32) -> Result<(), Failed>
        requires room { 0 < self.old.extent.room }
        requires fits { end_of self.old + 6 + size < 2 ^ 64 }
        ensures ok { OnOk result (self.new ≡ with_record (with_stage self.old (AnyStage.Opening size))) }
        ensures err { OnErr result ((self.new ≡ with_stage self.old (AnyStage.Begun size)) ⊎ (self.new ≡ with_stage self.old (AnyStage.Opening size))) }
        ensures counted { IsCounted (D.fault_count disk.old) (D.fault_count disk.new) result }
        ensures others { ChangesOnly (file_of self.old) (D.told disk.old) (D.told disk.new) }
        ensures moments { (bodies : List (List ℕ)) (body : List ℕ) → size ≡ length body → IsReady self.old (D.told disk.old) bodies body bytes.now
            → KeepsRecords self.old (D.told disk.old) bodies
            → MomentsHave (file_of self.old) (IsEitherLog bodies body) (D.told disk.old) (D.told disk.new) }
        ensures records { (bodies : List (List ℕ)) (body : List ℕ) → size ≡ length body → IsReady self.old (D.told disk.old) bodies body bytes.now
            → OnOk result (HasRecords self.new (D.told disk.new) (bodies ++ body ∷ [])) }
        ensures keeps { (bodies : List (List ℕ)) (body : List ℕ) → size ≡ length body → IsReady self.old (D.told disk.old) bodies body bytes.now
            → OnOk result (KeepsRecords self.new (D.told disk.new) (bodies ++ body ∷ [])) }
        ensures undecided { (bodies : List (List ℕ)) (body : List ℕ) → size ≡ length body → IsReady self.old (D.told disk.old) bodies body bytes.now
            → KeepsRecords self.old (D.told disk.old) bodies
            → OnErr result (IsUndecided self.new (D.told disk.new) bodies body) }
    {
        let gate = self.extent.end();
        self.extent.begin(size);
        write_through(disk, self.file, gate + 1, bytes)?;
        self.extent.open();
        write_through(disk, self.file, gate, &[OPEN])?;
        self.extent.keep();
        Ok(())
    }

    /// Closes the last gate, if the put had begun to write it. If it had not, the gate stands closed as it was, and a crash
    /// in a write could open it before a record that isn't whole.
    fn close_gate<D: Disk>(&self, disk: &mut D) -> Result<(), Failed>
        ensures counted { IsCounted (D.fault_count disk.old) (D.fault_count disk.new) result }
        ensures ok { OnOk result (IsClosed self.now.extent.stage self.now.file (end_of self.now) (D.told disk.old) (D.told disk.new)) }
        ensures err { OnErr result (IsPerhapsClosed self.now.extent.stage self.now.file (end_of self.now) (D.told disk.old) (D.told disk.new)) }
    {
        match self.extent.stage() {
            Stage::Opening { .. } => write_through(disk, self.file, self.extent.end(), &[CLOSED]),
            Stage::Settled | Stage::Begun { .. } => Ok(()),
        }
    }
}

fn zeros(alloc: Global, size: u32) -> Result<Vec<u8>, Want>
    ensures { IfOk result (λ made. length made.items ≡ size) }
{
    Ok(vec![in alloc; 0; size as usize]?)
}
