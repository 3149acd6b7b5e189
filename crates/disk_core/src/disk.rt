//! A device with numbered files.
//!
//! A file that was never written has the length 0, and a file of length 0 counts as missing. Each device counts its
//! failed calls in a number that never falls, and a call answers `Failed` only where that number rose in this call, so
//! that code over this trait can't make a fault up.
//!
//! A device may tell what its files hold and what a crash may leave of them, or neither. Between two syncs of a file any
//! byte may stand where one was written, the length may be any that the file had, and all other bytes are those that
//! the last sync stored (`specs/Files.antt`). A device that tells has moments, one more with each call that changes
//! what a crash may leave (`specs/Moments.antt`): so a claim on all its new moments, and on the one at the entry, is a
//! claim on a crash at any point within a call. A device that doesn't tell, as one over real files, has `None` there,
//! and the clauses then say nothing of the files.
ghost use Rattle.std.specs.Prelude.{◌≡◌, ℕ, ◌≤◌, Option, length, take, IfOk, OnErr, OnOk};
ghost use Rattle.disk_core.specs.Moments.{Told};
ghost use Rattle.base_core.specs.Faults.{IsCounted};
ghost use Rattle.disk_core.specs.Disk.{TellsSound, IsLengthOf, IsGreatest, IsReadAt, IsWritten, IsPerhapsWritten, IsSynced, IsRemoved, IsHalfRemoved};

/// A call of the device failed, and the count of faults rose.
#[derive(Clone, Copy, Debug, PartialEq, Eq)]
pub struct Failed;

/// Numbered files.
pub trait Disk {
    /// The files at each moment, where they are told.
    ghost told: { Self → Option Told };

    ghost fault_count: { Self → ℕ };

    /// How many calls have failed.
    fn faults(&self) -> u64
        ensures { result ≡ fault_count self.now };

    fn length(&mut self, file: u64) -> Result<u64, Failed>
        ensures same { told self.new ≡ told self.old }
        ensures counted { IsCounted (fault_count self.old) (fault_count self.new) result }
        ensures ok { IfOk result (IsLengthOf (told self.old) file) };

    /// The greatest number of a file that isn't missing, or 0.
    fn greatest(&mut self) -> Result<u64, Failed>
        ensures same { told self.new ≡ told self.old }
        ensures counted { IsCounted (fault_count self.old) (fault_count self.new) result }
        ensures ok { IfOk result (IsGreatest (told self.old)) };

    /// Fills the front of `out` with what stands from `at` on, and answers how many bytes that is: fewer than there is
    /// room for only at the end of the file.
    fn read_at(&mut self, file: u64, at: u64, out: &mut [u8]) -> Result<usize, Failed>
        ensures same { told self.new ≡ told self.old }
        ensures counted { IsCounted (fault_count self.old) (fault_count self.new) result }
        ensures within { IfOk result (λ n. n ≤ length out.new) }
        ensures bytes { IfOk result (λ n. IsReadAt (told self.old) file at (length out.new) (take n out.new)) };

    /// Puts the bytes into the file from `at` on; a gap before them reads as zeros. After `Failed` the written range may
    /// read as anything.
    fn write_at(&mut self, file: u64, at: u64, bytes: &[u8]) -> Result<(), Failed>
        ensures counted { IsCounted (fault_count self.old) (fault_count self.new) result }
        ensures ok { OnOk result (IsWritten file at bytes.now (told self.old) (told self.new)) }
        ensures err { OnErr result (IsPerhapsWritten file at (length bytes.now) (told self.old) (told self.new)) };

    /// After an `Ok` a crash leaves what reads give of the file. After `Failed` all is as it was.
    fn sync(&mut self, file: u64) -> Result<(), Failed>
        ensures counted { IsCounted (fault_count self.old) (fault_count self.new) result }
        ensures ok { OnOk result (IsSynced file (told self.old) (told self.new)) }
        ensures err { OnErr result (told self.new ≡ told self.old) };

    /// Makes the length of the file 0. After `Failed` the file is as it was, or its length is 0.
    fn remove(&mut self, file: u64) -> Result<(), Failed>
        ensures counted { IsCounted (fault_count self.old) (fault_count self.new) result }
        ensures ok { OnOk result (IsRemoved file (told self.old) (told self.new)) }
        ensures err { OnErr result (IsHalfRemoved file (told self.old) (told self.new)) };

    /// What reads give of a file, and what the last sync stored of it, are among what a crash may leave.
    ghost sound: { (disk : Self) → TellsSound (told disk) };
}
