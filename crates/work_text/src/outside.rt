//! The outside that a run reads from and prints to.
//!
//! Each object counts its faults in a number that never falls. A call answers `Failed` only where that number rose
//! in this call, so that code over these traits can't make a fault up. What an object holds is told or not: an
//! object that doesn't tell, as one over real files, has `None` there, and the clauses then say nothing of it.
ghost use Rattle.std.specs.Prelude.{◌≡◌, ℕ, ◌<◌, ◌≤◌, List, [], Option, length, take, IfOk, OnOk, OnErr};
ghost use Rattle.base_core.specs.Faults.{IsCounted};
ghost use Rattle.work_text.specs.Outside.{IsFetched, IsRead, IsTaken};

use base_core::Text;

/// A call of the outside failed, and the count of faults rose.
#[derive(Clone, Copy, Debug, PartialEq, Eq)]
pub struct Failed;

/// Documents under names.
pub trait Shelf {
    /// Names and bytes, where they are told; of two documents of one name the first counts.
    ghost documents: { Self → Option (List (List ℕ × List ℕ)) };

    /// What is left of the document that is being read.
    ghost left: { Self → Option (List ℕ) };

    ghost fault_count: { Self → ℕ };

    fn faults(&self) -> u64
        ensures { result ≡ fault_count self.now };

    /// Whether there is a document of that name. If so, reading begins at its front.
    fn fetch(&mut self, name: &Text) -> Result<bool, Failed>
        ensures same { documents self.new ≡ documents self.old }
        ensures counted { IsCounted (fault_count self.old) (fault_count self.new) result }
        ensures kept { OnOk result (fault_count self.new ≡ fault_count self.old) }
        ensures found { IfOk result (λ found. IsFetched (documents self.old) name.now found (left self.new)) };

    /// Reads on into the front of `out`, and answers how many bytes; 0 is the end.
    fn read(&mut self, out: &mut [u8]) -> Result<usize, Failed>
        requires { 0 < length out.old }
        ensures same { documents self.new ≡ documents self.old }
        ensures counted { IsCounted (fault_count self.old) (fault_count self.new) result }
        ensures kept { OnOk result (fault_count self.new ≡ fault_count self.old) }
        ensures within { IfOk result (λ n. n ≤ length out.new) }
        ensures bytes { IfOk result (λ n. IsRead (left self.old) (left self.new) (take n out.new)) };
}

/// Where a run prints to.
pub trait Sink {
    /// All bytes that were taken so far, where they are told.
    ghost taken: { Self → Option (List ℕ) };

    ghost fault_count: { Self → ℕ };

    fn faults(&self) -> u64
        ensures { result ≡ fault_count self.now };

    /// Takes a front of the bytes, at least one, and answers how many. After `Failed` it took none of them.
    fn write(&mut self, bytes: &[u8]) -> Result<usize, Failed>
        requires { 0 < length bytes.now }
        ensures counted { IsCounted (fault_count self.old) (fault_count self.new) result }
        ensures kept { OnOk result (fault_count self.new ≡ fault_count self.old) }
        ensures some { IfOk result (λ n. (0 < n) × (n ≤ length bytes.now)) }
        ensures ok { IfOk result (λ n. IsTaken (taken self.old) (taken self.new) (take n bytes.now)) }
        ensures err { OnErr result (IsTaken (taken self.old) (taken self.new) []) };
}
