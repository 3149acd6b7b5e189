//! What all windows answer, whether they are in memory or in a file.
ghost use Rattle.std.specs.Prelude.{◌≡◌, ℕ, ◌≤◌, List, Option, IfOk, IfErr, IfSome};
ghost use Rattle.std.specs.List.{AllByRecursion};
ghost use Rattle.fed_bytes.specs.declared.span.Span.{Span};
ghost use Rattle.disk_core.specs.Moments.{Told};
ghost use Rattle.row_core.specs.declared.rows.Row.{Row};
ghost use Rattle.row_core.specs.Rows.{IsLast, IsChunk, IsWindow};
ghost use Rattle.window_core.specs.Windows.{IsCountedBy, IsNoDamage, IsCause, IsFound, IsPart, IsPassage};

use crate::fault::WindowFault;
use disk_core::Disk;
use fed_bytes::Span;
use row_core::{Chunk, Row};
use std::alloc::Global;

/// The rows of one index whose keys are in a span and whose times are above `from` and at most `upto`.
pub trait Window {
    ghost rows: { Self → List Row };

    /// How a device must stand for the rows to stand on it. A window in memory asks nothing of them.
    ghost stands: { Self → Option Told → Type 0 };

    /// The block in which the row stands is, as the device tells it, the one that the window keeps. A window in memory
    /// has no blocks, and says nothing of its rows.
    ghost kept: { Self → Option Told → Row → Type 0 };

    /// The bytes of this block have, as the device tells them, the digest that the window keeps for it, and are no rows.
    /// A window in memory has no such block.
    ghost bad_rows: { Self → Option Told → ℕ → Type 0 };

    ghost span: { Self → Span };

    ghost from: { Self → ℕ };

    ghost upto: { Self → ℕ };

    ghost floor: { Self → ℕ };

    fn span(&self) -> &Span
        ensures { result.now ≡ span self.now };

    fn from(&self) -> u64
        ensures { result ≡ from self.now };

    fn upto(&self) -> u64
        ensures { result ≡ upto self.now };

    /// The time below which rows may have been pruned.
    fn floor(&self) -> u64
        ensures { result ≡ floor self.now };

    /// The newest row of the key at or before the time.
    fn last<D: Disk>(
        &self,
        alloc: Global,
        disk: &mut D,
        key: &[u8],
        t: u64,
    ) -> Result<Option<Row>, WindowFault>
        ensures last { stands self.now (D.told disk.old) → IfOk result (IsLast (rows self.now) key.now t) }
        ensures found { IfOk result (IsFound (span self.now) (from self.now) (upto self.now) key.now t) }
        ensures kept { IfOk result (λ found. IfSome found (kept self.now (D.told disk.old))) }
        ensures whole { stands self.now (D.told disk.old) → IfErr result IsNoDamage }
        ensures cause { IfErr result (IsCause (bad_rows self.now (D.told disk.old))) }
        ensures same { D.told disk.new ≡ D.told disk.old }
        ensures counted { IsCountedBy (D.fault_count disk.old) (D.fault_count disk.new) result };

    /// All rows of the first `most` keys from a key on, and the key behind them. A window that doesn't stand on its device
    /// may pass keys that leave no row.
    fn chunk<D: Disk>(
        &self,
        alloc: Global,
        disk: &mut D,
        key: &[u8],
        most: u32,
    ) -> Result<Chunk, WindowFault>
        requires { 1 ≤ most }
        ensures chunk { stands self.now (D.told disk.old) → IfOk result (IsChunk (rows self.now) key.now most) }
        ensures part { IfOk result (IsPart (span self.now) (from self.now) (upto self.now) key.now) }
        ensures passage { IfOk result (IsPassage (span self.now) key.now most) }
        ensures kept { IfOk result (λ chunk. AllByRecursion (kept self.now (D.told disk.old)) chunk.rows) }
        ensures whole { stands self.now (D.told disk.old) → IfErr result IsNoDamage }
        ensures cause { IfErr result (IsCause (bad_rows self.now (D.told disk.old))) }
        ensures same { D.told disk.new ≡ D.told disk.old }
        ensures counted { IsCountedBy (D.fault_count disk.old) (D.fault_count disk.new) result };

    /// What is true of each window.
    ghost holds: { (window : Self) → IsWindow (span window) (from window) (upto window) (rows window) };
}
