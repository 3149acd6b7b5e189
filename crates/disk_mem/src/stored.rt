//! What the last syncs of a disk stored, from the files that it began with and the calls that have changed it.
//!
//! The calls are done once more, but for those behind which their file was not synced. For that it is counted how often
//! each file is synced in the calls that are still to come.
ghost use Rattle.std.specs.Prelude.{◌≡◌, ◌<◌, ◌+◌, ◌-◌, ◌^◌, ℕ, IfOk, OnOk};
ghost use Rattle.disk_mem.specs.Contents.{bytes_in, SameBytes};
ghost use Rattle.disk_mem.specs.Replay.{begun, replayed, file_of, IsApplied};
ghost use Rattle.disk_mem.specs.Syncs.{syncs_in, count_in, AreCounted};

use crate::call::Call;
use crate::contents::Contents;
use std::alloc::{AllocError, Global};
use std::collections::BTreeMap;

/// What the last sync of each file stored.
pub(crate) fn stored(
    alloc: Global,
    first: &Contents,
    calls: &[Call],
) -> Result<Contents, AllocError>
    ensures { IfOk result (λ stored. (file : ℕ) → bytes_in stored.files file ≡ ((replayed (begun (bytes_in first.now.files)) calls.now).now file).stored) }
{
    let mut left = syncs(alloc, calls)?;
    let mut stored = first.copy()?;
    'calls: for call in calls {
        redo(alloc, &mut left, &mut stored, call)?;
    }
    Ok(stored)
}

/// Does a call if its file is synced in it or later, which `left` tells, and counts its sync off there.
fn redo(
    alloc: Global,
    left: &mut BTreeMap<u64, u64>,
    stored: &mut Contents,
    call: &Call,
) -> Result<(), AllocError>
    ensures left { OnOk result ((file : ℕ) → count_in left.new file ≡ count_in left.old file - syncs_in file call.now) }
    ensures redone { OnOk result (0 < count_in left.old (file_of call.now) → IsApplied call.now stored.old.files stored.new.files) }
    ensures kept { OnOk result (count_in left.old (file_of call.now) ≡ 0 → SameBytes stored.old.files stored.new.files) }
{
    let count = count_of(left, call.file());
    if count == 0 {
        return Ok(());
    }
    if let Call::Sync { file } = call {
        left.insert(*file, count - 1)?;
    }
    stored.apply(alloc, call)
}

/// How often each file is synced.
fn syncs(alloc: Global, calls: &[Call]) -> Result<BTreeMap<u64, u64>, AllocError>
    ensures { IfOk result (λ counts. AreCounted counts calls.now) }
{
    let mut counts = BTreeMap::new(alloc);
    'calls: for call in calls {
        count_sync(&mut counts, call)?;
    }
    Ok(counts)
}

fn count_sync(counts: &mut BTreeMap<u64, u64>, call: &Call) -> Result<(), AllocError>
    requires { (file : ℕ) → count_in counts.old file + syncs_in file call.now < 2 ^ 64 }
    ensures { OnOk result ((file : ℕ) → count_in counts.new file ≡ count_in counts.old file + syncs_in file call.now) }
{
    if let Call::Sync { file } = call {
        let count = count_of(counts, *file) + 1;
        counts.insert(*file, count)?;
    }
    Ok(())
}

fn count_of(counts: &BTreeMap<u64, u64>, file: u64) -> u64
    ensures { result ≡ count_in counts.now file }
{
    counts.get(&file).copied().unwrap_or(0)
}
