//! How many lines are of each service.
ghost use Rattle.std.specs.Prelude.{◌≡◌, ◌+◌, ◌<◌, ◌≤◌, ◌==◌, ◌^◌, if◌then◌else◌, ℕ, length, slice_index, vec_len, IfOk};
ghost use Rattle.place_core.specs.Places.{AreCounts};

use crate::shards::Line;
use base_core::Want;
use std::alloc::Global;

/// How many of the lines are of each service, from service 1 on.
pub(crate) fn counts_of(alloc: Global, lines: &[Line], services: u32) -> Result<Vec<u32>, Want>
    requires few { length lines.now < 2 ^ 32 }
    ensures { IfOk result (λ counts. AreCounts services lines.now counts.items) }
{
    let mut counts = zeros(alloc, services as usize)?;
    'lines: for line in lines {
        count_one(&mut counts, line.service);
    }
    Ok(counts)
}

// One more of this service.
fn count_one(counts: &mut Vec<u32>, service: u32)
    requires room { (before : ℕ) → before < vec_len counts.old → slice_index counts.old.items before + 1 < 2 ^ 32 }
    ensures long { vec_len counts.new ≡ vec_len counts.old }
    ensures counted { (before : ℕ) → before < vec_len counts.old → slice_index counts.new.items before ≡ (if service == before + 1 then slice_index counts.old.items before + 1 else slice_index counts.old.items before) }
{
    if service == 0 {
        return;
    }
    let before = service as usize - 1;
    if before < counts.len() {
        counts[before] += 1;
    }
}

fn zeros(alloc: Global, count: usize) -> Result<Vec<u32>, Want>
    ensures long { IfOk result (λ v. vec_len v ≡ count) }
    ensures zero { IfOk result (λ v. (n : ℕ) → slice_index v.items n ≡ 0) }
{
    Ok(Vec::from_elem(alloc, 0, count)?)
}
