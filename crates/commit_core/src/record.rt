//! The body of a commit record.
ghost use Rattle.std.specs.Prelude.{◌≡◌, ◌<◌, ◌^◌, ◌∷◌, length, IfOk};
ghost use Rattle.base_core.specs.Numbers.{number_bytes};

use base_core::{Want, put_u64};
use std::alloc::Global;

/// How many bytes a commit record has: one of the home, and eight of the body's number.
const RECORD_SIZE: usize = 9;

/// The record of a change whose body has this number at this home.
pub(crate) fn record_of(alloc: Global, home: u8, number: u64) -> Result<Vec<u8>, Want>
    ensures { IfOk result (λ made. made.items ≡ home ∷ number_bytes number) }
{
    let mut record = Vec::with_capacity(alloc, RECORD_SIZE)?;
    record.push(home)?;
    put_u64(number, &mut record)?;
    Ok(record)
}
