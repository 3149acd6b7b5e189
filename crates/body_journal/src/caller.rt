// A caller of the journals, as their page shows it. It is proved with the tests.
ghost use Rattle.std.specs.Prelude.{◌≤◌, ◌++◌, ℕ, List as Items, length, IfOk};
ghost use Rattle.body_journal.specs.Journals.{IsAt};
ghost use Rattle.body_journal.specs.Stores.{Stores};

use crate::{BodyJournal, JournalFault};
use disk_core::Disk;
use std::alloc::Global;

/// Stores two bodies, and answers their numbers. The second is most often stored with the first.
pub fn store_both<D: Disk>(
    alloc: Global,
    journal: &mut BodyJournal,
    disk: &mut D,
    first: Vec<u8>,
    second: Vec<u8>,
) -> Result<(u64, u64), JournalFault>
    requires first { length first.items ≤ 67108864 }
    requires second { length second.items ≤ 67108864 }
    ensures both { (bodies : Items (Items ℕ)) → Stores (D.told disk.old) journal.old bodies
        → (more : Items (Items ℕ)) × Stores (D.told disk.new) journal.new (bodies ++ more)
        × IfOk result (λ numbers. IsAt (bodies ++ more) numbers.0 first.items × IsAt (bodies ++ more) numbers.1 second.items) }
{
    let one = journal.queue_body(alloc, first)?;
    let other = journal.queue_body(alloc, second)?;
    let one = journal.flush_group(alloc, disk, one)?;
    let other = journal.flush_group(alloc, disk, other)?;
    Ok((one.body, other.body))
}
