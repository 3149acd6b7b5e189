//! Why a body wasn't stored.
ghost use Rattle.std.specs.Prelude.{◌≡◌};
ghost use Rattle.body_journal.specs.Faults.{fault_of};
ghost use Rattle.body_journal.specs.declared.fault.JournalFault.TheVariants.{NoMemory};

use base_core::Want;
use record_log::LogFault;

/// Why a body wasn't stored.
#[derive(Clone, Copy, Debug, PartialEq, Eq)]
pub enum JournalFault {
    NoMemory,
    /// A call of this disk failed, whose count of faults then was this.
    DiskFault { disk: u32, count: u64 },
    /// The record would end past the limit of the journal.
    Full { disk: u32 },
}

impl JournalFault {
    /// The fault of a journal on this disk, whose count of faults is this.
    pub(crate) fn of(fault: LogFault, disk: u32, count: u64) -> JournalFault
        ensures { result ≡ fault_of fault disk count }
    {
        match fault {
            LogFault::Failed => JournalFault::DiskFault { disk, count },
            LogFault::Full => JournalFault::Full { disk },
            LogFault::NoMemory | LogFault::NeedsMend | LogFault::BadRecord { .. } => {
                JournalFault::NoMemory
            }
        }
    }
}

impl From<Want> for JournalFault {
    ghost from_gives = { λ _ e. e ≡ NoMemory };

    fn from(_e: Want) -> JournalFault {
        JournalFault::NoMemory
    }
}
