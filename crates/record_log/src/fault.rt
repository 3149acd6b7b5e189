//! Why a log gave no answer.
ghost use Rattle.std.specs.Prelude.{◌≡◌};
ghost use Rattle.record_log.specs.declared.fault.LogFault.TheVariants.{NoMemory, Failed};

use base_core::Want;

/// Why a log gave no answer.
#[derive(Clone, Copy, Debug, PartialEq, Eq)]
pub enum LogFault {
    NoMemory,
    /// A call of the device failed.
    Failed,
    /// A put failed, and no mend has decided yet whether its record is in.
    NeedsMend,
    /// The record would end past the limit of the log.
    Full,
    /// Behind the open gate at this place no record and next gate stand.
    BadRecord { at: u64 },
}

impl From<Want> for LogFault {
    ghost from_gives = { λ _ e. e ≡ NoMemory };

    fn from(_e: Want) -> LogFault {
        LogFault::NoMemory
    }
}

impl From<disk_core::Failed> for LogFault {
    ghost from_gives = { λ _ e. e ≡ Failed };

    fn from(_e: disk_core::Failed) -> LogFault {
        LogFault::Failed
    }
}
