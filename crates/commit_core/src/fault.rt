//! Why the commit room gave no answer.
ghost use Rattle.std.specs.Prelude.{◌≡◌};
ghost use Rattle.commit_core.specs.declared.fault.CommitFault.TheVariants.{NoMemory};

use base_core::Want;

/// Why the commit room gave no answer.
#[derive(Clone, Copy, Debug, PartialEq, Eq)]
pub enum CommitFault {
    NoMemory,
    /// The put of the change's record failed, and the count of faults rose to this. The next commit, settle or opening
    /// decides whether the change comes in.
    Unsure { count: u64 },
    /// There are as many commits as there may be.
    HistoryFull,
    /// The mend of an earlier record failed, and the count of faults rose to this. Nothing was committed.
    DiskFault { count: u64 },
    /// The record would end past the limit of the log.
    LogFull,
}

impl From<Want> for CommitFault {
    ghost from_gives = { λ _ e. e ≡ NoMemory };

    fn from(_e: Want) -> CommitFault {
        CommitFault::NoMemory
    }
}
