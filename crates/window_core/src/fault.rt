//! Why a window gave no answer.
ghost use Rattle.std.specs.Prelude.{◌≡◌};
ghost use Rattle.window_core.specs.declared.fault.WindowFault.TheVariants.{NoMemory, Failed};

use base_core::Want;

/// Why a window gave no answer. A window in memory answers want of memory alone.
#[derive(Clone, Copy, Debug, PartialEq, Eq)]
pub enum WindowFault {
    NoMemory,
    /// A call of the device failed.
    Failed,
    /// The digest of a block isn't the one that was kept for it.
    Damaged {
        block: u32,
        kept: [u8; 32],
        found: [u8; 32],
    },
    /// The digest of a block is the one that was kept for it, and its bytes are no rows.
    BadRows {
        block: u32,
    },
}

impl From<Want> for WindowFault {
    ghost from_gives = { λ _ e. e ≡ NoMemory };

    fn from(_e: Want) -> WindowFault {
        WindowFault::NoMemory
    }
}

impl From<disk_core::Failed> for WindowFault {
    ghost from_gives = { λ _ e. e ≡ Failed };

    fn from(_e: disk_core::Failed) -> WindowFault {
        WindowFault::Failed
    }
}
