//! Why a shard gave no answer.
ghost use Rattle.std.specs.Prelude.{◌≡◌};
ghost use Rattle.shard_core.specs.declared.fault.ShardFault.TheVariants.{Window};

use window_core::WindowFault;

/// Why a shard gave no answer.
#[derive(Clone, Copy, Debug, PartialEq, Eq)]
pub enum ShardFault {
    /// The shard was asked for a time that it hasn't reached. It is at this one.
    Behind { upto: u64 },
    /// One of its windows gave no answer.
    Window(WindowFault),
}

impl From<WindowFault> for ShardFault {
    ghost from_gives = { λ fault e. e ≡ Window fault };

    fn from(fault: WindowFault) -> ShardFault {
        ShardFault::Window(fault)
    }
}
