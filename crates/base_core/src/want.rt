//! The fault of a call that can fail for memory alone.
ghost use Rattle.std.specs.Prelude.{◌≡◌};
ghost use Rattle.base_core.specs.declared.want.Want.TheVariants.{NoMemory};

use std::alloc::{AllocError, AllocFailed};
use std::error::Error;
use std::fmt;

/// Memory ran out. Nothing else can go wrong in a call that answers this.
#[derive(Clone, Copy, Debug, PartialEq, Eq)]
pub enum Want {
    NoMemory,
}

impl fmt::Display for Want {
    fn fmt<W: fmt::Write>(&self, f: &mut fmt::Formatter<W>) -> fmt::Result {
        write!(f, "no memory")
    }
}

impl Error for Want {}

impl From<AllocError> for Want {
    ghost from_gives = { λ _ e. e ≡ NoMemory };

    fn from(_e: AllocError) -> Want {
        Want::NoMemory
    }
}

impl<T: Drop> From<AllocFailed<T>> for Want {
    ghost from_gives = { λ _ e. e ≡ NoMemory };

    fn from(_e: AllocFailed<T>) -> Want {
        Want::NoMemory
    }
}
