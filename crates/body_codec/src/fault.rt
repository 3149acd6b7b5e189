//! The fault of bytes that are the body of no change.
ghost use Rattle.std.specs.Prelude.{◌≡◌};
ghost use Rattle.body_codec.specs.declared.fault.BodyFault.TheVariants.{NoMemory};

use base_core::Want;
use std::alloc::{AllocError, AllocFailed};
use std::error::Error;
use std::fmt;

/// Why bytes could not be read as the body of a change.
#[derive(Clone, Copy, Debug, PartialEq, Eq)]
pub enum BodyFault {
    NoMemory,
    /// No change has these bytes as its body. The first field that breaks its rule begins at this offset.
    BadBody { at: u32 },
}

impl fmt::Display for BodyFault {
    fn fmt<W: fmt::Write>(&self, f: &mut fmt::Formatter<W>) -> fmt::Result {
        match self {
            BodyFault::NoMemory => write!(f, "no memory"),
            BodyFault::BadBody { at } => write!(
                f,
                "no body of a change: the field at byte {at} breaks its rule"
            ),
        }
    }
}

impl Error for BodyFault {}

impl From<Want> for BodyFault {
    ghost from_gives = { λ _ e. e ≡ NoMemory };

    fn from(_e: Want) -> BodyFault {
        BodyFault::NoMemory
    }
}

impl From<AllocError> for BodyFault {
    ghost from_gives = { λ _ e. e ≡ NoMemory };

    fn from(_e: AllocError) -> BodyFault {
        BodyFault::NoMemory
    }
}

impl<T: Drop> From<AllocFailed<T>> for BodyFault {
    ghost from_gives = { λ _ e. e ≡ NoMemory };

    fn from(_e: AllocFailed<T>) -> BodyFault {
        BodyFault::NoMemory
    }
}
