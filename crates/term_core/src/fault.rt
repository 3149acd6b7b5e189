//! The fault of bytes that spell no term.
ghost use Rattle.std.specs.Prelude.{◌≡◌};
ghost use Rattle.term_core.specs.declared.fault.TermFault.TheVariants.{NoMemory};

use base_core::Want;
use std::error::Error;
use std::fmt;

/// Why bytes could not be read as a term.
#[derive(Clone, Copy, Debug, PartialEq, Eq)]
pub enum TermFault {
    NoMemory,
    /// The bytes spell no term. The first field that breaks its rule begins at this offset.
    BadTerm { at: u32 },
}

impl fmt::Display for TermFault {
    fn fmt<W: fmt::Write>(&self, f: &mut fmt::Formatter<W>) -> fmt::Result {
        match self {
            TermFault::NoMemory => write!(f, "no memory"),
            TermFault::BadTerm { at } => write!(
                f,
                "no term: the field at byte {at} breaks its rule"
            ),
        }
    }
}

impl Error for TermFault {}

impl From<Want> for TermFault {
    ghost from_gives = { λ _ e. e ≡ NoMemory };

    fn from(_e: Want) -> TermFault {
        TermFault::NoMemory
    }
}
