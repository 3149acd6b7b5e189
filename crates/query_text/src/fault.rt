//! Why a text is refused.
ghost use Rattle.std.specs.Prelude.{◌≡◌};
ghost use Rattle.query_text.specs.declared.fault.QueryFault.TheVariants.{NoMemory};

use base_core::Want;
use bgp_model::Word;

/// Why the text of a query could not be read. A place counts bytes.
#[derive(Clone, Copy, Debug, PartialEq, Eq)]
pub enum QueryFault {
    NoMemory,
    /// With the token that begins at this place no query goes on, or no token begins there, or the text ends there
    /// and more is wanted.
    At { place: u32 },
    /// The same, where the token is a word of SPARQL that is left out.
    LeftOut { place: u32, word: Word },
    /// The text is a query of more patterns than `MOST_PATTERNS`.
    TooManyPatterns,
}

impl From<Want> for QueryFault {
    ghost from_gives = { λ _ e. e ≡ NoMemory };

    fn from(_e: Want) -> QueryFault {
        QueryFault::NoMemory
    }
}
