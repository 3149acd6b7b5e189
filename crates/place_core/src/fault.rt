//! Why a place was not changed.
ghost use Rattle.std.specs.Prelude.{◌≡◌};
ghost use Rattle.place_core.specs.declared.fault.PlaceRefusal.TheVariants.{NoMemory};

use std::alloc::AllocError;

/// Why a place was not changed.
#[derive(Clone, Copy, Debug, PartialEq, Eq)]
pub enum PlaceRefusal {
    NoMemory,
    /// The number isn't listed any more.
    Moved { number: u32 },
}

impl From<AllocError> for PlaceRefusal {
    ghost from_gives = { λ _ e. e ≡ NoMemory };

    fn from(_e: AllocError) -> PlaceRefusal {
        PlaceRefusal::NoMemory
    }
}
