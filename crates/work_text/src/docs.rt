//! What was read under a name.
use base_core::List;

/// A document as it was read, up to a limit.
#[derive(Debug, Drop)]
pub enum Doc {
    Bytes(List<u8>),
    /// There is no document of that name.
    Missing,
    TooLarge,
}
