//! The place of the store: which shard has the keys of an index, and which service has that shard.
//!
//! What a place keeps stands in `specs/Places.antt`, what notes show of a shard's number in `specs/Shown.antt`.
#![tactic(auto)]

#[cfg(test)]
mod caller;
mod counts;
mod fault;
mod lines;
mod place;
mod shards;

pub use fault::PlaceRefusal;
pub use place::PlaceState;
pub use shards::{Born, Line, Locator, index_place};

#[cfg(test)]
mod tests;
