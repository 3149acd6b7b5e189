//! Shards: the rows of one index whose keys are in one span, in windows behind each other from the beginning on.
//!
//! What a shard is, and when it stands for a history, is said in `specs/Shards.antt`; what is read from it in
//! `specs/Reading.antt`.
#![tactic(auto)]

mod fault;
mod law;
mod line;
mod shard;
mod window;

pub use fault::ShardFault;
pub use law::{kept_floor_law, kept_history_law};
pub use line::ShardLine;
pub use shard::Shard;
pub use window::AnyWindow;

#[cfg(test)]
mod tests;
