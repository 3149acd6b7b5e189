//! What is told of a shard.
use row_core::Index;

/// What a summary tells of a shard.
#[derive(Clone, Copy, Debug, PartialEq, Eq)]
pub struct ShardLine {
    pub number: u32,
    pub index: Index,
    pub upto: u64,
    /// How many frozen windows it has.
    pub frozen: u32,
    /// How many built windows it has.
    pub built: u32,
    /// How many keys the built windows have together, each counted in each window, up to the greatest number.
    pub keys: u64,
    /// Whether a task holds it.
    pub held: bool,
}
