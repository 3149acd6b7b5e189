//! Shards that stand for a history. These functions do nothing: each stands for its law.
ghost use Rattle.shard_core.specs.Shards.{KeptHistoryLaw, KeptFloorLaw};

/// A shard that stands for a history stands for each longer one.
pub fn kept_history_law()
    ensures { KeptHistoryLaw }
{}

/// A shard stands for a history with each higher floor too.
pub fn kept_floor_law()
    ensures { KeptFloorLaw }
{}
