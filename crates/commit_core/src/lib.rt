//! The commit room: one history, whose changes stand as records in a log that may stop at any moment.
//!
//! What contracts see of the room is in `specs/Rooms.antt`, what a commit and a settle do in `specs/Steps.antt`. What the log's
//! images tell of the history is in `specs/Records.antt`, and when images of all disks hold a history in `specs/Holds.antt`.
#![tactic(auto)]

mod book;
#[cfg(test)]
mod caller;
mod commit;
mod entries;
mod fault;
mod law;
mod ledger;
mod ledger_tokens;
mod parts;
mod pins;
mod place;
mod plan;
mod record;
mod reload;
mod sessions;
mod state;
mod turn;

pub use fault::CommitFault;
pub use law::{held_history_law, named_held_law};
pub use state::CommitState;

#[cfg(test)]
mod tests;
