//! The journals in which a data service stores bodies.
//!
//! Bodies wait in a queue until one of them is flushed. Then that body, and behind it the others that wait, are put as
//! one group, which is one record of the present journal. The bytes of a group stand in `specs/Groups.antt`, what the
//! journals of a disk say in `specs/Journals.antt`, and the words of the contracts in `specs/Rooms.antt` and
//! `specs/Stores.antt`.
#![tactic(auto)]

mod fault;
mod gather;
mod held;
mod journal;
mod passes;
mod tally;

pub use fault::JournalFault;
pub use journal::BodyJournal;

#[cfg(test)]
mod caller;
#[cfg(test)]
mod tests;
