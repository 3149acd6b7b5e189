//! The board on which all threads agree on one history: how many entries were committed, which pins hold it, and what
//! each session made of it. Three shared words are all that a board has at run time; the history itself exists in the
//! proofs alone.
#![tactic(auto)]

mod board;
#[cfg(test)]
mod caller;
mod keeper;
mod law;
mod made;
mod note;
mod out;
mod pin;
mod sessions;
mod told;
mod view;

pub use board::HistoryBoard;
pub use keeper::{Keeper, make};
pub use made::Made;
pub use note::Note;
pub use pin::Pin;
pub use view::{Bearing, Enrolment, Placed};

#[cfg(test)]
mod tests;
