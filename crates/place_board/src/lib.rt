//! The board on which all threads agree which shard numbers are born, live and retired, and how many faults each service
//! has posted. At run time it is one word for each number and one for each service; what each token knows exists in the
//! proofs alone.
//!
//! The rule that holds between any two steps stands in `specs/PlaceRule.antt`, what contracts see of the tokens in
//! `specs/Tokens.antt`.
#![tactic(auto)]

mod board;
#[cfg(test)]
mod caller;
mod fault;
mod law;
mod list_seat;
mod make;
mod note;
mod service_seat;
mod told;
mod view;

pub use board::PlaceBoard;
pub use fault::{Look, PlaceFault};
pub use list_seat::ListSeat;
pub use make::make_places;
pub use note::PlaceNote;
pub use service_seat::ServiceSeat;
pub use view::{Counted, Known};

#[cfg(test)]
mod tests;
