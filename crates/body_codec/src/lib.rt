//! The bytes in which a change is stored: its body, format 1.
//!
//! A body has the distinct terms of the change by first appearance, and for each statement where its terms stand among
//! them. A change has one body, and a body is that of one change. The bytes stand in `specs/Body.antt`, and each way in
//! which bytes are no body in `specs/Faults.antt`.
#![tactic(auto)]

mod fault;
mod field;
mod law;
mod queue;
mod read;
mod read_statements;
mod read_terms;
mod spelled;
mod write;

pub use fault::BodyFault;
pub use law::{body_size_law, one_body_law, one_change_law};
pub use queue::{Receipt, Ticket};
pub use read::read_body;
pub use write::write_body;

#[cfg(test)]
mod tests;
