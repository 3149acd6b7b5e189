//! One span of an index, read in parts.
//!
//! The parts come from shards that may be behind, or be retired while they are asked. A scan says what it needs next, takes the
//! answers, and keeps that the parts stand next to each other and cover the span in the end. Who asks is the job around it.
#![tactic(auto)]

mod fault;
mod law;
mod need;
mod retired;
mod scan;

pub use fault::ScanFault;
pub use law::{scan_done_law, scan_started_law, scan_taken_law};
pub use need::Need;
pub use scan::Scan;

#[cfg(test)]
mod tests;
