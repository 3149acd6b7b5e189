//! A log of records in one file of a device, which a crash leaves whole.
//!
//! What the bytes of a log stand for is in `specs/Records.antt`; the words of the contracts on a log and its device are
//! in `specs/Logs.antt`. What a user says of the items in a log, and of what is undecided, is in `specs/Items.antt`: the
//! calls say it of bodies, and `proofs/Items.antt` of whatever is spelled as a body. That it outlives all changes to other
//! files of the device is in `proofs/Files.antt`.
#![tactic(auto)]

mod extent;
mod fault;
mod gates;
mod log;
mod prepared;
mod through;

pub use fault::LogFault;
pub use log::RecordLog;
pub use prepared::Prepared;

#[cfg(test)]
mod tests;
