//! Works and reports as text, and the outside that they come from and go to.
#![tactic(auto)]

mod docs;
mod fault_plan;
mod memory_shelf;
mod memory_sink;
mod outside;
mod read;
mod read_line;
mod report;
mod work;
mod write;

pub use docs::Doc;
pub use memory_shelf::MemoryShelf;
pub use memory_sink::MemorySink;
pub use outside::{Failed, Shelf, Sink};
pub use read::{WorkFault, read_work};
pub use report::{Outcome, RunReport};
pub use work::{Command, Line, Work};
pub use write::write_report;

#[cfg(test)]
mod tests_memory;
#[cfg(test)]
mod tests_read;
#[cfg(test)]
mod tests_report;
