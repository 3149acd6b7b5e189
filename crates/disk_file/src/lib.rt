//! A device over real files: one for each number, in a folder.
//!
//! This is the trusted edge. `FileDisk` meets the trait and tells no content: that a file gives what was written to it,
//! and that what was synced outlives a crash, is the operating system's promise. `src/files.rt` says what it asks for.
#![tactic(auto)]

mod disk;
mod files;
mod folder;

pub use disk::FileDisk;

#[cfg(test)]
mod tests;
