//! A device in memory, for tests and for short runs.
//!
//! `MemoryDisk` tells its files and what a crash may leave of them, fails the calls that it was told to fail, and gives
//! the images of a crash. For that it keeps each call that changed it, with the bytes of each write, beside what its
//! files hold: each written byte is kept twice, and nothing is ever forgotten.
#![tactic(auto)]

mod call;
mod contents;
mod disk;
mod plan;
mod stored;

pub use disk::MemoryDisk;

#[cfg(test)]
mod test_help;
#[cfg(test)]
mod tests_failed;
#[cfg(test)]
mod tests_files;
#[cfg(test)]
mod tests_stopped;
