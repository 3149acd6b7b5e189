//! The device that holds numbered files, as a trait.
//!
//! What its calls do stands in `specs/Disk.antt`.
#![tactic(auto)]

mod disk;
mod no_disk;

pub use disk::{Disk, Failed};
pub use no_disk::NoDisk;
