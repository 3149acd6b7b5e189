//! Rows of an index: what a key had from a time on, and how rows stand in order.
//!
//! What rows are, how they stand, and what a chunk of them is, is said in `specs/Rows.antt`.
#![tactic(auto)]

mod rows;

pub use rows::{Cell, Chunk, Index, Reply, Row, Rows};

#[cfg(test)]
mod tests;
