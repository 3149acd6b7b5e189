//! Adjacent windows, read as one.
//!
//! What the windows have together is said in `specs/Together.antt`, and what is answered of it in `specs/Values.antt` and in
//! the definitions of `window_core`.
#![tactic(auto)]

#[cfg(test)]
mod caller;
mod chunk;
mod compare;
mod cut;
mod merge;
mod values;

pub use chunk::merged_chunk;
pub use cut::{count_before, count_before_end};
pub use values::values_at;

#[cfg(test)]
mod tests;
