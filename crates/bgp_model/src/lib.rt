//! Basic graph patterns: queries, their solutions, and the plain slow function that computes them.
#![tactic(auto)]

mod assignment;
mod cells;
mod draft;
mod fit;
mod part;
mod printed;
mod query;
mod ranks;
mod rows;
mod solution;
mod solve;
mod stages;
mod table;
mod terms;
mod word;

pub use draft::Draft;
pub use query::{Pattern, Query, Slot};
pub use rows::in_order;
pub use solution::{Solution, row_line};
pub use solve::{BgpFault, solve_plainly};
pub use table::Table;
pub use terms::query_terms;
pub use word::{WORDS, Word};

#[cfg(test)]
mod tests;
#[cfg(test)]
mod tests_table;
