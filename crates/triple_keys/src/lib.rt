//! The keys of the three indexes of statements: three ids of eight bytes, in one of three orders.
//!
//! The table of the orders, and what it is for ids to agree with the bound ones, stand in `specs/Orders.antt`.
#![tactic(auto)]

mod key;
mod order;
mod span;

pub use key::{Ids, compare, ids_of, key_of};
pub use order::{Bound, Order, choose};
pub use span::span_of;

#[cfg(test)]
mod tests;
