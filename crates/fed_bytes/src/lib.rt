//! Keys of bytes and half open spans of keys.
//!
//! A contract sees a key as the list of its bytes. What it is to be in a span stands in `specs/Keys.antt`.
#![tactic(auto)]

mod key;
mod span;

pub use key::Key;
pub use span::Span;

#[cfg(test)]
mod tests;
