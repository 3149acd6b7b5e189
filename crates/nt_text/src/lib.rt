//! RDF 1.1 N-Triples: reading documents, and the cells in which terms are printed.
#![tactic(auto)]

mod cell;
mod document;
mod label;
mod limits;
mod line;
mod pieces;
mod run;
mod tag;
mod token;
mod utf8;

pub use cell::{put_term, write_term};
pub use document::{DocFault, Document, read_document};
pub use limits::{LARGEST_DOCUMENT, LONGEST_SPELLING, MOST_STATEMENTS};

#[cfg(test)]
mod tests;
