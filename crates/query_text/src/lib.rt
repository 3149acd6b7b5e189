//! The text of a query: SPARQL 1.1 with one basic graph pattern.
//!
//! A text is cut into tokens (`specs/Tokens.antt`, `specs/Texts.antt`), the tokens are read by the grammar
//! (`specs/Grammar.antt`), and names and prefixes are resolved (`specs/Meaning.antt`). Where a text is no query, the
//! place is named at which reading stops (`specs/Refusals.antt`).
#![tactic(auto)]

mod build;
mod characters;
mod class;
mod decode;
mod fault;
mod kind;
mod left_out;
mod limits;
mod name_scan;
mod naming;
mod next_token;
mod number_scan;
mod parse;
mod phase;
mod place;
mod reader;
mod scan;
mod spelling;
mod tag_scan;
mod text_scan;
mod token;
mod token_text;
mod value;

pub use fault::QueryFault;
pub use kind::TokenKind;
pub use limits::{LARGEST_QUERY, MOST_PATTERNS};
pub use reader::read_query;

#[cfg(test)]
mod tests;
#[cfg(test)]
mod tests_read;
