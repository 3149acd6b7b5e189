//! RDF terms and statements: their parts, the rules on these, and the one spelling in bytes.
//!
//! It knows no format of documents and no device. What a term may be made of stands in
//! `specs/Characters.antt` and `specs/Term.antt`, and how it is spelled in bytes in `specs/Spelling.antt`.
#![tactic(auto)]

mod characters;
mod decode;
mod encode;
mod fault;
mod kind;
mod parts;
mod statement;
mod term;

pub use characters::{is_base_character, is_iri_character, is_name_character, is_start_character};
pub use fault::TermFault;
pub use parts::{is_iri, is_label, is_tag};
pub use statement::Statement;
pub use term::Term;

#[cfg(test)]
mod tests;
