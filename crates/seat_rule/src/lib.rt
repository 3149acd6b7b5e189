//! The rule of a board whose seats know things: what ties its words, each view beside the words, and each two views.
//!
//! This crate has no function. It has the words of such a rule (`specs/Pairs.antt`) and what a step owes so that the rule
//! holds after it (`proofs/Steps.antt`), for any kind of view. It stands on `atomic_table`.
#![tactic(auto)]
