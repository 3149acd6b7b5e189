//! bigfed: a store of RDF triples that is proved to answer from what it was given.
//!
//! `bigfed` is the whole program over any shelf and any sink; `main` calls it over files and standard output.
#![tactic(auto)]

mod answer;
mod command;
mod files;
mod indexes;
mod naming;
mod replay;
mod shelf;
mod shown;
mod sink;
mod solve;
mod store;

pub use command::{Status, bigfed, replay_command};
use files::{FileShelf, Printer};
use std::env;
use std::process::ExitCode;

#[cfg(test)]
mod tests;
#[cfg(test)]
mod tests_documents;
#[cfg(test)]
mod tests_indexes;
#[cfg(test)]
mod tests_joins;

fn main(rt: HostRuntime) -> ExitCode {
    let alloc = rt.alloc();
    let mut shelf = FileShelf::new(&rt);
    let mut sink = Printer::new(&rt);
    let mut words = Vec::new(alloc);
    // Words that aren't UTF-8 are no form of words.
    if let Ok(args) = env::args(&rt) {
        for word in args.skip(1) {
            if words.push(word).is_err() {
                return ExitCode::from(4);
            }
        }
    }
    let status = bigfed(alloc, words.as_slice(), &mut shelf, &mut sink);
    ExitCode::from(status.code)
}
