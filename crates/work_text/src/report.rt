//! Reports: what became of each command, and which changes were committed.
use base_core::{List, Text};
use bgp_model::{Table, Word};
use change_model::Origin;

/// What became of a command. All but the first two are refusals, and a refused command changes nothing.
#[derive(Debug, Drop)]
pub enum Outcome {
    /// A change was committed at this time.
    Changed {
        time: u64,
    },
    /// The solutions of a query over the graph of this time, in the order of their printed lines.
    Answered {
        time: u64,
        columns: List<Text>,
        rows: Table,
    },
    NoDocument,
    DocumentTooLarge,
    /// The line is the first of the document that is outside the grammar.
    BadLine {
        line: u32,
    },
    /// The line is the first bad one of the document, and has a term whose spelling is over 65,535 bytes.
    TermTooLong {
        line: u32,
    },
    /// The line is the first bad one of the document, and brings its 100,001st statement.
    TooManyStatements {
        line: u32,
    },
    /// The line is the first that has a blank node, in a document that was to be removed.
    LabelInRemoval {
        line: u32,
    },
    /// Reading of the query's text stops at this place, in bytes.
    QueryAt {
        place: u32,
    },
    /// The same, at a word of SPARQL that is left out.
    QueryLeftOut {
        place: u32,
        word: Word,
    },
    /// The query has over 16 patterns.
    TooManyPatterns,
    /// The query has over 1,000,000 rows at this time.
    TooManyRows {
        time: u64,
    },
}

/// What a run did.
#[derive(Debug, Drop)]
pub struct RunReport {
    /// How many changes the history had when the run began.
    pub opened: u64,
    /// For each session, from session 1 on, the outcomes of its commands in order.
    pub outcomes: List<List<Outcome>>,
    /// Where each change of the run came from, in the order of their times.
    pub origins: List<Origin>,
}
