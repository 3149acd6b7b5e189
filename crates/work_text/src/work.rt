//! Works: what sessions are told to do.
use base_core::{List, Text};

#[derive(Debug, Drop)]
pub enum Command {
    /// Puts the triples of the document of this name in.
    Load(Text),
    /// Takes the triples of the document of this name out.
    Unload(Text),
    /// Answers the query of this text.
    Query(List<u8>),
    /// Answers the query that is the document of this name.
    QueryFile(Text),
}

#[derive(Debug, Drop)]
pub struct Line {
    pub session: u32,
    pub command: Command,
}

#[derive(Debug, Drop)]
pub struct Work {
    pub lines: List<Line>,
}
