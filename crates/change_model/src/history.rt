//! Committed changes and where they came from.
use base_core::List;
use history_board::Made;
use term_core::Statement;

#[derive(Clone, Copy, Debug, PartialEq, Eq)]
pub enum Kind {
    Add,
    Remove,
}

/// A change of the graph. Its blank nodes have the time 0; they are bound where it is committed.
#[derive(Debug, Drop)]
pub struct Change {
    pub kind: Kind,
    pub statements: List<Statement>,
}

/// Who committed a change: a session, from 1, and the place of the command in it, from 1.
#[derive(Clone, Copy, Debug, PartialEq, Eq)]
pub struct Origin {
    pub session: u32,
    pub command: u32,
}

/// An entry of the history.
#[derive(Debug, Drop)]
pub struct Committed {
    pub change: Change,
    pub origin: Origin,
}

/// An entry of the board of all commits is a change with its origin, so that two equal changes are two entries.
impl Made for Committed {
    ghost session_of = { λ c. c.origin.session };

    ghost command_of = { λ c. c.origin.command };

    fn session(&self) -> u32 {
        self.origin.session
    }

    fn command(&self) -> u32 {
        self.origin.command
    }
}
