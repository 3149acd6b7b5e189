//! What a job takes from step to step on behalf of its session.
use crate::route::Route;
use change_model::Committed;
use history_board::Note;

/// A session: its number, what it saw of the history, and its route.
#[derive(Drop)]
pub struct Session {
    pub number: u32,
    pub note: Note<Committed>,
    pub route: Route,
}
