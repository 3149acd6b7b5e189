//! The history of a store: its changes, the graph that they leave, the ids of its terms, and the rows that it gives to the five indexes.
#![tactic(auto)]

mod entry;
mod entry_law;
mod history;
mod index_rows;
mod known;
mod label;
mod law;
mod numbering;
mod spelled;
mod term_key;
mod vocabulary;
mod window_law;

pub use entry::{Entry, Resolved, entry_of};
pub use entry_law::{
    counted_entries_law, given_entry_law, grown_entries_law, last_entry_law, longer_entries_law,
    longer_entry_law, next_entry_law, some_entries_law,
};
pub use history::{Change, Committed, Kind, Origin};
pub use law::{graph_law, id_law, lexicon_law, longer_last_row_law, writable_beginning_law};
pub use vocabulary::{Places, Vocabulary, vocabulary_of};
pub use window_law::{
    adjacent_windows_law, empty_window_law, found_value_law, joined_window_law, last_among_law,
    last_row_law, longer_history_law, narrowed_window_law, next_window_law, pruned_window_law,
    raised_floor_law, unpruned_window_law, whole_window_law,
};

#[cfg(test)]
mod tests;
