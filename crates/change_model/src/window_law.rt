//! Windows that stand for a history, by their rows and bounds. These functions do nothing: each stands for its law, which
//! holds of windows of any kind.
ghost use Rattle.change_model.specs.WindowLaws.{LastRowLaw, FoundValueLaw, EmptyWindowLaw, LongerHistoryLaw, RaisedFloorLaw, NextWindowLaw, JoinedWindowLaw, AdjacentWindowsLaw, LastAmongLaw, UnprunedWindowLaw, WholeWindowLaw, PrunedWindowLaw, NarrowedWindowLaw};

/// The last row of a key above the time 0 is its last row.
pub fn last_row_law()
    ensures { LastRowLaw }
{}

/// What may be found for the last row is a value exactly where that row is.
pub fn found_value_law()
    ensures { FoundValueLaw }
{}

/// A window with no rows and no times stands for each history that is long enough, whatever its floor.
pub fn empty_window_law()
    ensures { EmptyWindowLaw }
{}

/// A window that stands for a history stands for each longer one.
pub fn longer_history_law()
    ensures { LongerHistoryLaw }
{}

/// A window that stands for a history stands for it with a higher floor.
pub fn raised_floor_law()
    ensures { RaisedFloorLaw }
{}

/// A window with the rows of the next time added stands for the history.
pub fn next_window_law()
    ensures { NextWindowLaw }
{}

/// Two adjacent windows that stand for a history, taken as one, stand for it.
pub fn joined_window_law()
    ensures { JoinedWindowLaw }
{}

/// Of adjacent windows the newest that has a row of the key at or before a time answers for the history's last row.
pub fn adjacent_windows_law()
    ensures { AdjacentWindowsLaw }
{}

/// So adjacent windows from the beginning answer for the last row of the key up to the time.
pub fn last_among_law()
    ensures { LastAmongLaw }
{}

/// A window of which nothing is pruned stands for the history exactly where it has all rows of the history that are within it.
pub fn unpruned_window_law()
    ensures { UnprunedWindowLaw }
{}

/// So a window over all keys and times stands for the history exactly where it has all of the history's rows.
pub fn whole_window_law()
    ensures { WholeWindowLaw }
{}

/// A window that is pruned up to a floor stands for the same history.
pub fn pruned_window_law()
    ensures { PrunedWindowLaw }
{}

/// A window with the rows of a narrower span stands for the same history.
pub fn narrowed_window_law()
    ensures { NarrowedWindowLaw }
{}
