//! The entries of a history as it grows. These functions do nothing: each stands for its law, which holds of every history.
ghost use Rattle.change_model.specs.Entries.{LastEntryLaw, LongerEntryLaw, LongerEntriesLaw, NextEntryLaw, GrownEntriesLaw, SomeEntriesLaw, CountedEntriesLaw, GivenEntryLaw};

/// The entry of a history's last change is the entry of its time, and its rows are of that time and by key.
pub fn last_entry_law()
    ensures { LastEntryLaw }
{}

/// The entry of a time is that of the same time of each longer history.
pub fn longer_entry_law()
    ensures { LongerEntryLaw }
{}

/// The entries between two times are those of each longer history.
pub fn longer_entries_law()
    ensures { LongerEntriesLaw }
{}

/// The entry of the next time may be put behind the entries up to a time.
pub fn next_entry_law()
    ensures { NextEntryLaw }
{}

/// The entry of a change may be put behind the entries of the history that it makes longer.
pub fn grown_entries_law()
    ensures { GrownEntriesLaw }
{}

/// A part of the entries is the entries of a part of their times.
pub fn some_entries_law()
    ensures { SomeEntriesLaw }
{}

/// There is one entry for each time.
pub fn counted_entries_law()
    ensures { CountedEntriesLaw }
{}

/// The entry of a time has the rows that the history gives to an index at that time, within any span.
pub fn given_entry_law()
    ensures { GivenEntryLaw }
{}
