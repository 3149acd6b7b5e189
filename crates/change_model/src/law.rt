//! What the five indexes say of the history whose rows they have. These functions do nothing: each stands for its law,
//! which holds of every history that a store may have.
ghost use Rattle.change_model.specs.Laws.{GraphLaw, IdLaw, LexiconLaw, LongerLastRowLaw, WritableBeginningLaw};

/// A triple is in the graph at a time exactly where its terms have ids and the last row of its key up to that time is a
/// value. So it is in each of the three orders of statements.
pub fn graph_law()
    ensures { GraphLaw }
{}

/// A term has an id at a time exactly where this id is the value of the term's last row up to that time.
pub fn lexicon_law()
    ensures { LexiconLaw }
{}

/// An id is a term's at a time exactly where the term's spelling is the value of the id's last row up to that time.
pub fn id_law()
    ensures { IdLaw }
{}

/// The last row of a key up to a time is that of each longer history, and of each history that is long enough.
pub fn longer_last_row_law()
    ensures { LongerLastRowLaw }
{}

/// The beginning of a history that a store may have is one too.
pub fn writable_beginning_law()
    ensures { WritableBeginningLaw }
{}
