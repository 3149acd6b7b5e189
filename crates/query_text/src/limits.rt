//! What is too much for one query. Contracts name these limits by the words of `specs/Limits.antt`.

/// How many bytes the text of a query may have.
pub const LARGEST_QUERY: usize = 65536;

/// How many patterns a query may have.
pub const MOST_PATTERNS: usize = 16;
