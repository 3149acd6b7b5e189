// What a seat at the board knows. These are plain data of the proofs: no value of them is made.
use fed_bytes::Span;
use std::collections::LinkedList;

/// A number that was born: of which service, and for which span of which index.
pub struct Known {
    pub number: u32,
    pub service: u32,
    pub index: u8,
    pub span: Span,
}

/// A count of faults that was seen of a service.
pub struct Counted {
    pub service: u32,
    pub count: u64,
}

// A view is a service's, the list's or a note's. What only another kind has is empty in it. The lists only grow, but for
// `fresh`, `mine` and `listed`, and an item may stand in one twice.
pub struct View {
    // A view that was joined to another is spent, and tells nothing from then on.
    pub live: bool,
    pub is_service: bool,
    pub is_list: bool,
    pub knows: LinkedList<Known>,
    // Numbers that were found retired.
    pub dead: LinkedList<u32>,
    // Numbers that this view alone may have listed.
    pub fresh: LinkedList<u32>,
    // Numbers that were listed, now or earlier.
    pub once: LinkedList<u32>,
    pub counts: LinkedList<Counted>,
    // Of a service: its number, the number that is born next, those that it bears, and the count that it posted.
    pub service: u32,
    pub next: u32,
    pub mine: LinkedList<u32>,
    pub posted: u64,
    // Of the list: how many services have a seat, what was ever listed, and what is listed now.
    pub services: u32,
    pub ever: LinkedList<u32>,
    pub listed: LinkedList<u32>,
}
