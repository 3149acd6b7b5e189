// What a seat at the board knows. These are plain data of the proofs: no value of them is made.
use std::collections::LinkedList;

/// An entry, and its place in the history. The first place is 0.
pub struct Placed<E> {
    pub place: u64,
    pub entry: E,
}

/// What a session has made since it was enrolled, and the entries of which it does not know whether they came in.
pub struct Bearing<E> {
    pub session: u32,
    pub mine: LinkedList<Placed<E>>,
    pub unsure: LinkedList<E>,
}

/// How long the history was when a session was enrolled.
pub struct Enrolment {
    pub session: u32,
    pub length: u64,
}

// A view is the keeper's, a note's or a pin's. What only another kind has is empty in it.
pub struct View<E> {
    // A view that was joined to another is spent, and tells nothing from then on.
    pub live: bool,
    pub is_keeper: bool,
    pub is_pin: bool,
    // A beginning of the history.
    pub seen: LinkedList<E>,
    // What was put together to make `seen`, until it is found that these are beginnings of one history.
    pub olds: LinkedList<LinkedList<E>>,
    pub floor_seen: u64,
    pub count_seen: u64,
    // The sessions that a note or the keeper bears.
    pub bears: LinkedList<Bearing<E>>,
    // Of a pin.
    pub number: u64,
    pub time: u64,
    // Of the keeper. `out` has the time of each pin that is out, at the pin's number; `since` begins with the newest
    // enrolment.
    pub floor: u64,
    pub posted: u64,
    pub out: LinkedList<Option<u64>>,
    pub since: LinkedList<Enrolment>,
    pub doubt: LinkedList<E>,
}
