//! What a seat knows. No value of these types but an `Opening` is ever made: they exist for the rule of a book.
use std::collections::LinkedList;
use std::snapshot::Snapshot;

/// What a book began with: the key, the state, and how many seats there are. It has no bytes but the number.
#[derive(Drop)]
pub struct Opening<L, K> {
    pub key: Snapshot<K>,
    pub state: Snapshot<L>,
    pub seats: u8,
}

/// What a seat that was joined to another knew.
pub struct Past<R> {
    pub number: u64,
    pub first: Option<LinkedList<R>>,
    pub seen: LinkedList<R>,
    pub own: LinkedList<R>,
}

/// What a seat knows. A view that was joined to another is spent.
pub struct View<L, K, R> {
    pub spent: bool,
    /// What the book began with.
    pub opening: Option<Opening<L, K>>,
    /// The rows that it began with, once a turn has shown them.
    pub first: Option<LinkedList<R>>,
    pub number: u64,
    /// How many seats were made, as the first seat counts them.
    pub made: u64,
    /// It has a ticket, which is not yet served to its end.
    pub waits: bool,
    pub ticket: u64,
    /// It has the turn, and the slot with the state.
    pub turn: bool,
    /// The history as its last turn left it.
    pub seen: LinkedList<R>,
    /// The rows that it has committed.
    pub own: LinkedList<R>,
    pub joined: LinkedList<Past<R>>,
}
