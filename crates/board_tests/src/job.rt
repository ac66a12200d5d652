//! What a thread has.
use status_board::{BoardReader, BoardWriter};

/// The prefixes that a reader saw.
#[derive(Clone, Copy, Debug, Default)]
pub struct Looks {
    /// One was below the one before.
    pub fell: bool,
    pub first: u64,
    pub last: u64,
}

/// The writer of a board, or one of its readers, and what the reader saw. It isn't dropped, since a writer isn't.
pub struct Job {
    pub writer: Option<BoardWriter>,
    pub reader: Option<BoardReader>,
    pub looks: Looks,
}
