//! A row of a book that threads share.
use history::Turn;
use replica_core::StepOut;

/// A turn as a replica adds it to a book, with what came of it: of a step all that it brought, of a stop the change that was kept,
/// where one was, and of any other turn nothing.
#[derive(Debug, Drop)]
pub struct BookRow {
    pub turn: Turn,
    pub out: StepOut,
}
