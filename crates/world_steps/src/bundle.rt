//! The parts of a world.
use crate::mail::MailState;
use world_law::Book;

/// The parts of a world: the nodes of its replicas in the order of their numbers, also of those that are stopped, the book of
/// their turns, and what is set for them.
#[derive(Debug, Drop)]
pub struct Bundle<N, R> {
    pub nodes: Vec<N>,
    pub book: Book,
    pub mail: MailState,
    /// What the world needs to be put together again without memory. It is handed back as it came.
    pub room: R,
}
