//! What the thread of a replica has.
use replica_node::Node;
use std::alloc::Global;
use turn_book::TurnSeat;
use world_law::Book;
use world_steps::MemberMail;
use zone_minutes::Minute;

/// What is set for all threads of a part: whence they have memory, how many replicas there are, the part's instant, how many turns
/// each replica has, and from whom to whom letters are lost.
#[derive(Debug, Drop)]
pub(crate) struct Setting {
    pub(crate) alloc: Global,
    pub(crate) members: u8,
    pub(crate) at: Minute,
    pub(crate) turns: u32,
    pub(crate) cuts: Vec<(u8, u8)>,
}

/// A replica's mail, as its thread keeps it: up to the last letter that it has looked at.
#[derive(Debug, Drop)]
pub(crate) struct FreeMail {
    pub(crate) mail: MemberMail,
    // How many letters the book had when it looked last.
    pub(crate) looked: u64,
    // The bytes of the mail's first letter, where there is one: whoever has no turn has no book.
    pub(crate) bytes: Vec<u8>,
}

/// What the thread of a replica has: its node, its seat at the book, its mail, and whether want of memory has ended its turns.
#[derive(Drop)]
pub(crate) struct FreeJob<D> {
    pub(crate) node: Node<D>,
    pub(crate) seat: TurnSeat<Book>,
    pub(crate) mail: FreeMail,
    pub(crate) short: bool,
}
