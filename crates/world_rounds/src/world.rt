//! Replicas in rounds.
use crate::member::Member;
use crate::rooms::PartsRoom;
use std::alloc::Global;
use world_law::Book;
use zone_minutes::Minute;

/// Some replicas, each a node on a disk of its own, the book of their turns, and what is set for them.
#[derive(Debug, Drop)]
pub struct World<D> {
    pub(crate) alloc: Global,
    pub(crate) book: Book,
    pub(crate) members: Vec<Member<D>>,
    // From whom to whom letters are lost.
    pub(crate) cuts: Vec<(u8, u8)>,
    // The latest clock reading.
    pub(crate) latest: Minute,
    // What is needed to take it apart without memory.
    pub(crate) room: PartsRoom<D>,
}
