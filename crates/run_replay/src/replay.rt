//! A run that is played again by its journal: the book so far, each replica where the book leaves it, and what is set for each.
use cluster_sched::{Fate, SchedRow};
use paxos_base::Durable;
use replica_core::Replica;
use std::alloc::Global;
use std::collections::VecDeque;
use world_law::Book;
use zone_minutes::Minute;

/// What a replica keeps, and the replica itself where it runs.
#[derive(Debug, Drop)]
pub struct Seat {
    pub kept: Durable,
    pub replica: Option<Replica>,
}

/// How a replica's disk is armed: so many more of its calls are done, and the next one stops within and leaves that image.
#[derive(Clone, Copy, Debug, PartialEq, Eq)]
pub struct Arm {
    pub left: u32,
    pub image: u32,
}

/// What waits for a replica, and what is set for it.
#[derive(Debug, Drop)]
pub struct Setting {
    /// The letters of its mail, by their numbers.
    pub mail: VecDeque<u64>,
    /// Minutes by which its clock is ahead.
    pub skew: i64,
    pub fate: Fate,
    pub waits: Option<SchedRow>,
    pub arm: Option<Arm>,
    /// Whether it has kept an odd number of bases, so that the second area of its disk is in use.
    pub second_area: bool,
}

/// The book so far, its replicas, and the situation after its turns.
#[derive(Debug, Drop)]
pub struct Replay {
    pub alloc: Global,
    pub book: Book,
    /// The replicas, by their numbers.
    pub seats: Vec<Seat>,
    /// What is set for each of them.
    pub settings: Vec<Setting>,
    /// From whom to whom letters are lost.
    pub cuts: Vec<(u8, u8)>,
    /// The latest clock reading of any turn.
    pub latest: Minute,
}
