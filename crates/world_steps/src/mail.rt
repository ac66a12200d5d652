//! What is on its way to the replicas of a world, and what is set for them.
use cluster_sched::{Fate, SchedRow};
use disk_model::Arm;
use std::collections::VecDeque;
use zone_minutes::Minute;

/// What is on its way to a replica, and what is set for it.
#[derive(Debug, Drop)]
pub struct MemberMail {
    /// Whether it runs.
    pub runs: bool,
    /// The numbers of the letters that wait for it, in the order in which it hears them.
    pub letters: VecDeque<u64>,
    /// How many minutes its clock is ahead, from -10,000 to 10,000.
    pub skew: i64,
    /// What becomes of its next call.
    pub fate: Fate,
    /// The answer that waits for it.
    pub waits: Option<SchedRow>,
    /// How its disk is armed to stop, where it is: the disk itself is armed for the length of each step, and else reliable.
    pub arm: Option<Arm>,
}

/// What is set for the replicas of a world.
#[derive(Debug, Drop)]
pub struct MailState {
    /// For each replica, in the order of their numbers.
    pub members: Vec<MemberMail>,
    /// From whom to whom letters are lost.
    pub cuts: Vec<(u8, u8)>,
    /// The latest clock reading of any turn; before the first one the window's first minute.
    pub latest: Minute,
}
