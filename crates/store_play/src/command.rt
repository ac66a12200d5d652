ghost use Rattle.std.specs.Prelude.{◌<◌, ◌≤◌};

use crate::hour::Jobs;
use paxos_base::Delta;
use zone_minutes::Minute;

/// One of at most seven replicas.
#[derive(Clone, Copy, Debug)]
pub struct Member {
    pub me: u8,
    pub members: u8,
    ghost below: { me < members },
    ghost few: { members ≤ 7 },
}

/// A command.
#[derive(Drop)]
pub enum Command {
    /// An empty disk takes the place of the one that there was.
    Disk { member: Member, jobs: Jobs },
    /// So many writes, cuts and syncs succeed, and the next one stops within and leaves the image of that number.
    Arm { pass: u32, image: u32 },
    Disarm,
    /// After a stop the files become the image that it leaves.
    Revive,
    /// The bytes of the three files are written.
    Files,
    /// A store is attached.
    Attach,
    /// What the store keeps is written.
    Keeps,
    Save(Delta),
    /// A node starts from the disk.
    Start,
    Step(Told),
    /// A node whose step was stopped says whether its change was kept.
    Reopen,
    /// The store or the node ends, and leaves its disk.
    Stop,
}

/// What a node is told.
#[derive(Drop)]
pub enum Told {
    Campaign,
    Tick(Minute),
    Hear(Vec<u8>),
}
