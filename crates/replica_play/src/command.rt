use paxos_base::Kind;
use zone_minutes::Minute;

/// What happens to a replica.
#[derive(Clone, Copy)]
pub enum Event {
    Campaign { member: u8 },
    Tick { member: u8, now: Minute },
    /// The scheduler answers the replica's last call.
    Answer { member: u8, kind: Kind },
    /// The letter comes to the replica that it goes to.
    Deliver { letter: usize },
}

/// How far a step goes.
#[derive(Clone, Copy)]
pub enum Extent {
    /// It is taken at once.
    Whole,
    /// It is planned, and not taken.
    Plan,
    /// It is planned, and then taken.
    Halves,
}

/// A command of a scenario.
#[derive(Clone, Copy)]
pub enum Command<'a> {
    /// A new scenario begins, in which so many replicas start for the first time.
    Start { members: u8 },
    Step { extent: Extent, event: Event },
    /// Each letter that waits is delivered, also those that come meanwhile.
    DeliverAll,
    /// A letter waits no more.
    Drop { letter: usize },
    DropAll,
    /// A letter's last byte is taken away.
    Shorten { letter: usize },
    /// A letter's first packet becomes one of an unknown kind.
    Spoil { letter: usize },
    /// A letter that the scenario makes up.
    Write { from: u8, to: u8, packets: &'a str },
    Stop { member: u8 },
    Restart { member: u8 },
    /// An equal replica takes the place of the one that runs.
    Copy { member: u8 },
}
