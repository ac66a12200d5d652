//! Gates at which a replica's thread waits before a turn until another has come.
use crate::meeting::{Meeting, has_come};
use std::sync::atomic::{AtomicU64, Ordering};
use world_free::TurnGate;

/// A gate that lets replicas 0 and 1 take their turns one after the other. Who comes before a turn has taken those before it; so the
/// order of the last two turns alone is left open, since nobody comes after them.
#[derive(Drop)]
pub struct OrderGate {
    // Whose turn comes first.
    first: u8,
    // The number of each replica's last turn.
    last: u64,
    // How often the one that is first has come, and the other.
    first_came: AtomicU64,
    second_came: AtomicU64,
    // How many waits ended by the limit.
    missed: AtomicU64,
}

impl OrderGate {
    /// A gate for turns up to the one of this number.
    pub fn new(first: u8, last: u64) -> OrderGate {
        OrderGate {
            first,
            last,
            first_came: AtomicU64::new(0),
            second_came: AtomicU64::new(0),
            missed: AtomicU64::new(0),
        }
    }

    /// How many waits ended by the limit.
    pub fn missed(&self) -> u64 {
        self.missed.load(Ordering::SeqCst)
    }
}

impl TurnGate for OrderGate {
    // The one that is first waits for the other's turns before this one, and the other for the first's turns up to this one.
    fn pass(&self, member: u8, turn: u32) {
        let is_first = member == self.first;
        let (mine, other) = if is_first {
            (&self.first_came, &self.second_came)
        } else {
            (&self.second_came, &self.first_came)
        };
        mine.fetch_add(1, Ordering::SeqCst);
        let before = u64::from(turn) + u64::from(!is_first);
        if !has_come(other, before.min(self.last)) {
            self.missed.fetch_add(1, Ordering::SeqCst);
        }
    }
}

/// A gate at which replicas 0 and 1 wait for each other before their second turns. It counts who comes before which of three turns.
#[derive(Drop)]
pub struct MeetingGate {
    meeting: Meeting,
    // How often replica 0 has come before each of its turns, and then replica 1.
    came: [AtomicU64; 6],
    // How often another replica has come, or before another turn.
    others: AtomicU64,
}

impl MeetingGate {
    /// A gate at which nobody has come.
    pub fn new() -> MeetingGate {
        let meeting = Meeting::new();
        meeting.open();
        MeetingGate {
            meeting,
            came: [
                AtomicU64::new(0),
                AtomicU64::new(0),
                AtomicU64::new(0),
                AtomicU64::new(0),
                AtomicU64::new(0),
                AtomicU64::new(0),
            ],
            others: AtomicU64::new(0),
        }
    }

    /// How many waits ended since the other had come, and how many by the limit.
    pub fn counts(&self) -> (u64, u64) {
        self.meeting.counts()
    }

    /// Whether each of two replicas has come once before each of three turns, and nobody else.
    pub fn each_came_once(&self) -> bool {
        let each = self
            .came
            .iter()
            .all(|came| came.load(Ordering::SeqCst) == 1);
        each && self.others.load(Ordering::SeqCst) == 0
    }
}

impl TurnGate for MeetingGate {
    fn pass(&self, member: u8, turn: u32) {
        let place = usize::from(member) * 3 + turn as usize;
        match self.came.get(place) {
            Some(came) if turn < 3 => came.fetch_add(1, Ordering::SeqCst),
            _ => self.others.fetch_add(1, Ordering::SeqCst),
        };
        if turn == 1 {
            self.meeting.come(member);
        }
    }
}
