ghost use Rattle.std.specs.Prelude.{◌≡◌, Some, None, if◌then◌else◌};
ghost use Rattle.paxos_letter.specs.Groups.{no_group, is_filled, asks, keeps_group, after};

use crate::fields::FieldsAt;
use crate::kinds::{ACCEPT, OLD_VOTE, PREPARE, PROMISE, SNAP, SNAP_ROW};

// What the packets so far say of those to come.
#[derive(Clone, Copy)]
pub(crate) struct Group {
    // How many votes and rows are owed.
    votes: u64,
    rows: u64,
    // The job of the next row.
    job: u64,
    // A packet was there of which a letter has at most one.
    asked: bool,
}

fn asks(fields: &FieldsAt<'_>) -> bool
    ensures { result ≡ asks fields.now }
{
    matches!(fields.kind(), PREPARE | ACCEPT | SNAP)
}

impl Group {
    // Before the first packet.
    pub(crate) fn none() -> Group
        ensures { result ≡ no_group }
    {
        Group {
            votes: 0,
            rows: 0,
            job: 0,
            asked: false,
        }
    }

    // No vote and no row is owed.
    pub(crate) fn is_filled(&self) -> bool
        ensures { result ≡ is_filled self.now }
    {
        self.votes == 0 && self.rows == 0
    }

    // What is owed after the packet: None where it may not follow.
    pub(crate) fn after(&self, fields: &FieldsAt<'_>) -> Option<Group>
        ensures { result ≡ (if keeps_group self.now fields.now then Some (after self.now fields.now) else None) }
    {
        match fields.kind() {
            OLD_VOTE if self.votes > 0 => Some(Group {
                votes: self.votes - 1,
                ..*self
            }),
            SNAP_ROW if self.rows > 0 && u64::from(fields.job()) == self.job => Some(Group {
                rows: self.rows - 1,
                job: self.job + 1,
                ..*self
            }),
            OLD_VOTE | SNAP_ROW => None,
            kind if self.is_filled() && !(self.asked && asks(fields)) => Some(Group {
                votes: if kind == PROMISE { fields.old() } else { 0 },
                rows: if kind == SNAP { fields.old() } else { 0 },
                job: 0,
                asked: self.asked || asks(fields),
            }),
            _ => None,
        }
    }
}
