ghost use Rattle.std.specs.Prelude.{◌≡◌};

use paxos_base::{Ballot, Entry, JobRow};
use std::marker::Model;

/// A packet from one replica to another.
#[derive(Clone, Copy, Debug, PartialEq, Eq, Hash)]
pub enum Packet {
    /// Asks for a promise, and for the votes from a slot on.
    Prepare {
        ballot: Ballot,
        slot: u64,
    },
    /// Promises to take no part in lower ballots. As many votes follow directly as the count says.
    Promise {
        ballot: Ballot,
        slot: u64,
        count: u64,
    },
    /// One of a promise's votes, which was cast in a ballot of its own.
    OldVote {
        ballot: Ballot,
        slot: u64,
        cast: Ballot,
        entry: Entry,
    },
    /// Asks for a vote.
    Accept {
        ballot: Ballot,
        slot: u64,
        entry: Entry,
    },
    /// Says that the vote was cast.
    Accepted {
        ballot: Ballot,
        slot: u64,
    },
    /// Refuses a ballot, since another was promised.
    Nack {
        ballot: Ballot,
        promised: Ballot,
    },
    /// Tells the entry that was chosen at a slot.
    Known {
        slot: u64,
        entry: Entry,
    },
    /// Asks for the entries from the slot on.
    AskFrom {
        slot: u64,
    },
    /// Begins a copy of the rows below the slot. As many rows follow directly as the count says.
    Snap {
        slot: u64,
        count: u64,
    },
    /// One of the rows of a copy.
    SnapRow {
        slot: u64,
        row: JobRow,
    },
    /// Says who leads, and up to which slot that replica knows the entries.
    Lead {
        ballot: Ballot,
        slot: u64,
    },
}

/// The bytes of a letter. Contracts see the list.
#[derive(Debug, Drop)]
pub struct LetterBytes {
    pub items: Vec<u8>,
}

impl Model for LetterBytes {
    ghost use Rattle.std.specs.Prelude.{ℕ, List};

    ghost Value = { List ℕ };

    ghost view = { λ letter. letter.items.items };
}

impl LetterBytes {
    /// The bytes.
    pub fn bytes(&self) -> &[u8]
        ensures { result.now ≡ self.now }
    {
        &self.items
    }
}
