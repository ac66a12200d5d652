ghost use Rattle.std.specs.Prelude.{◌≡◌, OnOk, OnErr};
ghost use Rattle.paxos_base.specs.Durable.{after_delta};

use crate::ballot::Ballot;
use crate::entry::{Vote, VoteList};
use crate::rows::RowList;
use std::alloc::AllocError;

/// A change of what a replica keeps on its disk.
#[derive(Clone, Debug, PartialEq, Eq, Drop)]
pub enum Delta {
    /// The replica took up a ballot of its own, which it also promises.
    Tried(Ballot),
    /// The replica promised to take no part in lower ballots.
    Promised(Ballot),
    /// The replica cast a vote, and promises the vote's ballot.
    Voted(Vote),
    /// The entries of the slots below this one are in the rows, and their votes are gone.
    Base { slot: u64, rows: RowList },
}

/// What a replica keeps on its disk.
#[derive(Clone, Debug, PartialEq, Eq, Drop)]
pub struct Durable {
    /// The highest round of a ballot of its own, or 0 where there was none.
    pub tried: u64,
    /// The ballot below which it takes no part any more, where it promised one.
    pub promised: Option<Ballot>,
    /// Its votes at the slots from the base on, the latest one at each slot.
    pub votes: VoteList,
    /// The first slot whose entry is not in the rows.
    pub base: u64,
    /// The launch table after the entries of the slots below the base.
    pub rows: RowList,
}

impl Durable {
    /// Takes over a change. A vote takes constant time at the last slot and behind it, else time by the number of votes
    /// at later slots.
    ///
    /// # Errors
    ///
    /// There is no memory for one vote more; then nothing has changed.
    #[tactic(auto, unfolding(crate::specs::Durable::after_delta))]
    pub fn apply(&mut self, delta: Delta) -> Result<(), AllocError>
        ensures changed { OnOk result (self.new ≡ after_delta delta self.old) }
        ensures unchanged { OnErr result (self.new ≡ self.old) }
    {
        match delta {
            Delta::Tried(ballot) => {
                self.tried = ballot.round();
                self.promised = Some(ballot);
            }
            Delta::Promised(ballot) => self.promised = Some(ballot),
            Delta::Voted(vote) => {
                self.votes.put(&vote)?;
                self.promised = Some(vote.ballot);
            }
            Delta::Base { slot, rows } => {
                self.votes.drop_below(slot);
                self.base = slot;
                self.rows = rows;
            }
        }
        Ok(())
    }
}
