ghost use Rattle.std.specs.Prelude.{◌≡◌, OnOk, OnErr};
ghost use Rattle.paxos_base.specs.Vote.{put_vote, votes_from};

use crate::ballot::Ballot;
use crate::votes::{place_of, put_vote};
use std::alloc::AllocError;
use std::marker::Model;

/// How a launch ended: the command was launched, or the launch was given up and is void.
#[derive(Clone, Copy, Debug, PartialEq, Eq, Hash)]
pub enum Kind {
    Launch,
    Void,
}

/// An entry of the replicated log.
///
/// A launch is named by its job and by when it is due: for a crontab job the minute, counted from 1970-01-01 00:00 UTC,
/// and for an anacron job the day, counted from 1970-01-01.
#[derive(Clone, Copy, Debug, PartialEq, Eq, Hash)]
pub enum Entry {
    /// Fills a slot, and changes nothing.
    Noop,
    /// A launch starts.
    Start {
        /// The job's number.
        job: u32,
        /// When the launch is due.
        at: i64,
        /// The minute at which the leader decided so, since 1970-01-01 00:00 UTC.
        now: i64,
    },
    /// A launch ends.
    End {
        /// The job's number.
        job: u32,
        /// When the launch was due.
        at: i64,
        /// How it ended.
        kind: Kind,
    },
    /// The next version of the table is in force from now on.
    Table {
        /// The version, counted from 0.
        version: u32,
        /// The minute at which the leader decided so, since 1970-01-01 00:00 UTC.
        now: i64,
    },
}

/// A vote for an entry at a slot of the log, in a ballot.
#[derive(Clone, Copy, Debug, PartialEq, Eq, Hash)]
pub struct Vote {
    pub slot: u64,
    pub ballot: Ballot,
    pub entry: Entry,
}

/// Entries in the order of their slots. Contracts see the list.
#[derive(Clone, Debug, Drop)]
pub struct EntryList {
    pub items: Vec<Entry>,
}

impl Model for EntryList {
    ghost use Rattle.std.specs.Prelude.{List};
    ghost use Rattle.paxos_base.specs.declared.entry.Entry.{Entry};

    ghost Value = { List Entry };

    ghost view = { λ list. list.items.items };
}

/// Votes, each at a later slot than those before it. Contracts see the list.
#[derive(Clone, Debug, Drop)]
pub struct VoteList {
    pub items: Vec<Vote>,
}

impl Model for VoteList {
    ghost use Rattle.std.specs.Prelude.{List};
    ghost use Rattle.paxos_base.specs.declared.entry.Vote.{Vote};
    ghost use Rattle.paxos_base.specs.Vote.{SlotsRise};

    ghost Value = { List Vote };

    ghost view = { λ list. list.items.items };

    ghost invariant = { λ list. SlotsRise list.items.items };
}

impl PartialEq for VoteList {
    ghost use Rattle.std.specs.Cmp.Lexicographic.{pointwise, lists_per};
    ghost use Rattle.paxos_base.specs.contracts.entry.VotePartialEq.TheImpl.Laws.{laws-law};

    ghost eq = { pointwise ⟦<Vote as PartialEq>⟧.eq };

    ghost laws = { lists_per laws-law };

    fn eq(&self, other: &VoteList) -> bool {
        self.items == other.items
    }
}

impl Eq for VoteList {
    ghost use Rattle.std.specs.Cmp.Lexicographic.{lists_equiv};
    ghost use Rattle.paxos_base.specs.contracts.entry.VoteEq.TheImpl.Laws.{laws-law};

    ghost laws = { lists_equiv laws-law };
}

impl VoteList {
    /// Puts a vote in its place. A vote that was at its slot goes.
    ///
    /// # Errors
    ///
    /// There is no memory for one vote more; then nothing has changed.
    pub fn put(&mut self, vote: &Vote) -> Result<(), AllocError>
        ensures put { OnOk result (self.new ≡ put_vote vote.now self.old) }
        ensures unchanged { OnErr result (self.new ≡ self.old) }
    {
        self.items.reserve(1)?;
        put_vote(&mut self.items, *vote);
        Ok(())
    }

    /// Takes the votes below a slot away.
    pub fn drop_below(&mut self, slot: u64)
        ensures { self.new ≡ votes_from slot self.old }
    {
        let place = place_of(&self.items, slot);
        self.items.drain(..place);
    }
}
