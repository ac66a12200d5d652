//! How far a reader has come in an area, and where the next record leads.
ghost use Rattle.std.specs.Prelude.{◌≡◌};
ghost use Rattle.std.specs.Option.{option_or};
ghost use Rattle.paxos_base.specs.declared.rows.TableSize.{TableSize};
ghost use Rattle.paxos_base.specs.Vote.{SlotsRise};
ghost use Rattle.store_format.specs.Places.{takes_own, takes_promise, takes_votes, is_behind, copy_place, log_place, next_place, group_place, is_in_group, is_next_row, may_have_rows};

use crate::body::Record;
use crate::order::{is_above, keeps_order};
use paxos_base::{Durable, JobRow, TableSize, Vote, VoteList, place_of};

/// How far a reader has come in an area.
#[derive(Clone, Copy, Debug, PartialEq, Eq)]
pub(crate) enum Place {
    /// Before the first record.
    Start,
    /// In the group of a base, which has so many rows in all, and some of them are to come.
    Rows { total: u64 },
    /// Behind the group.
    CopyStart,
    /// In the copy, behind its Tried.
    CopyTried,
    /// In the copy, behind its Promised.
    CopyPromised,
    /// In the copy, behind a vote.
    CopyVotes,
    /// In the log.
    Log,
}

// The group of a base may have so many rows: those of the table, or in format 1 those of its jobs alone.
fn may_have_rows(size: TableSize, count: u64) -> bool
    ensures { result ≡ may_have_rows size count }
{
    count == size.row_count() || count == u64::from(size.jobs)
}

// The place behind so many rows of a group, which has this many in all.
fn group_place(total: u64, count: usize) -> Place
    ensures { result ≡ group_place total count }
{
    if count as u64 == total {
        Place::CopyStart
    } else {
        Place::Rows { total }
    }
}

// The row may be the next of its group.
fn is_next_row(size: TableSize, kept: &Durable, slot: u64, row: JobRow) -> bool
    ensures { result ≡ is_next_row size kept.now slot row }
{
    slot == kept.base && row.job as usize == kept.rows.items.len() && row.fits_table(size)
}

// All votes are below the slot.
fn is_behind(slot: u64, votes: &VoteList) -> bool
    ensures { result ≡ is_behind slot votes.now }
{
    place_of(&votes.items, slot) == votes.items.len()
}

impl Place {
    /// Whether rows of a group are to come.
    pub(crate) fn is_in_group(self) -> bool
        ensures { result ≡ is_in_group self }
    {
        matches!(self, Place::Rows { .. })
    }

    /// Whether this is the place directly behind a group, where the copy may begin with a Tried.
    pub(crate) fn takes_own(self) -> bool
        ensures { result ≡ takes_own self }
    {
        matches!(self, Place::CopyStart)
    }

    fn takes_promise(self) -> bool
        ensures { result ≡ takes_promise self }
    {
        matches!(self, Place::CopyStart | Place::CopyTried)
    }

    fn takes_votes(self) -> bool
        ensures { result ≡ takes_votes self }
    {
        !matches!(self, Place::Start | Place::Rows { .. } | Place::Log)
    }

    // The place in the copy behind the record, where the copy goes on with it.
    fn in_copy(self, kept: &Durable, item: &Record) -> Option<Place>
        ensures { result ≡ copy_place self kept.now item.now }
    {
        match *item {
            Record::Tried(_) if self.takes_own() => Some(Place::CopyTried),
            Record::Promised(ballot) if self.takes_promise() && is_above(ballot, kept.promised) => {
                Some(Place::CopyPromised)
            }
            Record::Voted(vote)
                if self.takes_votes()
                    && kept.base <= vote.slot
                    && is_behind(vote.slot, &kept.votes) => { Some(Place::CopyVotes) }
            _ => None,
        }
    }

    // The place in the copy or in the log behind the record, where it may come next.
    fn in_copy_or_log(self, kept: &Durable, item: &Record) -> Option<Place>
        ensures { result ≡ option_or (copy_place self kept.now item.now) (log_place kept.now item.now) }
    {
        match self.in_copy(kept, item) {
            Some(place) => Some(place),
            None if keeps_order(kept, item) => Some(Place::Log),
            None => None,
        }
    }

    /// The place behind the record, where it may come next.
    pub(crate) fn next(self, size: TableSize, kept: &Durable, item: &Record) -> Option<Place>
        ensures { result ≡ next_place size self kept.now item.now }
    {
        match (self, *item) {
            (Place::Start, Record::Base { count, .. }) if may_have_rows(size, count) => {
                Some(group_place(count, 0))
            }
            (Place::Rows { total }, Record::Row { slot, row })
                if is_next_row(size, kept, slot, row) => {
                Some(group_place(total, kept.rows.items.len() + 1))
            }
            (Place::Start, Record::Base { .. }) | (Place::Rows { .. }, _) => None,
            _ => self.in_copy_or_log(kept, item),
        }
    }
}
