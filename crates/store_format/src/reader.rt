//! A reader of an area's records, which goes from one to the next.
ghost use Rattle.std.specs.Prelude.{◌≡◌, ◌∷◌, ◌++◌, [], map, max, unwrap_or, None, Some, IfOk, OnOk};
ghost use Rattle.std.specs.List.{range_with_len};
ghost use Rattle.std.specs.Option.{option_or};
ghost use Rattle.paxos_base.specs.declared.rows.TableSize.{TableSize};
ghost use Rattle.paxos_base.specs.Rows.{OpenHasCursor};
ghost use Rattle.paxos_base.specs.Vote.{put_vote};
ghost use Rattle.paxos_base.specs.Rows.{fresh_row};
ghost use Rattle.store_format.specs.Area.{fresh_kept};
ghost use Rattle.store_format.specs.Places.{rows_at, taken};
ghost use Rattle.store_format.specs.Records.{RowHasCursor, tried_in};

use crate::body::Record;
use crate::place::Place;
use cron_io::OutOfMemory;
use paxos_base::{Ballot, Durable, JobRow, RowList, TableSize, Vote, VoteList, put_vote};
use std::alloc::Global;

/// A reader, with what is kept after the records that it has read.
#[derive(Drop)]
pub(crate) struct Reader {
    pub(crate) place: Place,
    pub(crate) kept: Durable,
    /// The ballot of the last Tried.
    pub(crate) own: Option<Ballot>,
}

fn add_vote(votes: &mut VoteList, vote: Vote) -> Result<(), OutOfMemory>
    ensures { OnOk result (votes.new ≡ put_vote vote votes.old) }
{
    votes.items.reserve(1)?;
    put_vote(&mut votes.items, vote);
    Ok(())
}

fn add_row(rows: &mut RowList, row: JobRow) -> Result<(), OutOfMemory>
    requires { OpenHasCursor row }
    ensures { OnOk result (rows.new ≡ rows.old ++ row ∷ []) }
{
    rows.items.push(row)?;
    Ok(())
}

// Adds the table's own row behind a group that has those of the jobs alone.
fn end_group(rows: &mut RowList, size: TableSize, place: Place) -> Result<(), OutOfMemory>
    ensures { OnOk result (rows.new ≡ rows_at size place rows.old) }
{
    if place.takes_own() && rows.items.len() == size.jobs as usize {
        return add_row(rows, JobRow::fresh(size.jobs));
    }
    Ok(())
}

impl Reader {
    /// A reader before the first record.
    pub(crate) fn new(alloc: Global, size: TableSize) -> Result<Reader, OutOfMemory>
        ensures place { IfOk result (λ reader. reader.place ≡ Place.Start) }
        ensures kept { IfOk result (λ reader. reader.kept ≡ fresh_kept size) }
        ensures own { IfOk result (λ reader. reader.own ≡ None) }
    {
        let rows = RowList::fresh(alloc, size)?;
        let votes = VoteList {
            items: Vec::new(alloc),
        };
        Ok(Reader {
            place: Place::Start,
            kept: Durable {
                tried: 0,
                promised: None,
                votes,
                base: 0,
                rows,
            },
            own: None,
        })
    }

    /// A reader behind the group of a base at the slot, which has passed over its rows.
    pub(crate) fn behind_group(alloc: Global, slot: u64) -> Reader
        ensures place { result.place ≡ Place.CopyStart }
        ensures kept { result.kept ≡ record { tried = 0; promised = None; votes = []; base = slot; rows = [] } }
        ensures own { result.own ≡ None }
    {
        let votes = VoteList {
            items: Vec::new(alloc),
        };
        let rows = RowList {
            items: Vec::new(alloc),
        };
        Reader {
            place: Place::CopyStart,
            kept: Durable {
                tried: 0,
                promised: None,
                votes,
                base: slot,
                rows,
            },
            own: None,
        }
    }

    /// Takes a record, which leads to the place. The greatest ballot so far is promised: in a log each is as great as
    /// those before it, and a copy has the votes' ballots in any order.
    pub(crate) fn take(
        &mut self,
        size: TableSize,
        place: Place,
        item: &Record,
    ) -> Result<(), OutOfMemory>
        requires { RowHasCursor item.now }
        ensures place { OnOk result (self.new.place ≡ place) }
        ensures kept { OnOk result (self.new.kept ≡ taken size place item.now self.old.kept) }
        ensures own { OnOk result (self.new.own ≡ option_or (tried_in item.now) self.old.own) }
    {
        self.place = place;
        match *item {
            Record::Tried(ballot) => {
                self.kept.tried = ballot.round();
                self.kept.promised = Some(ballot);
                self.own = Some(ballot);
            }
            Record::Promised(ballot) => self.kept.promised = Some(ballot),
            Record::Voted(vote) => {
                self.kept.promised = Some(greater(self.kept.promised, vote.ballot));
                return add_vote(&mut self.kept.votes, vote);
            }
            Record::Base { slot, .. } => {
                self.kept.base = slot;
                self.kept.rows.items.clear();
                return end_group(&mut self.kept.rows, size, place);
            }
            Record::Row { row, .. } => {
                add_row(&mut self.kept.rows, row)?;
                return end_group(&mut self.kept.rows, size, place);
            }
        }
        Ok(())
    }
}

// The greater of the promise and a ballot.
fn greater(promised: Option<Ballot>, ballot: Ballot) -> Ballot
    ensures { result ≡ max (unwrap_or promised 0) ballot }
{
    match promised {
        Some(promised) if ballot < promised => promised,
        _ => ballot,
    }
}
