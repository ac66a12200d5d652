//! Changes as the tables of the tests have them.
ghost use Rattle.paxos_base.specs.Rows.{OpenHasCursor};

use cron_io::OutOfMemory;
use paxos_base::{Ballot, Delta, Durable, Entry, JobRow, Kind, RowList, TableSize, Vote, VoteList};
use std::alloc::Global;

/// A table of two jobs and one version.
pub const SIZE: TableSize = TableSize {
    jobs: 2,
    last_version: 0,
};

/// A change: a ballot by its number, a vote by its slot and its ballot, and a base by its slot and by a number that its
/// rows have.
#[derive(Clone, Copy, Debug)]
pub enum Change {
    Tried(u32),
    Promised(u32),
    Voted(u32, u32),
    Base(u32, u32),
}

/// The ballot of a number.
pub fn ballot_of(number: u32) -> Ballot {
    Ballot::from_number(u64::from(number)).unwrap_or(Ballot::of(1, 0))
}

// Each kind of entry comes with some ballots.
fn entry_of(slot: u32, number: u32) -> Entry {
    let at = i64::from(slot);
    let now = i64::from(number);
    match number % 5 {
        0 => Entry::Noop,
        1 => Entry::Start { job: 1, at, now },
        2 => Entry::End {
            job: number,
            at,
            kind: Kind::Void,
        },
        _ => Entry::Table {
            version: number,
            now: at,
        },
    }
}

pub fn vote_of(slot: u32, number: u32) -> Vote {
    Vote {
        slot: u64::from(slot),
        ballot: ballot_of(number),
        entry: entry_of(slot, number),
    }
}

/// A row that has the number: the launch of the first of two jobs is open, and the second has none that is. The last row is
/// the table's own, whatever the number.
pub fn row_of(job: u32, number: u32) -> JobRow
    ensures { OpenHasCursor result }
{
    let at = i64::from(number);
    let fresh = JobRow::fresh(job);
    match job {
        0 => JobRow {
            cursor: Some(at),
            open_now: Some(at),
            launched: number,
            ..fresh
        },
        1 => JobRow {
            last: Some(at),
            voided: number,
            ..fresh
        },
        _ => fresh,
    }
}

/// The rows of two jobs, and the table's; those of number 0 are fresh.
pub fn rows_of(alloc: Global, number: u32) -> Result<RowList, OutOfMemory> {
    if number == 0 {
        return Ok(RowList::fresh(alloc, SIZE)?);
    }
    let mut items = Vec::new(alloc);
    items.push(row_of(0, number))?;
    items.push(row_of(1, number))?;
    items.push(row_of(2, number))?;
    Ok(RowList { items })
}

/// What a replica of two jobs keeps at first.
pub fn fresh(alloc: Global) -> Result<Durable, OutOfMemory> {
    Ok(Durable {
        tried: 0,
        promised: None,
        votes: VoteList {
            items: Vec::new(alloc),
        },
        base: 0,
        rows: rows_of(alloc, 0)?,
    })
}

pub fn delta_of(alloc: Global, change: Change) -> Result<Delta, OutOfMemory> {
    Ok(match change {
        Change::Tried(number) => Delta::Tried(ballot_of(number)),
        Change::Promised(number) => Delta::Promised(ballot_of(number)),
        Change::Voted(slot, number) => Delta::Voted(vote_of(slot, number)),
        Change::Base(slot, number) => Delta::Base {
            slot: u64::from(slot),
            rows: rows_of(alloc, number)?,
        },
    })
}

/// What is kept after changes of what a replica keeps at first.
pub fn after(alloc: Global, changes: &[Change]) -> Result<Durable, OutOfMemory> {
    let mut durable = fresh(alloc)?;
    for change in changes {
        durable.apply(delta_of(alloc, *change)?)?;
    }
    Ok(durable)
}
