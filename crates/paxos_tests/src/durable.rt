//! What a replica keeps on its disk, after a change of each kind.
use crate::builders::{Cast, ballot_of, list_of, no_votes, vote_of};
use paxos_base::{Delta, Durable, JobRow, RowList, TableSize};
use std::alloc::Global;
use std::test::*;

// A vote below the base that comes, and one behind it.
const BELOW: Cast = Cast {
    slot: 4,
    number: 18,
    job: 0,
};

const BEHIND: Cast = Cast {
    slot: 6,
    number: 26,
    job: 1,
};

// Of a table with two jobs.
const SIZE: TableSize = TableSize {
    jobs: 2,
    last_version: 0,
};

fn change(alloc: Global, number: u8) -> Result<Delta, Fail> {
    Ok(match number {
        0 => Delta::Tried(ballot_of(9)?),
        1 => Delta::Promised(ballot_of(16)?),
        2 => Delta::Voted(vote_of(BEHIND)?),
        3 => Delta::Voted(vote_of(BELOW)?),
        _ => Delta::Base {
            slot: 5,
            rows: RowList::fresh(alloc, SIZE)?,
        },
    })
}

fn changed(alloc: Global) -> Result<Durable, Fail> {
    let mut kept = Durable {
        tried: 0,
        promised: None,
        votes: no_votes(alloc),
        base: 0,
        rows: RowList {
            items: Vec::new(alloc),
        },
    };
    for number in 0..5 {
        kept.apply(change(alloc, number)?)?;
    }
    Ok(kept)
}

#[test]
fn changes_are_taken_over(rt: HostRuntime) -> Result<(), Fail> {
    let expected = Durable {
        tried: 1,
        promised: Some(ballot_of(18)?),
        votes: list_of(rt.alloc(), &[BEHIND])?,
        base: 5,
        rows: RowList::fresh(rt.alloc(), SIZE)?,
    };
    assert_eq!(rt; changed(rt.alloc())?.clone()?, expected);
    Ok(())
}

#[test]
fn fresh_rows_have_heard_of_nothing(rt: HostRuntime) -> Result<(), Fail> {
    let row = JobRow {
        job: 2,
        cursor: None,
        open_now: None,
        last: None,
        launched: 0,
        voided: 0,
    };
    let rows = RowList::fresh(rt.alloc(), SIZE)?;
    assert_eq!(rt; rows.items.len(), 3);
    assert_eq!(rt; rows.items.get(2), Some(&row));
    Ok(())
}
