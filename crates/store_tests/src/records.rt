//! The records of an area: their bytes, and what they stand for.
use crate::change::ballot_of;
use Item::{A, B, F, P, R, T, V};
use gate_file::Body56;
use paxos_base::{Ballot, Durable, Entry, JobRow, PACKET_BYTES, RowList, TableSize, Vote};
use std::alloc::{AllocError, Global};
use std::test::Fail;
use store_format::{
    ReadFault, Record, begins_in_format_1, read_records, record_bytes, record_in, write_base,
};

const SIZE: TableSize = TableSize {
    jobs: 2,
    last_version: 0,
};

// A record: a ballot of replica 0 by its round, a vote by its slot and its round, such a one for the adoption of a version, the
// base of slot 5 by how many rows follow, a row of it by its job, and a fresh one, which the table's own may be.
#[derive(Clone, Copy, Debug)]
enum Item {
    T(u32),
    P(u32),
    V(u64, u32),
    A(u64, u32),
    B(u64),
    R(u32),
    F(u32),
}

fn of_round(round: u32) -> Ballot {
    ballot_of(round.wrapping_mul(8))
}

fn record_of(item: Item) -> Record {
    match item {
        T(round) => Record::Tried(of_round(round)),
        P(round) => Record::Promised(of_round(round)),
        V(slot, round) => Record::Voted(Vote {
            slot,
            ballot: of_round(round),
            entry: Entry::Noop,
        }),
        A(slot, round) => Record::Voted(Vote {
            slot,
            ballot: of_round(round),
            entry: Entry::Table {
                version: 1,
                now: 258,
            },
        }),
        B(count) => Record::Base { slot: 5, count },
        R(job) => Record::Row {
            slot: 5,
            row: JobRow {
                cursor: Some(-1),
                launched: 1,
                voided: 2,
                ..JobRow::fresh(job)
            },
        },
        F(job) => Record::Row {
            slot: 5,
            row: JobRow::fresh(job),
        },
    }
}

fn bodies_of(alloc: Global, items: &[Item]) -> Result<Vec<Body56>, AllocError> {
    let mut bodies = Vec::new(alloc);
    for item in items {
        bodies.push(Body56 {
            bytes: record_bytes(&record_of(*item)),
        })?;
    }
    Ok(bodies)
}

// Some bytes of a record, which has 0 at all other places.
struct Spelled {
    item: Item,
    bytes: &'static [(usize, u8)],
}

const SPELLED: &[Spelled] = &[
    Spelled {
        item: T(1),
        bytes: &[(0, 1), (15, 8)],
    },
    Spelled {
        item: P(1),
        bytes: &[(0, 2), (15, 8)],
    },
    Spelled {
        item: V(7, 1),
        bytes: &[(0, 3), (15, 8), (23, 7)],
    },
    Spelled {
        item: A(7, 1),
        bytes: &[(0, 3), (2, 4), (7, 1), (15, 8), (23, 7), (46, 1), (47, 2)],
    },
    Spelled {
        item: B(2),
        bytes: &[(0, 4), (23, 5), (31, 2)],
    },
    Spelled {
        item: R(1),
        bytes: &[
            (0, 5),
            (2, 1),
            (7, 1),
            (15, 1),
            (23, 5),
            (31, 2),
            (32, 255),
            (33, 255),
            (34, 255),
            (35, 255),
            (36, 255),
            (37, 255),
            (38, 255),
            (39, 255),
        ],
    },
    Spelled {
        item: F(2),
        bytes: &[(0, 5), (7, 2), (23, 5)],
    },
];

fn spell(places: &[(usize, u8)]) -> [u8; PACKET_BYTES] {
    let mut bytes = [0; PACKET_BYTES];
    for (place, byte) in places {
        if let Some(old) = bytes.get_mut(*place) {
            *old = *byte;
        }
    }
    bytes
}

#[test]
fn a_record_has_its_bytes(rt: HostRuntime) {
    for row in SPELLED {
        let bytes = record_bytes(&record_of(row.item));
        assert_eq!(rt; bytes, spell(row.bytes));
        assert_eq!(rt; record_in(&bytes), Some(record_of(row.item)));
    }
}

#[test]
fn no_record_has_a_kind_beyond_the_last(rt: HostRuntime) {
    assert_eq!(rt; record_in(&spell(&[(0, 6), (15, 8)])), None);
}

// The adoption of a version has no use for at, and there is no tag above its own.
#[test]
fn no_vote_is_for_what_is_no_entry(rt: HostRuntime) {
    assert_eq!(rt;
        record_in(&spell(&[(0, 3), (2, 4), (15, 8), (39, 1)])),
        None
    );
    assert_eq!(rt; record_in(&spell(&[(0, 3), (2, 5), (15, 8)])), None);
}

// Records, and what they stand for: the rounds of the replica's own ballot and of the promise, how many votes there are, and
// the base; or the first record at fault.
#[derive(Debug)]
struct Area {
    items: &'static [Item],
    want: Result<(u64, u64, usize, u64), u64>,
}

const AREAS: &[Area] = &[
    Area {
        items: &[],
        want: Ok((0, 0, 0, 0)),
    },
    Area {
        items: &[P(1)],
        want: Ok((0, 1, 0, 0)),
    },
    Area {
        items: &[P(1), P(1)],
        want: Err(1),
    },
    Area {
        items: &[T(2), V(1, 2), V(0, 3)],
        want: Ok((2, 3, 2, 0)),
    },
    Area {
        items: &[T(2), A(1, 2), V(0, 3), A(0, 4)],
        want: Ok((2, 4, 2, 0)),
    },
    Area {
        items: &[P(3), V(0, 2)],
        want: Err(1),
    },
    Area {
        items: &[P(3), A(0, 2)],
        want: Err(1),
    },
    // the group of a base, which ends with the table's own row
    Area {
        items: &[B(3), R(0)],
        want: Err(2),
    },
    Area {
        items: &[B(1), R(0)],
        want: Err(0),
    },
    Area {
        items: &[B(4), R(0)],
        want: Err(0),
    },
    Area {
        items: &[B(3), R(1)],
        want: Err(1),
    },
    Area {
        items: &[B(3), R(0), R(1)],
        want: Err(3),
    },
    Area {
        items: &[B(3), R(0), R(1), R(2)],
        want: Err(3),
    },
    Area {
        items: &[B(3), R(0), R(1), F(2)],
        want: Ok((0, 0, 0, 5)),
    },
    // the group in format 1, which ends with the row of the last job
    Area {
        items: &[B(2)],
        want: Err(1),
    },
    Area {
        items: &[B(2), R(0)],
        want: Err(2),
    },
    Area {
        items: &[B(2), R(0), R(1)],
        want: Ok((0, 0, 0, 5)),
    },
    Area {
        items: &[B(2), R(0), R(1), F(2)],
        want: Err(3),
    },
    Area {
        items: &[B(2), R(0), R(1), P(4), V(5, 3), V(6, 2)],
        want: Ok((0, 4, 2, 5)),
    },
    // a copy, and the log after it
    Area {
        items: &[B(3), R(0), R(1), F(2), P(4), V(5, 3), A(6, 2)],
        want: Ok((0, 4, 2, 5)),
    },
    Area {
        items: &[B(3), R(0), R(1), F(2), P(4), V(5, 4), V(5, 3)],
        want: Err(6),
    },
    Area {
        items: &[B(3), R(0), R(1), F(2), V(5, 4), V(6, 3), P(4)],
        want: Err(6),
    },
    Area {
        items: &[B(3), R(0), R(1), F(2), V(5, 4), V(6, 3), P(5)],
        want: Ok((0, 5, 2, 5)),
    },
];

fn numbers(kept: &Durable, own: Option<Ballot>) -> (u64, u64, usize, u64) {
    let own = own.map_or(0, |ballot| ballot.round());
    let promised = kept.promised.map_or(0, |ballot| ballot.round());
    (own, promised, kept.votes.items.len(), kept.base)
}

// What the records stand for; want of memory is told as the record of the largest number.
fn read(alloc: Global, items: &[Item]) -> Result<(u64, u64, usize, u64), u64> {
    let Ok(bodies) = bodies_of(alloc, items) else {
        return Err(u64::MAX);
    };
    match read_records(alloc, SIZE, &bodies) {
        Ok((kept, own)) => Ok(numbers(&kept, own)),
        Err(ReadFault::Damaged { record }) => Err(record),
        Err(ReadFault::OutOfMemory) => Err(u64::MAX),
    }
}

#[test]
fn records_stand_for_a_state_or_are_damaged(rt: HostRuntime) {
    for area in AREAS {
        assert_eq!(rt; read(rt.alloc(), area.items), area.want, "{area:?}");
    }
}

// Bodies, and the rows that they stand for; None where they are damaged.
fn rows_read(alloc: Global, items: &[Item]) -> Result<Option<RowList>, Fail> {
    match read_records(alloc, SIZE, &bodies_of(alloc, items)?) {
        Ok((kept, _)) => Ok(Some(kept.rows)),
        Err(ReadFault::Damaged { .. }) => Ok(None),
        Err(ReadFault::OutOfMemory) => Err("no memory".into()),
    }
}

#[test]
fn rows_of_format_1_have_the_tables_added(rt: HostRuntime) -> Result<(), Fail> {
    let old = rows_read(rt.alloc(), &[B(2), R(0), R(1)])?;
    assert!(rt; old.is_some());
    assert_eq!(rt; old, rows_read(rt.alloc(), &[B(3), R(0), R(1), F(2)])?);
    Ok(())
}

#[test]
fn a_base_of_format_1_is_told_apart(rt: HostRuntime) -> Result<(), Fail> {
    let alloc = rt.alloc();
    assert!(rt; begins_in_format_1(SIZE, &bodies_of(alloc, &[B(2), R(0), R(1)])?));
    assert!(rt; !begins_in_format_1(SIZE, &bodies_of(alloc, &[B(3), R(0), R(1), F(2)])?));
    assert!(rt; !begins_in_format_1(SIZE, &bodies_of(alloc, &[P(1)])?));
    assert!(rt; !begins_in_format_1(SIZE, &[]));
    Ok(())
}

// The group of a base of slot 5, and a copy of what was kept.
fn based(alloc: Global, log: &[Item], rows: &RowList) -> Result<Vec<Body56>, Fail> {
    let Ok((kept, own)) = read_records(alloc, SIZE, &bodies_of(alloc, log)?) else {
        return Err("the log is damaged".into());
    };
    Ok(write_base(alloc, &kept, own, 5, rows)?)
}

#[test]
fn a_base_has_a_copy_of_what_is_kept(rt: HostRuntime) -> Result<(), Fail> {
    let rows = RowList::fresh(rt.alloc(), SIZE)?;
    let written = based(rt.alloc(), &[T(2), V(4, 3), A(6, 4), P(5)], &rows)?;
    let want = bodies_of(rt.alloc(), &[B(3), F(0), F(1), F(2), T(2), P(5), A(6, 4)])?;
    assert_eq!(rt; written, want);
    Ok(())
}
