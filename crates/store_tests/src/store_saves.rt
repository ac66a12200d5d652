//! What is found after saves, and after one that failed.
use crate::change::Change::{self, Base, Promised, Tried, Voted};
use crate::change::{after, ballot_of, fresh, rows_of, vote_of};
use crate::kept::{empty_disk, find, save};
use disk_model::{FileNo, MemDisk, read_file};
use paxos_base::{Delta, Durable};
use replica_store::StoreFault;
use std::alloc::Global;
use std::process::Abort;
use std::test::Fail;

// A change, and what is found after it: the round that was tried and the promise, the votes by their slots and ballots,
// the base and the number of its rows, and the chooser's bytes. A promise of number 0 is none.
#[derive(Debug)]
struct Saved {
    change: Change,
    tried: u64,
    promised: u32,
    votes: &'static [(u32, u32)],
    base: (u32, u32),
    chooser: &'static [u8],
}

// The promise is above the replica's own ballot at the first base, and is that ballot at the second.
const SAVED: &[Saved] = &[
    Saved {
        change: Tried(9),
        tried: 1,
        promised: 9,
        votes: &[],
        base: (0, 0),
        chooser: b"",
    },
    Saved {
        change: Promised(16),
        tried: 1,
        promised: 16,
        votes: &[],
        base: (0, 0),
        chooser: b"",
    },
    Saved {
        change: Voted(3, 16),
        tried: 1,
        promised: 16,
        votes: &[(3, 16)],
        base: (0, 0),
        chooser: b"",
    },
    Saved {
        change: Voted(1, 18),
        tried: 1,
        promised: 18,
        votes: &[(1, 18), (3, 16)],
        base: (0, 0),
        chooser: b"",
    },
    Saved {
        change: Voted(3, 20),
        tried: 1,
        promised: 20,
        votes: &[(1, 18), (3, 20)],
        base: (0, 0),
        chooser: b"",
    },
    Saved {
        change: Base(2, 7),
        tried: 1,
        promised: 20,
        votes: &[(3, 20)],
        base: (2, 7),
        chooser: &[1],
    },
    Saved {
        change: Tried(33),
        tried: 4,
        promised: 33,
        votes: &[(3, 20)],
        base: (2, 7),
        chooser: &[1],
    },
    Saved {
        change: Voted(4, 33),
        tried: 4,
        promised: 33,
        votes: &[(3, 20), (4, 33)],
        base: (2, 7),
        chooser: &[1],
    },
    Saved {
        change: Base(4, 8),
        tried: 4,
        promised: 33,
        votes: &[(4, 33)],
        base: (4, 8),
        chooser: &[0],
    },
    Saved {
        change: Promised(42),
        tried: 4,
        promised: 42,
        votes: &[(4, 33)],
        base: (4, 8),
        chooser: &[0],
    },
    Saved {
        change: Voted(7, 42),
        tried: 4,
        promised: 42,
        votes: &[(4, 33), (7, 42)],
        base: (4, 8),
        chooser: &[0],
    },
    Saved {
        change: Base(90, 9),
        tried: 4,
        promised: 42,
        votes: &[],
        base: (90, 9),
        chooser: &[1],
    },
    Saved {
        change: Tried(1_000),
        tried: 125,
        promised: 1_000,
        votes: &[],
        base: (90, 9),
        chooser: &[1],
    },
    Saved {
        change: Base(91, 12),
        tried: 125,
        promised: 1_000,
        votes: &[],
        base: (91, 12),
        chooser: &[0],
    },
];

// The replica has no ballot of its own, and has promised none at the first base.
const WITHOUT_OWN: &[Saved] = &[
    Saved {
        change: Base(2, 7),
        tried: 0,
        promised: 0,
        votes: &[],
        base: (2, 7),
        chooser: &[1],
    },
    Saved {
        change: Voted(3, 17),
        tried: 0,
        promised: 17,
        votes: &[(3, 17)],
        base: (2, 7),
        chooser: &[1],
    },
    Saved {
        change: Base(3, 8),
        tried: 0,
        promised: 17,
        votes: &[(3, 17)],
        base: (3, 8),
        chooser: &[0],
    },
    Saved {
        change: Promised(19),
        tried: 0,
        promised: 19,
        votes: &[(3, 17)],
        base: (3, 8),
        chooser: &[0],
    },
];

fn durable_of(alloc: Global, row: &Saved) -> Result<Durable, Fail> {
    let mut durable = fresh(alloc)?;
    for (slot, number) in row.votes {
        durable.apply(Delta::Voted(vote_of(*slot, *number)))?;
    }
    durable.tried = row.tried;
    durable.promised = (row.promised > 0).then_some(ballot_of(row.promised));
    durable.base = u64::from(row.base.0);
    durable.rows = rows_of(alloc, row.base.1)?;
    Ok(durable)
}

// Attached, the disk has what the row says.
fn finds(rt: &impl Abort, alloc: Global, disk: &mut MemDisk, row: &Saved) -> Result<(), Fail> {
    let found = find(alloc, disk)?;
    assert_eq!(rt; found, durable_of(alloc, row)?, "{row:?}");
    let chooser = read_file(alloc, disk, FileNo::Chooser)?;
    assert_eq!(rt; chooser.as_slice(), row.chooser, "{row:?}");
    Ok(())
}

// Each change is saved by a store of its own.
fn saves_by_new_stores(rt: &impl Abort, alloc: Global, rows: &[Saved]) -> Result<(), Fail> {
    let mut disk = empty_disk(alloc, &[])?;
    for row in rows {
        save(alloc, &mut disk, &[row.change])?;
        finds(rt, alloc, &mut disk, row)?;
    }
    Ok(())
}

#[test]
fn what_was_saved_is_found(rt: HostRuntime) -> Result<(), Fail> {
    saves_by_new_stores(&rt, rt.alloc(), SAVED)?;
    saves_by_new_stores(&rt, rt.alloc(), WITHOUT_OWN)
}

const HISTORY: &[Change] = &[
    Tried(9),
    Promised(16),
    Voted(3, 16),
    Base(2, 7),
    Voted(4, 16),
    Base(4, 8),
];

#[test]
fn what_one_store_saved_is_found(rt: HostRuntime) -> Result<(), Fail> {
    let mut disk = empty_disk(rt.alloc(), &[])?;
    save(rt.alloc(), &mut disk, HISTORY)?;
    let found = find(rt.alloc(), &mut disk)?;
    assert_eq!(rt; found, after(rt.alloc(), HISTORY)?);
    Ok(())
}

// For each call of a disk in the history that may fail, how many of its changes are found then: seven calls of the
// attaching, four of a change, and five of a base.
const FOUND: &[u8] = b"0000000000111122223333344445555";

// The change within which a call fails is found or not, and the disk takes the others.
fn goes_on(rt: &impl Abort, alloc: Global, disk: &mut MemDisk, found: usize) -> Result<(), Fail> {
    assert!(rt; found <= HISTORY.len());
    let (done, rest) = HISTORY.split_at(found);
    assert_eq!(rt; find(alloc, disk)?, after(alloc, done)?, "{found}");
    save(alloc, disk, rest)?;
    assert_eq!(rt; find(alloc, disk)?, after(alloc, HISTORY)?, "{found}");
    Ok(())
}

#[test]
fn a_fault_within_a_call_leaves_its_change_or_not(rt: HostRuntime) -> Result<(), Fail> {
    for (number, digit) in (0u64..).zip(FOUND) {
        let mut disk = empty_disk(rt.alloc(), &[number])?;
        let fault = save(rt.alloc(), &mut disk, HISTORY).err();
        assert_eq!(rt; fault, Some(StoreFault::DiskFault), "{number}");
        goes_on(
            &rt,
            rt.alloc(),
            &mut disk,
            usize::from(digit.wrapping_sub(b'0')),
        )?;
    }
    Ok(())
}
