//! Steps of a node, each after a start from its disk.
use crate::nodes::End::{Done, Refused};
use crate::nodes::Told::{Accept, Campaign, NoLetter, Prepare};
use crate::nodes::{End, Told, empty_disk, empty_table, found_on, input_of, letter_of, play};
use disk_model::MemDisk;
use due_set::JobTable;
use std::alloc::Global;
use std::process::Abort;
use std::test::*;

// What a node is told, how far it comes, and what its disk keeps then: the round that was tried, the promise (0 is none), and
// how many votes.
#[derive(Debug)]
struct Step {
    told: Told,
    end: End,
    kept: (u64, u64, usize),
}

// The second campaign is in round 2, whose ballot is 16.
const STEPS: &[Step] = &[
    Step {
        told: NoLetter,
        end: Refused,
        kept: (0, 0, 0),
    },
    Step {
        told: Campaign,
        end: Done(2),
        kept: (1, 8, 0),
    },
    Step {
        told: Prepare,
        end: Done(1),
        kept: (1, 9, 0),
    },
    Step {
        told: Accept,
        end: Done(1),
        kept: (1, 9, 1),
    },
    Step {
        told: NoLetter,
        end: Refused,
        kept: (1, 9, 1),
    },
    Step {
        told: Campaign,
        end: Done(2),
        kept: (2, 16, 1),
    },
];

// The disk keeps what the row says.
fn finds(rt: &impl Abort, alloc: Global, disk: &mut MemDisk, row: &Step) -> Result<(), Fail> {
    let found = found_on(alloc, disk)?;
    let promised = found.promised.map_or(0, |ballot| ballot.number());
    let kept = (found.tried, promised, found.votes.items.len());
    assert!(rt; kept == row.kept, "{row:?}");
    Ok(())
}

// Does the step of a row on a disk, and gives the disk back.
fn take(
    rt: &impl Abort,
    alloc: Global,
    table: &JobTable,
    disk: MemDisk,
    row: &Step,
) -> Result<MemDisk, Fail> {
    let letter = letter_of(row.told);
    let (mut disk, end) = play(rt, alloc, table, disk, input_of(row.told, &letter));
    assert!(rt; end == row.end, "{row:?}");
    finds(rt, alloc, &mut disk, row)?;
    Ok(disk)
}

#[test]
fn a_node_finds_again_what_it_kept(rt: HostRuntime) -> Result<(), Fail> {
    let table = empty_table(rt.alloc())?;
    let mut disk = empty_disk(rt.alloc(), &[])?;
    for row in STEPS {
        disk = take(&rt, rt.alloc(), &table, disk, row)?;
    }
    Ok(())
}
