//! A node with a table of one job, whose disk stops within the save of a base that has a row, or within an attaching where its
//! area begins with such a base.
use crate::arms::handle_armed;
use crate::nodes::{End, HOUR, empty_disk, end_with, play};
use disk_model::{ArmedDisk, MemDisk};
use due_set::{JobKind, JobSpec, JobTable};
use paxos_base::TableSize;
use replica_core::Input;
use replica_node::Node;
use replica_store::Store;
use std::alloc::Global;
use std::process::Abort;
use std::test::*;

/// The hour with a job that runs at no time.
pub fn table_of_one(alloc: Global) -> Result<JobTable, Fail> {
    let mut jobs = Vec::new(alloc);
    jobs.push(JobSpec::new(alloc, "alice:1", 0, JobKind::Never)?)?;
    Ok(JobTable::in_utc(alloc, HOUR, 10, jobs)?)
}

// A letter of replica 1 with the launch table as it is at a slot. Its first row says that the job was launched as many times,
// and the other is the table's own.
fn snapshot(slot: u8) -> [u8; 168] {
    let mut bytes = [0; 168];
    bytes[0] = 9;
    bytes[1] = 1;
    bytes[23] = slot;
    bytes[31] = 2;
    bytes[56] = 10;
    bytes[57] = 1;
    bytes[71] = slot;
    bytes[79] = slot;
    bytes[112] = 10;
    bytes[113] = 1;
    bytes[119] = 1;
    bytes[135] = slot;
    bytes
}

/// The size of a table of one job.
pub const ONE_JOB: TableSize = TableSize {
    jobs: 1,
    last_version: 0,
};

// What a disk keeps: the base, how many launches its row counts, and the round that was tried.
type Kept = (u64, u32, u64);

fn kept_on(alloc: Global, disk: &mut MemDisk) -> Result<Kept, Fail> {
    let (_, found) = Store::attach(alloc, disk, ONE_JOB)?;
    let launched = found.rows.items.first().map_or(0, |row| row.launched);
    Ok((found.base, launched, found.tried))
}

// A disk that keeps the launch tables of these slots, one in place of another.
fn disk_with(
    rt: &impl Abort,
    alloc: Global,
    table: &JobTable,
    slots: &[u8],
) -> Result<MemDisk, Fail> {
    let mut disk = empty_disk(alloc, &[])?;
    for slot in slots {
        let bytes = snapshot(*slot);
        let (after, _) = play(rt, alloc, table, disk, Input::Hear { bytes: &bytes });
        disk = after;
    }
    Ok(disk)
}

// The tables that were kept before, and what the disk keeps then; and the bytes of the chooser that show the next one. An odd
// byte selects the second area.
#[derive(Debug)]
struct Earlier {
    slots: &'static [u8],
    kept: Kept,
    shown: &'static [u32],
}

const EARLIER: &[Earlier] = &[
    Earlier {
        slots: &[],
        kept: (0, 0, 0),
        shown: &[1, 5, 767],
    },
    Earlier {
        slots: &[5],
        kept: (5, 5, 0),
        shown: &[1, 2, 8, 764],
    },
    Earlier {
        slots: &[5, 9],
        kept: (9, 9, 0),
        shown: &[1, 5, 767],
    },
];

const NEXT: Kept = (13, 13, 0);

// What the last syncs left, the stopped call done, and the bytes 0, 1, 2, 254 and 255 in all that was written since.
const IMAGES: &[u32] = &[0, 1, 2, 5, 8, 764, 767];

// A base takes five calls, of which the last two write the chooser's byte and sync it.
fn end_of(row: &Earlier, arm: (u32, u32)) -> End {
    let (pass, image) = arm;
    if pass >= 5 {
        End::Done(0)
    } else if pass >= 3 && row.shown.contains(&image) {
        End::Kept
    } else {
        End::Lost
    }
}

// A node is recovered, arms its disk, and hears of the launch table at slot 13.
fn snap_armed(
    rt: &impl Abort,
    alloc: Global,
    table: &JobTable,
    disk: MemDisk,
    arm: (u32, u32),
) -> (MemDisk, End) {
    match Node::recover(alloc, 0, 3, table, disk) {
        Ok(mut node) => {
            node.arm(arm.0, arm.1);
            let bytes = snapshot(13);
            handle_armed(rt, alloc, table, node, Input::Hear { bytes: &bytes })
        }
        Err((disk, _)) => (disk, End::NotRecovered),
    }
}

fn stops(
    rt: &impl Abort,
    alloc: Global,
    table: &JobTable,
    row: &Earlier,
    arm: (u32, u32),
) -> Result<(), Fail> {
    let disk = disk_with(rt, alloc, table, row.slots)?;
    let (mut disk, end) = snap_armed(rt, alloc, table, disk, arm);
    // A disk that hasn't stopped is still armed.
    disk.disarm();
    let kept = kept_on(alloc, &mut disk)?;
    let wanted = end_of(row, arm);
    let is_kept = wanted != End::Lost;
    assert!(rt;
        end == wanted && kept == if is_kept { NEXT } else { row.kept },
        "{row:?} {arm:?}"
    );
    Ok(())
}

#[test]
fn a_base_with_a_row_is_kept_or_not(rt: HostRuntime) -> Result<(), Fail> {
    let table = table_of_one(rt.alloc())?;
    for row in EARLIER {
        for image in IMAGES {
            for pass in 0..7 {
                stops(&rt, rt.alloc(), &table, row, (pass, *image))?;
            }
        }
    }
    Ok(())
}

// The image of a stop at the gate of a campaign's record, where one came before; then, after how many writes and syncs an
// attaching stops, and which image that leaves; and whether the node is recovered, and what is found by the next attaching.
#[derive(Debug)]
struct Attach {
    gate: Option<u32>,
    arm: (u32, u32),
    is_recovered: bool,
    kept: Kept,
}

const LOST: Kept = (5, 5, 0);

const FOUND: Kept = (5, 5, 1);

const ATTACHES: &[Attach] = &[
    // A sync of the chooser and one of the area, whose last gate is 0 already.
    Attach {
        gate: None,
        arm: (0, 1),
        is_recovered: false,
        kept: LOST,
    },
    Attach {
        gate: None,
        arm: (1, 5),
        is_recovered: false,
        kept: LOST,
    },
    Attach {
        gate: None,
        arm: (2, 5),
        is_recovered: true,
        kept: LOST,
    },
    // An open gate is found again, with the record behind it.
    Attach {
        gate: Some(5),
        arm: (1, 0),
        is_recovered: false,
        kept: FOUND,
    },
    Attach {
        gate: Some(5),
        arm: (2, 0),
        is_recovered: true,
        kept: FOUND,
    },
    // A gate of 2 isn't open. It is written as 0 and synced, and until then a stop may leave it open.
    Attach {
        gate: Some(8),
        arm: (0, 5),
        is_recovered: false,
        kept: LOST,
    },
    Attach {
        gate: Some(8),
        arm: (1, 5),
        is_recovered: false,
        kept: LOST,
    },
    Attach {
        gate: Some(8),
        arm: (2, 0),
        is_recovered: false,
        kept: LOST,
    },
    Attach {
        gate: Some(8),
        arm: (2, 1),
        is_recovered: false,
        kept: LOST,
    },
    Attach {
        gate: Some(8),
        arm: (2, 5),
        is_recovered: false,
        kept: FOUND,
    },
    Attach {
        gate: Some(8),
        arm: (3, 1),
        is_recovered: false,
        kept: LOST,
    },
    Attach {
        gate: Some(8),
        arm: (3, 5),
        is_recovered: false,
        kept: FOUND,
    },
    Attach {
        gate: Some(8),
        arm: (3, 8),
        is_recovered: false,
        kept: LOST,
    },
    Attach {
        gate: Some(8),
        arm: (4, 5),
        is_recovered: true,
        kept: LOST,
    },
];

// A node stands for leader, and its disk stops as it writes the gate of the record. It isn't reopened.
fn torn(rt: &impl Abort, alloc: Global, table: &JobTable, disk: MemDisk, image: u32) -> MemDisk {
    match Node::recover(alloc, 0, 3, table, disk) {
        Ok(mut node) => {
            node.arm(2, image);
            let (mut disk, _) = end_with(rt, table, node, Input::Campaign);
            disk.revive();
            disk
        }
        Err((disk, _)) => disk,
    }
}

// The disk of a row, whose area begins with the base of slot 5.
fn disk_for(
    rt: &impl Abort,
    alloc: Global,
    table: &JobTable,
    row: &Attach,
) -> Result<MemDisk, Fail> {
    let disk = disk_with(rt, alloc, table, &[5])?;
    match row.gate {
        Some(image) => Ok(torn(rt, alloc, table, disk, image)),
        None => Ok(disk),
    }
}

/// Arms a disk and attaches it, and says whether a node is recovered.
pub fn attach_armed(
    alloc: Global,
    table: &JobTable,
    mut disk: MemDisk,
    arm: (u32, u32),
) -> (MemDisk, bool) {
    disk.arm(arm.0, arm.1);
    let (mut disk, is_recovered) = match Node::recover(alloc, 0, 3, table, disk) {
        Ok(node) => (node.into_disk(), true),
        Err((disk, _)) => (disk, false),
    };
    disk.disarm();
    disk.revive();
    (disk, is_recovered)
}

#[test]
fn a_stop_within_an_attaching_decides(rt: HostRuntime) -> Result<(), Fail> {
    let table = table_of_one(rt.alloc())?;
    for row in ATTACHES {
        let disk = disk_for(&rt, rt.alloc(), &table, row)?;
        let (mut disk, is_recovered) = attach_armed(rt.alloc(), &table, disk, row.arm);
        let kept = kept_on(rt.alloc(), &mut disk)?;
        assert!(rt;
            is_recovered == row.is_recovered && kept == row.kept,
            "{row:?}"
        );
    }
    Ok(())
}
