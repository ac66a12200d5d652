//! What is kept after a call of the disk that fails, and after one within which it stops.
use crate::nodes::End::{Done, Ended, NotRecovered};
use crate::nodes::{End, Told, empty_disk, empty_table, found_on, input_of, letter_of, play};
use disk_model::{ArmedDisk, MemDisk};
use due_set::JobTable;
use std::alloc::Global;
use std::process::Abort;
use std::test::*;

// Whether a disk keeps a change.
fn has_change(alloc: Global, disk: &mut MemDisk) -> Result<bool, Fail> {
    Ok(found_on(alloc, disk)?.promised.is_some())
}

// A call of the disk that fails, how far a campaign of a fresh node comes, and whether its change is kept.
#[derive(Debug)]
struct Failed {
    call: u64,
    end: End,
    is_kept: bool,
}

// A recovery from an empty disk has seven calls: a sync and the length of the chooser; a sync, the length, a read, a write
// and a sync of the area. The change has a write, a sync, a write that opens its gate, and a sync.
const FAILED: &[Failed] = &[
    Failed {
        call: 0,
        end: NotRecovered,
        is_kept: false,
    },
    Failed {
        call: 6,
        end: NotRecovered,
        is_kept: false,
    },
    Failed {
        call: 7,
        end: Ended,
        is_kept: false,
    },
    Failed {
        call: 8,
        end: Ended,
        is_kept: false,
    },
    Failed {
        call: 9,
        end: Ended,
        is_kept: false,
    },
    Failed {
        call: 10,
        end: Ended,
        is_kept: true,
    },
    Failed {
        call: 99,
        end: Done(2),
        is_kept: true,
    },
];

fn fails(rt: &impl Abort, alloc: Global, table: &JobTable, row: &Failed) -> Result<(), Fail> {
    let disk = empty_disk(alloc, &[row.call])?;
    let (mut disk, end) = play(rt, alloc, table, disk, input_of(Told::Campaign, &[]));
    assert!(rt; end == row.end, "{row:?}");
    let is_kept = has_change(alloc, &mut disk)?;
    assert!(rt; is_kept == row.is_kept, "{row:?}");
    Ok(())
}

#[test]
fn a_node_whose_disk_fails_runs_no_more(rt: HostRuntime) -> Result<(), Fail> {
    let table = empty_table(rt.alloc())?;
    for row in FAILED {
        fails(&rt, rt.alloc(), &table, row)?;
    }
    Ok(())
}

// After how many writes and syncs the disk stops, the number of the image that is left, how far a fresh node comes, and
// whether its change is kept.
#[derive(Debug)]
struct Stopped {
    pass: u32,
    image: u32,
    end: End,
    is_kept: bool,
}

// Four of them are the recovery's. Image 1 is the stopped call done, 0 what the last syncs left, and 2 and 5 have the bytes 0
// and 1 in all that was written since; the byte 1 opens a gate.
const STOPPED: &[Stopped] = &[
    Stopped {
        pass: 0,
        image: 1,
        end: NotRecovered,
        is_kept: false,
    },
    Stopped {
        pass: 3,
        image: 5,
        end: NotRecovered,
        is_kept: false,
    },
    Stopped {
        pass: 4,
        image: 1,
        end: Ended,
        is_kept: false,
    },
    Stopped {
        pass: 5,
        image: 0,
        end: Ended,
        is_kept: false,
    },
    Stopped {
        pass: 5,
        image: 1,
        end: Ended,
        is_kept: false,
    },
    Stopped {
        pass: 6,
        image: 0,
        end: Ended,
        is_kept: false,
    },
    Stopped {
        pass: 6,
        image: 1,
        end: Ended,
        is_kept: true,
    },
    Stopped {
        pass: 6,
        image: 2,
        end: Ended,
        is_kept: false,
    },
    Stopped {
        pass: 6,
        image: 5,
        end: Ended,
        is_kept: true,
    },
    Stopped {
        pass: 7,
        image: 0,
        end: Ended,
        is_kept: false,
    },
    Stopped {
        pass: 7,
        image: 1,
        end: Ended,
        is_kept: true,
    },
];

// A campaign, a promise or a vote.
fn stops(
    rt: &impl Abort,
    alloc: Global,
    table: &JobTable,
    told: Told,
    row: &Stopped,
) -> Result<(), Fail> {
    let mut disk = empty_disk(alloc, &[])?;
    disk.arm(row.pass, row.image);
    let letter = letter_of(told);
    let (mut disk, end) = play(rt, alloc, table, disk, input_of(told, &letter));
    assert!(rt; end == row.end, "{told:?} {row:?}");
    disk.revive();
    let is_kept = has_change(alloc, &mut disk)?;
    assert!(rt; is_kept == row.is_kept, "{told:?} {row:?}");
    Ok(())
}

#[test]
fn a_stop_within_a_step_keeps_its_change_or_not(rt: HostRuntime) -> Result<(), Fail> {
    let table = empty_table(rt.alloc())?;
    for row in STOPPED {
        stops(&rt, rt.alloc(), &table, Told::Campaign, row)?;
        stops(&rt, rt.alloc(), &table, Told::Prepare, row)?;
        stops(&rt, rt.alloc(), &table, Told::Accept, row)?;
    }
    Ok(())
}
