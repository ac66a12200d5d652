//! What is found after a stop within a call.
use crate::change::Change::{self, Base, Promised, Tried, Voted};
use crate::change::after;
use crate::kept::{empty_disk, find, save, save_armed};
use disk_model::{ArmedDisk, MemDisk};
use replica_store::StoreFault;
use std::alloc::Global;
use std::process::Abort;
use std::test::Fail;

// Earlier changes, one that is stopped after so many of its calls, the number of the image that is left, and whether the
// change is found then. Image 1 is the stopped call done, 0 what the last syncs left, and the others have the byte of
// image / 3 in all that was written since.
#[derive(Debug)]
struct Stopped {
    earlier: &'static [Change],
    change: Change,
    pass: u32,
    image: u32,
    is_found: bool,
}

const LOG: &[Change] = &[Tried(9), Promised(16), Voted(3, 16), Voted(5, 20)];

const BASED: &[Change] = &[Tried(9), Voted(5, 20), Base(4, 7), Voted(6, 20)];

const STOPS: &[Stopped] = &[
    // within the write of a record and its sync
    Stopped {
        earlier: LOG,
        change: Tried(33),
        pass: 0,
        image: 1,
        is_found: false,
    },
    Stopped {
        earlier: LOG,
        change: Voted(3, 33),
        pass: 1,
        image: 5,
        is_found: false,
    },
    // within the write of its gate, whose byte 1 opens it, and the sync
    Stopped {
        earlier: &[],
        change: Promised(9),
        pass: 2,
        image: 0,
        is_found: false,
    },
    Stopped {
        earlier: &[],
        change: Promised(9),
        pass: 2,
        image: 1,
        is_found: true,
    },
    Stopped {
        earlier: LOG,
        change: Voted(4, 20),
        pass: 2,
        image: 2,
        is_found: false,
    },
    Stopped {
        earlier: LOG,
        change: Voted(4, 20),
        pass: 2,
        image: 5,
        is_found: true,
    },
    Stopped {
        earlier: LOG,
        change: Voted(4, 20),
        pass: 3,
        image: 8,
        is_found: false,
    },
    Stopped {
        earlier: BASED,
        change: Voted(4, 20),
        pass: 3,
        image: 1,
        is_found: true,
    },
    Stopped {
        earlier: BASED,
        change: Tried(33),
        pass: 3,
        image: 0,
        is_found: false,
    },
    // within the cut, the write and the sync of a base's area
    Stopped {
        earlier: LOG,
        change: Base(4, 7),
        pass: 0,
        image: 1,
        is_found: false,
    },
    Stopped {
        earlier: LOG,
        change: Base(4, 7),
        pass: 1,
        image: 5,
        is_found: false,
    },
    Stopped {
        earlier: LOG,
        change: Base(4, 7),
        pass: 2,
        image: 1,
        is_found: false,
    },
    // within the write of the chooser, whose low bit selects, and the sync
    Stopped {
        earlier: LOG,
        change: Base(4, 7),
        pass: 3,
        image: 0,
        is_found: false,
    },
    Stopped {
        earlier: LOG,
        change: Base(4, 7),
        pass: 3,
        image: 1,
        is_found: true,
    },
    Stopped {
        earlier: LOG,
        change: Base(4, 7),
        pass: 4,
        image: 5,
        is_found: true,
    },
    Stopped {
        earlier: LOG,
        change: Base(4, 7),
        pass: 4,
        image: 8,
        is_found: false,
    },
    Stopped {
        earlier: LOG,
        change: Base(4, 7),
        pass: 4,
        image: 767,
        is_found: true,
    },
    Stopped {
        earlier: BASED,
        change: Base(5, 8),
        pass: 3,
        image: 0,
        is_found: false,
    },
    Stopped {
        earlier: BASED,
        change: Base(5, 8),
        pass: 3,
        image: 2,
        is_found: true,
    },
    Stopped {
        earlier: BASED,
        change: Base(5, 8),
        pass: 4,
        image: 5,
        is_found: false,
    },
    Stopped {
        earlier: BASED,
        change: Base(90, 8),
        pass: 4,
        image: 8,
        is_found: true,
    },
];

fn stop(rt: &impl Abort, alloc: Global, row: &Stopped) -> Result<MemDisk, Fail> {
    let mut disk = empty_disk(alloc, &[])?;
    save(alloc, &mut disk, row.earlier)?;
    let fault = save_armed(alloc, &mut disk, row.change, row.pass, row.image).err();
    assert_eq!(rt; fault, Some(StoreFault::Stopped), "{row:?}");
    disk.revive();
    Ok(disk)
}

// What is saved at last, to see that the disk still takes changes.
const LATER: &[Change] = &[Voted(100, 900), Base(99, 99), Voted(101, 901)];

fn goes_on(rt: &impl Abort, alloc: Global, disk: &mut MemDisk, row: &Stopped) -> Result<(), Fail> {
    let mut changes = Vec::from_slice(alloc, row.earlier)?;
    if row.is_found {
        changes.push(row.change)?;
    }
    assert_eq!(rt; find(alloc, disk)?, after(alloc, &changes)?, "{row:?}");
    save(alloc, disk, LATER)?;
    changes.extend_from_slice(LATER)?;
    assert_eq!(rt; find(alloc, disk)?, after(alloc, &changes)?, "{row:?}");
    Ok(())
}

#[test]
fn a_stop_within_a_save_leaves_its_change_or_not(rt: HostRuntime) -> Result<(), Fail> {
    for row in STOPS {
        let mut disk = stop(&rt, rt.alloc(), row)?;
        goes_on(&rt, rt.alloc(), &mut disk, row)?;
    }
    Ok(())
}
