//! What files stand for, and what an attaching makes of them.
use crate::area_text::bytes_of;
use crate::change::Change::{self, Base, Promised};
use crate::change::after;
use crate::kept::{disk_with, find};
use disk_model::FileNo::{AreaA, AreaB, Chooser};
use disk_model::{ArmedDisk, MemDisk, read_file};
use replica_store::StoreFault;
use std::alloc::Global;
use std::process::Abort;
use std::test::Fail;

// The bytes of the chooser, and the two areas.
#[derive(Clone, Copy, Debug)]
struct Files(&'static [u8], &'static str, &'static str);

fn make(alloc: Global, files: Files) -> Result<MemDisk, Fail> {
    let area_a = bytes_of(alloc, files.1)?;
    let area_b = bytes_of(alloc, files.2)?;
    disk_with(alloc, files.0, &area_a, &area_b)
}

// The disk's files are these.
fn has(rt: &impl Abort, alloc: Global, disk: &mut MemDisk, files: Files) -> Result<(), Fail> {
    let chooser = read_file(alloc, disk, Chooser)?;
    assert_eq!(rt; chooser.as_slice(), files.0, "{files:?}");
    let area_a = read_file(alloc, disk, AreaA)?;
    assert_eq!(rt; area_a, bytes_of(alloc, files.1)?, "{files:?}");
    let area_b = read_file(alloc, disk, AreaB)?;
    assert_eq!(rt; area_b, bytes_of(alloc, files.2)?, "{files:?}");
    Ok(())
}

// Files, and the changes after which that is kept for which they stand.
struct Standing {
    files: Files,
    changes: &'static [Change],
}

const AT_8: &[Change] = &[Promised(8)];

const AT_16: &[Change] = &[Promised(16)];

const STANDING: &[Standing] = &[
    Standing {
        files: Files(b"", "", ""),
        changes: &[],
    },
    Standing {
        files: Files(b"", "1", ""),
        changes: &[],
    },
    Standing {
        files: Files(b"", "1p", ""),
        changes: &[],
    },
    Standing {
        files: Files(b"", "0p1", ""),
        changes: &[],
    },
    Standing {
        files: Files(b"", "2p0", ""),
        changes: &[],
    },
    Standing {
        files: Files(b"", "1p0", ""),
        changes: AT_8,
    },
    Standing {
        files: Files(b"", "1p1", ""),
        changes: AT_8,
    },
    Standing {
        files: Files(b"", "1p1q", ""),
        changes: AT_8,
    },
    Standing {
        files: Files(b"", "1p0q0", ""),
        changes: AT_8,
    },
    Standing {
        files: Files(b"", "1p1q0", ""),
        changes: AT_16,
    },
    // the low bit of the chooser's first byte selects
    Standing {
        files: Files(b"\xff", "1p0", ""),
        changes: &[],
    },
    Standing {
        files: Files(&[0], "1p0", "1q0"),
        changes: AT_8,
    },
    Standing {
        files: Files(&[1], "1p0", "1q0"),
        changes: AT_16,
    },
    Standing {
        files: Files(&[2], "1p0", "1q0"),
        changes: AT_8,
    },
    Standing {
        files: Files(&[254], "1p0", "1q0"),
        changes: AT_8,
    },
    Standing {
        files: Files(&[255], "1p0", "1q0"),
        changes: AT_16,
    },
    Standing {
        files: Files(&[0, 1], "1p0", "1q0"),
        changes: AT_8,
    },
    Standing {
        files: Files(&[1, 0], "1p0", "1q0"),
        changes: AT_16,
    },
    Standing {
        files: Files(&[0], "1p0", "1f0"),
        changes: AT_8,
    },
    Standing {
        files: Files(&[1], "1f0", "1p0"),
        changes: AT_8,
    },
    // the group of a base
    Standing {
        files: Files(b"", "1b1r1s1t0", ""),
        changes: &[Base(5, 7)],
    },
    Standing {
        files: Files(&[1], "", "1b1r1s1t1p0"),
        changes: &[Base(5, 7), Promised(8)],
    },
    // and in format 1
    Standing {
        files: Files(b"", "1c1r1s0", ""),
        changes: &[Base(5, 7)],
    },
    Standing {
        files: Files(&[1], "", "1c1r1s1p0"),
        changes: &[Base(5, 7), Promised(8)],
    },
];

#[test]
fn files_stand_for_what_is_kept(rt: HostRuntime) -> Result<(), Fail> {
    for row in STANDING {
        let mut disk = make(rt.alloc(), row.files)?;
        let found = find(rt.alloc(), &mut disk)?;
        assert_eq!(rt; found, after(rt.alloc(), row.changes)?, "{:?}", row.files);
    }
    Ok(())
}

// Files that stand for nothing, and the first gate at fault.
struct Damaged {
    files: Files,
    gate: u64,
}

const DAMAGED: &[Damaged] = &[
    Damaged {
        files: Files(b"", "1p1p0", ""),
        gate: 1,
    },
    Damaged {
        files: Files(b"", "1q1p0", ""),
        gate: 1,
    },
    Damaged {
        files: Files(b"", "1fF", ""),
        gate: 0,
    },
    Damaged {
        files: Files(b"", "1p1q1f0", ""),
        gate: 2,
    },
    Damaged {
        files: Files(&[1], "1p0", "1f0"),
        gate: 0,
    },
    Damaged {
        files: Files(b"", "1b1r0", ""),
        gate: 2,
    },
    Damaged {
        files: Files(b"", "1b0", ""),
        gate: 1,
    },
    Damaged {
        files: Files(b"", "1b1s1r0", ""),
        gate: 1,
    },
    // no row of the table, one that isn't its own, and one behind a count of the jobs alone, in format 1
    Damaged {
        files: Files(b"", "1b1r1s0", ""),
        gate: 3,
    },
    Damaged {
        files: Files(b"", "1b1r1s1u0", ""),
        gate: 3,
    },
    Damaged {
        files: Files(b"", "1c1r1s1t0", ""),
        gate: 3,
    },
    Damaged {
        files: Files(b"", "1p1b1r1s1t0", ""),
        gate: 1,
    },
    Damaged {
        files: Files(b"", "1b1r1s1t1p1p0", ""),
        gate: 5,
    },
];

#[test]
fn damaged_files_are_refused_and_stay(rt: HostRuntime) -> Result<(), Fail> {
    for row in DAMAGED {
        let mut disk = make(rt.alloc(), row.files)?;
        let fault = find(rt.alloc(), &mut disk).err();
        assert_eq!(rt;
            fault,
            Some(StoreFault::Damaged { gate: row.gate }),
            "{:?}",
            row.files
        );
        has(&rt, rt.alloc(), &mut disk, row.files)?;
    }
    Ok(())
}

// Files, and what they are once they are attached.
struct Attached {
    files: Files,
    then: Files,
}

const ATTACHED: &[Attached] = &[
    Attached {
        files: Files(b"", "", ""),
        then: Files(b"", "0", ""),
    },
    Attached {
        files: Files(b"", "1p5q0", "1p1"),
        then: Files(b"", "1p0q0", "1p1"),
    },
    Attached {
        files: Files(b"", "1p1q", "1f0"),
        then: Files(b"", "1p0q", "1f0"),
    },
    Attached {
        files: Files(&[255], "1p1", ""),
        then: Files(&[255], "1p1", "0"),
    },
    Attached {
        files: Files(&[1, 2], "1p1", "1p1"),
        then: Files(&[1, 2], "1p1", "1p0"),
    },
    Attached {
        files: Files(&[1], "1f0", "1p0"),
        then: Files(&[1], "1f0", "1p0"),
    },
];

fn attach_all(rt: &impl Abort, alloc: Global, rows: &[Attached]) -> Result<(), Fail> {
    for row in rows {
        let mut disk = make(alloc, row.files)?;
        find(alloc, &mut disk)?;
        has(rt, alloc, &mut disk, row.then)?;
    }
    Ok(())
}

#[test]
fn an_attached_disk_has_a_closed_gate_more_alone(rt: HostRuntime) -> Result<(), Fail> {
    attach_all(&rt, rt.alloc(), ATTACHED)
}

const MIGRATED: &[Attached] = &[
    Attached {
        files: Files(b"", "1c1r1s0", ""),
        then: Files(&[1], "1c1r1s0", "1b1r1s1t0"),
    },
    Attached {
        files: Files(&[1, 2], "1f0", "1c1r1s1p5"),
        then: Files(&[0, 2], "1b1r1s1t1p0", "1c1r1s1p0"),
    },
];

#[test]
fn a_base_of_format_1_is_saved_anew(rt: HostRuntime) -> Result<(), Fail> {
    attach_all(&rt, rt.alloc(), MIGRATED)
}

// The numbers of images, and how many calls an attach that saves a base makes: two syncs, and those of the base.
const IMAGES: [u32; 4] = [0, 1, 2, 5];

const CALLS: u32 = 7;

fn stop_migration(rt: &impl Abort, alloc: Global, pass: u32, image: u32) -> Result<(), Fail> {
    let mut disk = make(alloc, Files(b"", "1c1r1s1p0", ""))?;
    disk.arm(pass, image);
    let fault = find(alloc, &mut disk).err();
    assert_eq!(rt; fault, Some(StoreFault::Stopped), "{pass} {image}");
    disk.revive();
    let want = after(alloc, &[Base(5, 7), Promised(8)])?;
    assert_eq!(rt; find(alloc, &mut disk)?, want, "{pass} {image}");
    Ok(())
}

#[test]
fn a_stop_within_an_attach_keeps_a_base_of_format_1(rt: HostRuntime) -> Result<(), Fail> {
    for pass in 0..CALLS {
        for image in IMAGES {
            stop_migration(&rt, rt.alloc(), pass, image)?;
        }
    }
    Ok(())
}
