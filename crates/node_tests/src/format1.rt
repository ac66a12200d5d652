//! An area of format 1, of a table of one job. An attaching saves its base in format 2, and if it stops, the next one does.
use crate::nodes::empty_disk;
use crate::rows::{ONE_JOB, attach_armed, table_of_one};
use disk_model::FileNo::{AreaA, AreaB, Chooser};
use disk_model::{ArmedDisk, Disk, MemDisk, read_file};
use paxos_base::{Durable, JobRow};
use replica_store::{Store, StoreFault};
use std::alloc::Global;
use std::process::Abort;
use std::test::*;

// The job was launched once, at this minute.
const LAUNCH: i64 = 28_530_720;

// The bytes of an area that aren't 0. Behind an open gate stands the base of slot 64, which counts one row, and behind another
// the row of the job, with the four bytes of the minute as cursor and as last launch. A closed gate is the end.
const FORMAT_1: &[(usize, u8)] = &[
    (0, 1),
    (1, 4),
    (24, 64),
    (32, 1),
    (57, 1),
    (58, 5),
    (60, 5),
    (73, 1),
    (81, 64),
    (94, 1),
    (95, 179),
    (96, 88),
    (97, 32),
    (110, 1),
    (111, 179),
    (112, 88),
    (113, 32),
];

const LENGTH_1: usize = 115;

// In format 2 the base counts a row more, and the table's own stands behind that of the job.
const MORE: &[(usize, u8)] = &[(32, 2), (114, 1), (115, 5), (122, 1), (138, 64)];

const LENGTH_2: usize = 172;

fn spell(places: &[(usize, u8)], bytes: &mut [u8]) {
    for (place, byte) in places {
        if let Some(old) = bytes.get_mut(*place) {
            *old = *byte;
        }
    }
}

fn area_of_format_1() -> [u8; LENGTH_1] {
    let mut bytes = [0; LENGTH_1];
    spell(FORMAT_1, &mut bytes);
    bytes
}

fn area_of_format_2() -> [u8; LENGTH_2] {
    let mut bytes = [0; LENGTH_2];
    spell(FORMAT_1, &mut bytes);
    spell(MORE, &mut bytes);
    bytes
}

fn disk_in_format_1(alloc: Global) -> Result<MemDisk, Fail> {
    let mut disk = empty_disk(alloc, &[])?;
    disk.write_at(AreaA, 0, &area_of_format_1())?;
    disk.sync(AreaA)?;
    Ok(disk)
}

fn attach(alloc: Global, disk: &mut MemDisk) -> Result<Durable, StoreFault> {
    let (_, kept) = Store::attach(alloc, disk, ONE_JOB)?;
    Ok(kept)
}

// The disk is in format 2, and keeps what it kept in format 1.
fn is_saved_anew(rt: &impl Abort, alloc: Global, disk: &mut MemDisk) -> Result<(), Fail> {
    let kept = attach(alloc, disk)?;
    let row = JobRow {
        cursor: Some(LAUNCH),
        last: Some(LAUNCH),
        launched: 1,
        ..JobRow::fresh(0)
    };
    assert_eq!(rt; kept.base, 64);
    assert_eq!(rt;
        kept.rows.items.as_slice(),
        [row, JobRow::fresh(1)].as_slice()
    );
    let chooser = read_file(alloc, disk, Chooser)?;
    assert_eq!(rt; chooser.as_slice(), [1].as_slice());
    let area_b = read_file(alloc, disk, AreaB)?;
    assert_eq!(rt; area_b.as_slice(), area_of_format_2().as_slice());
    Ok(())
}

#[test]
fn a_disk_of_format_1_is_saved_anew(rt: HostRuntime) -> Result<(), Fail> {
    let mut disk = disk_in_format_1(rt.alloc())?;
    is_saved_anew(&rt, rt.alloc(), &mut disk)
}

// The numbers of images, and how many calls such an attaching makes: two syncs, and the five of a base.
const IMAGES: [u32; 4] = [0, 1, 2, 5];

const CALLS: u32 = 7;

fn stop_attach(rt: &impl Abort, alloc: Global, arm: (u32, u32)) -> Result<(), Fail> {
    let mut disk = disk_in_format_1(alloc)?;
    disk.arm(arm.0, arm.1);
    let fault = attach(alloc, &mut disk).err();
    assert_eq!(rt; fault, Some(StoreFault::Stopped), "{arm:?}");
    disk.revive();
    is_saved_anew(rt, alloc, &mut disk)
}

#[test]
fn a_stop_within_an_attaching_keeps_format_1(rt: HostRuntime) -> Result<(), Fail> {
    for pass in 0..CALLS {
        for image in IMAGES {
            stop_attach(&rt, rt.alloc(), (pass, image))?;
        }
    }
    Ok(())
}

#[test]
fn a_node_starts_from_format_1(rt: HostRuntime) -> Result<(), Fail> {
    let table = table_of_one(rt.alloc())?;
    for pass in 0..CALLS + 1 {
        let disk = disk_in_format_1(rt.alloc())?;
        let (mut disk, is_recovered) = attach_armed(rt.alloc(), &table, disk, (pass, 5));
        assert_eq!(rt; is_recovered, pass == CALLS, "{pass}");
        is_saved_anew(&rt, rt.alloc(), &mut disk)?;
    }
    Ok(())
}
