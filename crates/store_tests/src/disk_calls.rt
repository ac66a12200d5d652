//! What the calls of a disk in memory answer, one after another.
use crate::disk_play::Call::{Cut, Length, Read, Sync, Write};
use crate::disk_play::{Call, make_call, text_of};
use Act::{Arm, Disarm, Do, Revive, Show};
use disk_model::FileNo::{AreaA, AreaB, Chooser};
use disk_model::{ArmedDisk, DiskFault, MemDisk};
use std::alloc::Global;
use std::process::Abort;
use std::test::Fail;
use std::thread;

#[derive(Clone, Copy, Debug)]
enum Act {
    Do(Call),
    Arm(u32, u32),
    Disarm,
    Revive,
    /// Tells the bytes of the files.
    Show,
}

// What is done, and what is told.
#[derive(Debug)]
struct Step(Act, &'static str);

fn answer_of(answer: Result<(), DiskFault>) -> &'static str {
    match answer {
        Ok(()) => "ok",
        Err(DiskFault::Stopped) => "stopped",
        Err(DiskFault::Failed) => "failed",
        Err(DiskFault::OutOfMemory) => "no memory",
    }
}

fn play(alloc: Global, disk: &mut MemDisk, act: Act) -> Result<Vec<u8>, Fail> {
    let mut told = "";
    match act {
        Do(what) => told = answer_of(make_call(disk, what)),
        Arm(pass, image) => disk.arm(pass, image),
        Disarm => disk.disarm(),
        Revive => disk.revive(),
        Show => return text_of(alloc, disk),
    }
    Ok(Vec::from_slice(alloc, told.as_bytes())?)
}

// On three empty files, where the calls of these numbers fail.
fn play_all(rt: &impl Abort, alloc: Global, fails: &[u64], steps: &[Step]) -> Result<(), Fail> {
    let mut disk = MemDisk::new(alloc, Vec::from_slice(alloc, fails)?);
    for step in steps {
        let told = play(alloc, &mut disk, step.0)?;
        assert_eq!(rt; told.as_slice(), step.1.as_bytes(), "{step:?}");
    }
    Ok(())
}

const WRITTEN: &[Step] = &[
    Step(Do(Write(AreaA, 0, "abcd")), "ok"),
    Step(Do(Write(AreaA, 4, "ef")), "ok"),
    Step(Show, "/abcdef//"),
    Step(Do(Write(AreaA, 5, "GHI")), "ok"),
    Step(Do(Write(AreaA, 2, "XYZ")), "ok"),
    Step(Show, "/abXYZGHI//"),
    Step(Do(Write(AreaA, 3, "")), "ok"),
    Step(Do(Cut(AreaA, 8)), "ok"),
    Step(Show, "/abXYZGHI//"),
    Step(Do(Cut(AreaA, 4)), "ok"),
    Step(Do(Write(AreaA, 4, "z")), "ok"),
    Step(Do(Sync(AreaA)), "ok"),
    Step(Do(Write(AreaB, 0, "pq")), "ok"),
    Step(Do(Write(Chooser, 0, "c")), "ok"),
    Step(Show, "c/abXYz/pq/"),
    Step(Do(Cut(AreaA, 0)), "ok"),
    Step(Show, "c//pq/"),
];

#[test]
fn a_read_gives_what_was_written_and_not_cut(rt: HostRuntime) -> Result<(), Fail> {
    play_all(&rt, rt.alloc(), &[], WRITTEN)
}

// Calls 0, 2 and 5 are listed. The one that stops the disk comes last, and shows that what failed touched no byte.
const LISTED: &[Step] = &[
    Step(Do(Write(AreaA, 0, "abc")), "failed"),
    Step(Do(Write(AreaA, 0, "de")), "ok"),
    Step(Do(Cut(AreaA, 0)), "failed"),
    Step(Do(Sync(AreaA)), "ok"),
    Step(Do(Read(AreaA)), "ok"),
    Step(Do(Write(AreaA, 0, "x")), "failed"),
    Step(Do(Length(AreaA)), "ok"),
    Step(Show, "/de//"),
    Step(Arm(0, 2), ""),
    Step(Do(Sync(AreaA)), "stopped"),
    Step(Revive, ""),
    Step(Show, "/de//"),
];

#[test]
fn listed_calls_fail_and_change_nothing(rt: HostRuntime) -> Result<(), Fail> {
    play_all(&rt, rt.alloc(), &[0, 2, 5], LISTED)
}

// Calls 1 to 3 are listed, and are not among those that pass before the stop, which leaves what was synced.
const FAILED: &[Step] = &[
    Step(Arm(1, 0), ""),
    Step(Do(Write(AreaA, 0, "ab")), "ok"),
    Step(Do(Sync(AreaA)), "failed"),
    Step(Do(Length(AreaA)), "failed"),
    Step(Do(Read(AreaA)), "failed"),
    Step(Do(Cut(AreaA, 0)), "stopped"),
    Step(Revive, ""),
    Step(Show, "///"),
];

#[test]
fn failed_calls_are_not_among_those_that_pass(rt: HostRuntime) -> Result<(), Fail> {
    play_all(&rt, rt.alloc(), &[1, 2, 3], FAILED)
}

// Calls 1 and 6 are listed. Call 1 is stopped all the same, and 6 is the first after the revival.
const STOPPED: &[Step] = &[
    Step(Arm(0, 1), ""),
    Step(Do(Write(AreaA, 0, "ab")), "stopped"),
    Step(Do(Length(AreaA)), "stopped"),
    Step(Do(Read(AreaA)), "stopped"),
    Step(Do(Write(AreaA, 0, "!")), "stopped"),
    Step(Do(Cut(AreaA, 0)), "stopped"),
    Step(Do(Sync(AreaA)), "stopped"),
    Step(Revive, ""),
    Step(Do(Write(AreaA, 0, "X")), "failed"),
    Step(Do(Write(AreaA, 0, "Y")), "ok"),
    Step(Show, "/Yb//"),
];

#[test]
fn calls_of_a_stopped_disk_count(rt: HostRuntime) -> Result<(), Fail> {
    play_all(&rt, rt.alloc(), &[1, 6], STOPPED)
}

// Each arming takes the place of the one before. A revival that comes before the stop must not sync, and an arming that
// comes after it changes nothing.
const ARMED: &[Step] = &[
    Step(Arm(1, 0), ""),
    Step(Do(Write(AreaA, 0, "ab")), "ok"),
    Step(Disarm, ""),
    Step(Do(Cut(AreaA, 1)), "ok"),
    Step(Arm(0, 1), ""),
    Step(Arm(1, 0), ""),
    Step(Revive, ""),
    Step(Do(Write(AreaA, 1, "c")), "ok"),
    Step(Do(Sync(AreaA)), "stopped"),
    Step(Arm(9, 1), ""),
    Step(Do(Length(AreaA)), "stopped"),
    Step(Disarm, ""),
    Step(Do(Length(AreaA)), "stopped"),
    Step(Revive, ""),
    Step(Show, "///"),
    // It can stop again.
    Step(Arm(1, 137), ""),
    Step(Do(Write(AreaA, 0, "de")), "ok"),
    Step(Do(Write(AreaB, 0, "f")), "stopped"),
    Step(Revive, ""),
    Step(Show, "/--/-/"),
    Step(Arm(0, 0), ""),
    Step(Do(Cut(AreaA, 0)), "stopped"),
    Step(Revive, ""),
    Step(Show, "/--/-/"),
];

#[test]
fn a_disk_is_armed_disarmed_and_revived(rt: HostRuntime) -> Result<(), Fail> {
    play_all(&rt, rt.alloc(), &[], ARMED)
}

#[test]
fn a_disk_can_go_to_another_thread(rt: HostRuntime) -> Result<(), Fail> {
    let mut one = MemDisk::new(rt.alloc(), Vec::new(rt.alloc()));
    let mut other = MemDisk::new(rt.alloc(), Vec::new(rt.alloc()));
    let answers = thread::join(
        &rt,
        || make_call(&mut one, Write(AreaA, 0, "a")),
        || make_call(&mut other, Write(AreaB, 0, "b")),
    );
    assert_eq!(rt; answers, (Ok(()), Ok(())));
    let text = text_of(rt.alloc(), &mut other)?;
    assert_eq!(rt; text.as_slice(), b"//b/".as_slice());
    Ok(())
}
