//! Lanes run at the same time: two replicas of a round wait for each other, and neither waits in vain.
ghost use Rattle.std.specs.Prelude.{◌≡◌, ◌≤◌, Contains, IfOk, length};
ghost use Rattle.world_rounds.specs.Start.{IsFreshDisk};
ghost use Rattle.world_rounds.specs.World.{IsWorld, book_of};
ghost use Rattle.rounds_tests.specs.Plays.{IsHour};
ghost use Rattle.rounds_tests.specs.declared.meeting.MeetingDisk.{MeetingDisk as Medium};

use crate::hour::{LATER, table_of_one};
use crate::lanes::is_same_book;
use crate::meeting::{Meeting, MeetingDisk};
use crate::worlds::{empty_disk, play_on, send_again, world_after};
use disk_model::{ArmedDisk, Disk, MemDisk};
use due_set::JobTable;
use script_text::Command;
use std::alloc::Global;
use std::process::Abort;
use std::sync::Arc;
use std::test::*;
use std::thread::Threads;
use world_rounds::World;

// A new disk of this number, which takes part in the meeting.
fn meeting_disk(alloc: Global, who: u8, meeting: &Arc<Meeting, Global>) -> Result<MeetingDisk, Fail>
    ensures { IfOk result (λ disk. IsFreshDisk ⟦<MeetingDisk as Disk>⟧.view disk) }
{
    let meeting = Arc::try_clone(meeting)?;
    Ok(MeetingDisk::new(empty_disk(alloc), who, meeting))
}

// So many of them.
fn meeting_disks(
    alloc: Global,
    count: u8,
    meeting: &Arc<Meeting, Global>,
) -> Result<Vec<MeetingDisk>, Fail>
    ensures count { IfOk result (λ disks. length disks.items ≡ count) }
    ensures fresh { IfOk result (λ disks. (disk : Medium) → Contains disks.items disk
        → IsFreshDisk ⟦<MeetingDisk as Disk>⟧.view disk) }
{
    let mut disks = Vec::new(alloc);
    'disks: for who in 0..count {
        disks.push(meeting_disk(alloc, who, meeting)?)?;
    }
    Ok(disks)
}

/// A world on so many of them, before any turn.
pub fn world_of_meeting_disks(
    alloc: Global,
    table: &JobTable,
    count: u8,
    meeting: &Arc<Meeting, Global>,
) -> Result<World<MeetingDisk>, Fail>
    requires few { count ≤ 7 }
    ensures world { IfOk result (IsWorld ⟦<MeetingDisk as Disk>⟧.view table.now) }
    ensures members { IfOk result (λ world. (book_of world).members ≡ count) }
{
    let disks = meeting_disks(alloc, count, meeting)?;
    match World::new(alloc, table, count, disks) {
        Ok(world) => Ok(world),
        Err(_) => Err(Fail::from("no world")),
    }
}

// Its two letters have joined their mails again, so that 512 letters wait.
fn send_again_both<R: Threads + Sync, D: ArmedDisk + Send>(
    rt: &R,
    world: World<D>,
    table: &JobTable,
) -> Result<World<D>, Fail>
    requires world { IsWorld D.view table.now world }
    ensures world { IfOk result (IsWorld D.view table.now) }
    ensures members { IfOk result (λ after. (book_of after).members ≡ (book_of world).members) }
{
    let world = send_again(rt, world, table, 0, 255)?;
    send_again(rt, world, table, 1, 255)
}

// A world on three of them, in which the last has stood for leader, with letters enough for lanes. From now on the others wait
// for each other.
fn meeting_world<R: Threads + Sync>(
    rt: &R,
    alloc: Global,
    table: &JobTable,
    meeting: &Arc<Meeting, Global>,
) -> Result<World<MeetingDisk>, Fail>
    ensures world { IfOk result (IsWorld ⟦<MeetingDisk as Disk>⟧.view table.now) }
    ensures members { IfOk result (λ world. (book_of world).members ≡ 3) }
{
    let world = world_of_meeting_disks(alloc, table, 3, meeting)?;
    let world = play_on(rt, world, table, &[Command::Campaign { member: 2 }], 3)?;
    let world = send_again_both(rt, world, table)?;
    meeting.open();
    Ok(world)
}

// A world on plain disks, with the same commands in one lane.
fn plain_world<R: Threads + Sync>(
    rt: &R,
    alloc: Global,
    table: &JobTable,
) -> Result<World<MemDisk>, Fail>
    requires { IsHour table.now.window }
{
    let world = world_after(rt, alloc, table, 3, &[Command::Campaign { member: 2 }], 1)?;
    let world = send_again_both(rt, world, table)?;
    let round = [Command::Round {
        at: LATER,
        rounds: 1,
    }];
    play_on(rt, world, table, &round, 1)
}

// Whether each wait ended since the other had come, and the book is that of the plain world.
fn all_met(meeting: &Meeting, world: &World<MeetingDisk>, plain: &World<MemDisk>) -> bool {
    let (met, missed) = meeting.counts();
    met > 0 && missed == 0 && is_same_book(world.book(), plain.book())
}

#[test]
fn replicas_meet_in_a_round(rt: HostRuntime) -> Result<(), Fail> {
    let table = table_of_one(rt.alloc())?;
    let meeting = Arc::new(rt.alloc(), Meeting::new())?;
    let mut world = meeting_world(&rt, rt.alloc(), &table, &meeting)?;
    let Ok(()) = world.round(&rt, &table, LATER, 1, 3) else {
        return Err(Fail::from("a fault"));
    };
    let plain = plain_world(&rt, rt.alloc(), &table)?;
    assert!(rt; all_met(&meeting, &world, &plain));
    Ok(())
}

#[test]
fn replicas_meet_in_a_command(rt: HostRuntime) -> Result<(), Fail> {
    let table = table_of_one(rt.alloc())?;
    let meeting = Arc::new(rt.alloc(), Meeting::new())?;
    let world = meeting_world(&rt, rt.alloc(), &table, &meeting)?;
    let commands = [Command::Round {
        at: LATER,
        rounds: 1,
    }];
    let world = play_on(&rt, world, &table, &commands, 3)?;
    let plain = plain_world(&rt, rt.alloc(), &table)?;
    assert!(rt; all_met(&meeting, &world, &plain));
    Ok(())
}
