//! Worlds over disks in memory, and the commands that they take.
ghost use Rattle.std.specs.Prelude.{◌≡◌, ◌<◌, ◌≤◌, Contains, IfOk, OnOk, length};
ghost use Rattle.disk_model.specs.MemDisk.{view_of};
ghost use Rattle.disk_model.specs.declared.mem_disk.MemDisk.{MemDisk as Medium};
ghost use Rattle.world_rounds.specs.Commands.{IsTaken};
ghost use Rattle.world_rounds.specs.Start.{IsFreshDisk};
ghost use Rattle.world_rounds.specs.World.{IsWorld, book_of};
ghost use Rattle.rounds_tests.specs.Plays.{AreTaken};

use disk_model::{ArmedDisk, MemDisk};
use due_set::JobTable;
use script_text::Command;
use std::alloc::Global;
use std::test::*;
use std::thread::Threads;
use world_rounds::World;

/// A new disk in memory.
pub fn empty_disk(alloc: Global) -> MemDisk
    ensures { IsFreshDisk view_of result }
{
    let fails = Vec::new(alloc);
    MemDisk::new(alloc, fails)
}

fn disks(alloc: Global, count: u8) -> Result<Vec<MemDisk>, Fail>
    ensures count { IfOk result (λ disks. length disks.items ≡ count) }
    ensures fresh { IfOk result (λ disks. (disk : Medium) → Contains disks.items disk → IsFreshDisk view_of disk) }
{
    let mut disks = Vec::new(alloc);
    'disks: for _disk in 0..count {
        disks.push(empty_disk(alloc))?;
    }
    Ok(disks)
}

/// A world before any turn.
pub fn first_world(alloc: Global, table: &JobTable, count: u8) -> Result<World<MemDisk>, Fail>
    requires few { count ≤ 7 }
    ensures world { IfOk result (IsWorld view_of table.now) }
    ensures members { IfOk result (λ world. (book_of world).members ≡ count) }
{
    let disks = disks(alloc, count)?;
    match World::new(alloc, table, count, disks) {
        Ok(world) => Ok(world),
        Err(_) => Err(Fail::from("no world")),
    }
}

// A command is taken.
fn take<R: Threads + Sync, D: ArmedDisk + Send>(
    rt: &R,
    world: &mut World<D>,
    table: &JobTable,
    command: &Command,
    lanes: u8,
) -> Result<(), Fail>
    requires lanes { 0 < lanes }
    requires world { IsWorld D.view table.now world.old }
    requires taken { IsTaken table.now.window (book_of world.old).members command.now }
    ensures world { OnOk result (IsWorld D.view table.now world.new) }
    ensures members { OnOk result ((book_of world.new).members ≡ (book_of world.old).members) }
{
    match world.command(rt, table, command, lanes) {
        Ok(()) => Ok(()),
        Err(_) => Err(Fail::from("a fault")),
    }
}

/// The world after some more commands, with rounds in so many lanes.
pub fn play_on<R: Threads + Sync, D: ArmedDisk + Send>(
    rt: &R,
    mut world: World<D>,
    table: &JobTable,
    commands: &[Command],
    lanes: u8,
) -> Result<World<D>, Fail>
    requires lanes { 0 < lanes }
    requires world { IsWorld D.view table.now world }
    requires taken { AreTaken table.now.window (book_of world).members commands.now }
    ensures world { IfOk result (IsWorld D.view table.now) }
    ensures members { IfOk result (λ after. (book_of after).members ≡ (book_of world).members) }
{
    'commands: for command in commands {
        take(rt, &mut world, table, command, lanes)?;
    }
    Ok(world)
}

/// The world after a letter has joined its mail again so often.
pub fn send_again<R: Threads + Sync, D: ArmedDisk + Send>(
    rt: &R,
    mut world: World<D>,
    table: &JobTable,
    letter: u32,
    times: u32,
) -> Result<World<D>, Fail>
    requires world { IsWorld D.view table.now world }
    ensures world { IfOk result (IsWorld D.view table.now) }
    ensures members { IfOk result (λ after. (book_of after).members ≡ (book_of world).members) }
{
    'times: for _time in 0..times {
        take(rt, &mut world, table, &Command::Again { letter }, 1)?;
    }
    Ok(world)
}

/// A world of so many replicas, after some commands, with rounds in so many lanes.
pub fn world_after<R: Threads + Sync>(
    rt: &R,
    alloc: Global,
    table: &JobTable,
    count: u8,
    commands: &[Command],
    lanes: u8,
) -> Result<World<MemDisk>, Fail>
    requires lanes { 0 < lanes }
    requires few { count ≤ 7 }
    requires taken { AreTaken table.now.window count commands.now }
    ensures world { IfOk result (IsWorld view_of table.now) }
    ensures members { IfOk result (λ world. (book_of world).members ≡ count) }
{
    let world = first_world(alloc, table, count)?;
    play_on(rt, world, table, commands, lanes)
}
