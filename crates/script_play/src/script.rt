//! Commands, one after another.
ghost use Rattle.std.specs.Prelude.{◌≡◌, ◌<◌, ◌≤◌, ◌^◌, [], IfOk, OnOk, All, is_some, length};
ghost use Rattle.script_text.specs.declared.command.Command.TheVariants.{Free};
ghost use Rattle.script_play.specs.Play.{HasRun, HasStarts, IsPlayable};
ghost use Rattle.script_play.specs.Watch.{GoesOnWatched, HasPlayedWatched, IsWatched, IsWatchedOn, MayWatch, MayWatchOn, PlaysWatched, WatchesOn};
ghost use Rattle.world_rounds.specs.World.{IsWorld, book_of};
ghost use Rattle.zone_minutes.specs.Window.{IsInWindow};

use crate::seen::Seen;
use crate::start::empty_world;
use crate::watch::{Watch, end_on, see};
use cron_io::OutOfMemory;
use disk_model::{ArmedDisk, MemDisk};
use due_set::JobTable;
use script_text::Command;
use std::alloc::Global;
use std::sync::Wait;
use std::thread::Threads;
use world_free::{TurnGate, run_free, run_free_shown};
use world_rounds::World;
use zone_minutes::Minute;

// Each replica that runs takes so many turns by itself, and what the first one learns is shown. A reader looks at it then. Where
// memory is wanting, the board is ended.
fn play_shown<D: ArmedDisk + Send, R: Threads + Wait + Sync, G: TurnGate + Sync>(
    rt: &R,
    alloc: Global,
    world: World<D>,
    table: &JobTable,
    at: Minute,
    turns: u32,
    gate: &G,
    place: usize,
    watch: Watch,
) -> Result<(World<D>, Watch), OutOfMemory>
    requires world { IsWorld D.view table.now world }
    requires some { 0 < (book_of world).members }
    requires inside { IsInWindow table.now.window at.0 }
    requires ready { MayWatch table.now watch }
    requires place { place < 2 ^ 63 }
    ensures goes { IfOk result (λ new. GoesOnWatched D.view table.now (Free at turns) place world new.0 (Some watch) (Some new.1)) }
    ensures ready { IfOk result (λ new. MayWatch table.now new.1) }
    ensures members { IfOk result (λ new. (book_of new.0).members ≡ (book_of world).members) }
{
    let Watch {
        writer,
        reader,
        seen,
    } = watch;
    let parts = world.take_parts();
    let (parts, writer) = run_free_shown(rt, alloc, table, parts, at, turns, gate, writer)?;
    let shown = Watch {
        writer,
        reader,
        seen,
    };
    let watch = see(rt, table, place, shown)?;
    Ok((World::from_parts(parts), watch))
}

// Each replica that runs takes so many turns by itself, with a watch where there is one.
fn play_free<D: ArmedDisk + Send, R: Threads + Wait + Sync, G: TurnGate + Sync>(
    rt: &R,
    alloc: Global,
    world: World<D>,
    table: &JobTable,
    at: Minute,
    turns: u32,
    gate: &G,
    place: usize,
    watch: &mut Option<Watch>,
) -> Result<World<D>, OutOfMemory>
    requires world { IsWorld D.view table.now world }
    requires some { 0 < (book_of world).members }
    requires inside { IsInWindow table.now.window at.0 }
    requires ready { MayWatchOn table.now watch.old }
    requires place { place < 2 ^ 63 }
    ensures goes { IfOk result (λ new. GoesOnWatched D.view table.now (Free at turns) place world new watch.old watch.new) }
    ensures ready { OnOk result (MayWatchOn table.now watch.new) }
    ensures stays { OnOk result (is_some watch.new ≡ is_some watch.old) }
    ensures members { IfOk result (λ new. (book_of new).members ≡ (book_of world).members) }
{
    let Some(old) = watch.take() else {
        let parts = run_free(rt, alloc, table, world.take_parts(), at, turns, gate)?;
        return Ok(World::from_parts(parts));
    };
    let (world, new) = play_shown(rt, alloc, world, table, at, turns, gate, place, old)?;
    let none = watch.replace(new);
    let None = none else { unreachable!() };
    Ok(world)
}

// Does what the command of a place says, rounds in so many lanes, with a watch where there is one.
fn play_command<D: ArmedDisk + Send, R: Threads + Wait + Sync, G: TurnGate + Sync>(
    rt: &R,
    alloc: Global,
    mut world: World<D>,
    table: &JobTable,
    command: &Command,
    lanes: u8,
    gate: &G,
    place: usize,
    watch: &mut Option<Watch>,
) -> Result<World<D>, OutOfMemory>
    requires lanes { 0 < lanes }
    requires world { IsWorld D.view table.now world }
    requires taken { IsPlayable table.now.window (book_of world).members command.now }
    requires ready { MayWatchOn table.now watch.old }
    requires place { place < 2 ^ 63 }
    ensures goes { IfOk result (λ new. GoesOnWatched D.view table.now command.now place world new watch.old watch.new) }
    ensures ready { OnOk result (MayWatchOn table.now watch.new) }
    ensures stays { OnOk result (is_some watch.new ≡ is_some watch.old) }
    ensures members { IfOk result (λ new. (book_of new).members ≡ (book_of world).members) }
{
    match *command {
        Command::Free { at, turns } => {
            play_free(rt, alloc, world, table, at, turns, gate, place, watch)
        }
        _ => {
            world.command(rt, table, command, lanes)?;
            Ok(world)
        }
    }
}

/// Plays the commands in a world, rounds in so many lanes: the turns that they add are those of their parts, one after
/// another. The threads of free turns pass the gate: it may wait. It tells the numbers of turns at which the parts begin.
/// A watch, where there is one, looks at the board after each command `free`.
///
/// # Errors
///
/// Want of memory, and more turns than a book takes in one command; the world is gone then, and there may be no watch any more.
pub fn play<D: ArmedDisk + Send, R: Threads + Wait + Sync, G: TurnGate + Sync>(
    rt: &R,
    alloc: Global,
    mut world: World<D>,
    table: &JobTable,
    commands: &[Command],
    lanes: u8,
    gate: &G,
    watch: &mut Option<Watch>,
) -> Result<(World<D>, Vec<u64>), OutOfMemory>
    requires lanes { 0 < lanes }
    requires world { IsWorld D.view table.now world }
    requires taken { All (IsPlayable table.now.window (book_of world).members) commands.now }
    requires ready { MayWatchOn table.now watch.old }
    ensures goes { IfOk result (λ played. PlaysWatched D.view table.now commands.now played.1.items world played.0 watch.old watch.new) }
    ensures stays { OnOk result (is_some watch.new ≡ is_some watch.old) }
    ensures members { IfOk result (λ played. (book_of played.0).members ≡ (book_of world).members) }
{
    // One more is that of a walk behind them.
    let mut starts = Vec::with_capacity(alloc, commands.len() + 1)?;
    'commands: for command in commands {
        let place = starts.as_slice().len();
        starts.push(world.book().turns().len() as u64)?;
        world = play_command(rt, alloc, world, table, command, lanes, gate, place, watch)?;
    }
    Ok((world, starts))
}

// Plays a script in a world of so many replicas that begins with it, and with it a watch, where there is one.
fn play_script<R: Threads + Wait + Sync, G: TurnGate + Sync>(
    rt: &R,
    alloc: Global,
    table: &JobTable,
    members: u8,
    script: &[Command],
    lanes: u8,
    gate: &G,
    watch: &mut Option<Watch>,
) -> Result<(World<MemDisk>, Vec<u64>), OutOfMemory>
    requires lanes { 0 < lanes }
    requires few { members ≤ 7 }
    requires taken { All (IsPlayable table.now.window members) script.now }
    requires ready { MayWatchOn table.now watch.old }
    ensures played { IfOk result (λ played. HasPlayedWatched table.now members script.now played.1.items played.0 watch.old watch.new) }
    ensures stays { OnOk result (is_some watch.new ≡ is_some watch.old) }
{
    let world = empty_world(alloc, table, members)?;
    let played = play(rt, alloc, world, table, script, lanes, gate, watch)?;
    Ok(played)
}

// Plays a run, and with it a watch, where there is one.
fn play_on<R: Threads + Wait + Sync, G: TurnGate + Sync>(
    rt: &R,
    alloc: Global,
    table: &JobTable,
    members: u8,
    script: &[Command],
    lanes: u8,
    gate: &G,
    watch: &mut Option<Watch>,
) -> Result<(World<MemDisk>, Vec<u64>), OutOfMemory>
    requires lanes { 0 < lanes }
    requires some { 0 < members }
    requires few { members ≤ 7 }
    requires taken { All (IsPlayable table.now.window members) script.now }
    requires ready { MayWatchOn table.now watch.old }
    ensures run { IfOk result (λ run. HasRun table.now members script.now run.0) }
    ensures starts { IfOk result (λ run. HasStarts table.now script.now (book_of run.0) run.1.items) }
    ensures seen { IfOk result (λ run. WatchesOn members table.now [] [] [] watch.old
        → IsWatchedOn table.now script.now (book_of run.0) run.1.items watch.new) }
    ensures stays { OnOk result (is_some watch.new ≡ is_some watch.old) }
{
    let (mut world, mut starts) = play_script(
        rt, alloc, table, members, script, lanes, gate, watch,
    )?;
    starts.push(world.book().turns().len() as u64)?;
    let window = table.window();
    world.walk(table, Minute(window.until.0 - 1))?;
    Ok((world, starts))
}

/// Plays a run in a world of so many replicas that begins with it: the script, rounds in so many lanes and free turns with this
/// gate, and then a walk to the window's last minute. It may wait. It tells the numbers of turns at which the parts of its commands begin, and last that
/// at which the walk begins.
///
/// # Errors
///
/// Want of memory.
pub fn play_run<R: Threads + Wait + Sync, G: TurnGate + Sync>(
    rt: &R,
    alloc: Global,
    table: &JobTable,
    members: u8,
    script: &[Command],
    lanes: u8,
    gate: &G,
) -> Result<(World<MemDisk>, Vec<u64>), OutOfMemory>
    requires lanes { 0 < lanes }
    requires some { 0 < members }
    requires few { members ≤ 7 }
    requires taken { All (IsPlayable table.now.window members) script.now }
    ensures run { IfOk result (λ run. HasRun table.now members script.now run.0) }
    ensures starts { IfOk result (λ run. HasStarts table.now script.now (book_of run.0) run.1.items) }
{
    let mut none = None;
    let run = play_on(rt, alloc, table, members, script, lanes, gate, &mut none);
    end_on(rt, alloc, none);
    run
}

/// The same, and what the first replica learns in free turns is shown on a board; a reader looks at it after each command `free`. It may
/// wait for the reader too. It tells what that saw.
///
/// # Errors
///
/// Want of memory.
pub fn play_run_watched<R: Threads + Wait + Sync, G: TurnGate + Sync>(
    rt: &R,
    alloc: Global,
    table: &JobTable,
    members: u8,
    script: &[Command],
    lanes: u8,
    gate: &G,
) -> Result<(World<MemDisk>, Vec<u64>, Vec<Seen>), OutOfMemory>
    requires lanes { 0 < lanes }
    requires some { 0 < members }
    requires few { members ≤ 7 }
    requires taken { All (IsPlayable table.now.window members) script.now }
    ensures run { IfOk result (λ run. HasRun table.now members script.now run.0) }
    ensures starts { IfOk result (λ run. HasStarts table.now script.now (book_of run.0) run.1.items) }
    ensures seen { IfOk result (λ run. IsWatched table.now script.now (book_of run.0) run.1.items run.2.items) }
{
    let mut watch = Some(Watch::start(rt, alloc, table)?);
    let run = play_on(rt, alloc, table, members, script, lanes, gate, &mut watch);
    let seen = end_on(rt, alloc, watch);
    let (world, starts) = run?;
    Ok((world, starts, seen))
}
