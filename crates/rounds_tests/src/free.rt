//! A part of a world in which each replica takes its turns in a thread of its own.
ghost use Rattle.std.specs.Prelude.{◌≡◌, ◌<◌, IfOk};
ghost use Rattle.world_rounds.specs.World.{IsWorld, book_of};
ghost use Rattle.zone_minutes.specs.Window.{IsInWindow};

use disk_model::ArmedDisk;
use due_set::JobTable;
use history::Turn;
use std::alloc::Global;
use std::sync::Wait;
use std::test::*;
use std::thread::Threads;
use world_free::{TurnGate, run_free};
use world_law::TurnRow;
use world_rounds::World;
use zone_minutes::Minute;

/// The world after each of its replicas that run has taken so many turns at an instant, in a thread of its own.
pub fn run_part<R: Threads + Wait + Sync, D: ArmedDisk + Send, G: TurnGate + Sync>(
    rt: &R,
    alloc: Global,
    world: World<D>,
    table: &JobTable,
    at: Minute,
    turns: u32,
    gate: &G,
) -> Result<World<D>, Fail>
    requires inside { IsInWindow table.now.window at.0 }
    requires world { IsWorld D.view table.now world }
    requires some { 0 < (book_of world).members }
    ensures world { IfOk result (IsWorld D.view table.now) }
    ensures members { IfOk result (λ after. (book_of after).members ≡ (book_of world).members) }
{
    let parts = world.take_parts();
    match run_free(rt, alloc, table, parts, at, turns, gate) {
        Ok(parts) => Ok(World::from_parts(parts)),
        Err(_) => Err(Fail::from("out of memory")),
    }
}

// Whether the turn is a step of this replica.
fn is_step_of(row: &TurnRow, member: u8) -> bool {
    match row.turn() {
        Turn::Did { who, .. } => who == member,
        _ => false,
    }
}

/// How many of the turns are steps of this replica.
pub fn steps_of(turns: &[TurnRow], member: u8) -> usize {
    turns.iter().filter(|row| is_step_of(row, member)).count()
}
