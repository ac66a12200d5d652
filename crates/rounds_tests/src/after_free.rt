//! Three and seven replicas in threads of their own, and what their world does afterwards.
ghost use Rattle.std.specs.Prelude.{◌≡◌, ◌<◌, ◌≤◌};
ghost use Rattle.disk_model.specs.MemDisk.{left_by, seen_of, told_of};
ghost use Rattle.rounds_tests.specs.Plays.{IsHour};

use crate::free::{run_part, steps_of};
use crate::hour::{FROM, table_of_one};
use crate::worlds::{first_world, play_on, world_after};
use cluster_sched::{Name, SchedRow};
use disk_model::MemDisk;
use due_set::JobTable;
use history::{Cause, Turn};
use paxos_base::Kind;
use script_text::Command;
use std::alloc::Global;
use std::process::Abort;
use std::sync::Wait;
use std::test::*;
use std::thread::Threads;
use world_free::OpenGate;
use world_rounds::World;

// How many turns each replica has in a thread of its own.
const TURNS: u32 = 200;

// Whether each of so many replicas has had its turns, and there are no others.
fn has_all_turns(world: &World<MemDisk>, count: u8) -> bool {
    let turns = world.book().turns();
    for member in 0..count {
        if steps_of(turns, member) != TURNS as usize {
            return false;
        }
    }
    turns.len() == TURNS as usize * usize::from(count)
}

// Whether each of so many replicas has had more turns than those.
fn has_more_turns(world: &World<MemDisk>, count: u8) -> bool {
    let turns = world.book().turns();
    for member in 0..count {
        if steps_of(turns, member) <= TURNS as usize {
            return false;
        }
    }
    true
}

// Whether the launch that is due at the first minute is held, once, and nothing else.
fn is_launched(held: &[SchedRow]) -> bool {
    match *held {
        [row] => {
            let name = Name { job: 0, at: FROM.0 };
            row.name == name && row.kind == Kind::Launch && row.now == FROM
        }
        _ => false,
    }
}

// Whether so many replicas have had their turns in threads, and more turns by commands behind that, after which the launch that is due is
// held.
fn goes_on<R: Threads + Wait + Sync>(rt: &R, alloc: Global, count: u8) -> Result<bool, Fail>
    requires count { (0 < count) × (count ≤ 7) }
{
    let table = table_of_one(alloc)?;
    let world = first_world(alloc, &table, count)?;
    let world = run_part(rt, alloc, world, &table, FROM, TURNS, &OpenGate)?;
    let had = has_all_turns(&world, count);
    let commands = [
        Command::Round {
            at: FROM,
            rounds: 1,
        },
        Command::Settle { at: FROM },
    ];
    let world = play_on(rt, world, &table, &commands, 1)?;
    let more = has_more_turns(&world, count);
    Ok(had && more && is_launched(world.book().ledger().held()))
}

#[test]
fn three_replicas_go_on(rt: HostRuntime) -> Result<(), Fail> {
    let goes = goes_on(&rt, rt.alloc(), 3)?;
    assert!(rt; goes);
    Ok(())
}

#[test]
fn seven_replicas_go_on(rt: HostRuntime) -> Result<(), Fail> {
    let goes = goes_on(&rt, rt.alloc(), 7)?;
    assert!(rt; goes);
    Ok(())
}

// The disk of replica 0 stops as it stands for leader, in its first turn, which is its last one; the other has all of its turns.
#[test]
fn a_stop_is_the_last_turn(rt: HostRuntime) -> Result<(), Fail> {
    let commands = [Command::Break {
        member: 0,
        pass: 3,
        image: 1,
    }];
    let table = table_of_one(rt.alloc())?;
    let world = world_after(&rt, rt.alloc(), &table, 2, &commands, 1)?;
    let world = run_part(&rt, rt.alloc(), world, &table, FROM, TURNS, &OpenGate)?;
    let turns = world.book().turns();
    let stop = Turn::Stopped {
        who: 0,
        cause: Some(Cause::Campaign),
        kept: true,
    };
    assert!(rt; turns.iter().any(|row| row.turn() == stop));
    assert!(rt; steps_of(turns, 1) == TURNS as usize);
    assert!(rt; turns.len() == TURNS as usize + 1);
    Ok(())
}
