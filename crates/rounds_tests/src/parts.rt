//! A world that is taken apart and put together again in the midst of its commands plays on as one that isn't.
ghost use Rattle.std.specs.Prelude.{◌≡◌};
ghost use Rattle.disk_model.specs.MemDisk.{view_of};
ghost use Rattle.due_set.specs.Table.{Table};
ghost use Rattle.world_rounds.specs.World.{IsWorld, book_of};
ghost use Rattle.rounds_tests.specs.Plays.{AreTaken};

use crate::hour::{LATER, table_of_one};
use crate::lanes::is_same_book;
use crate::worlds::{play_on, world_after};
use cluster_sched::Fate;
use disk_model::MemDisk;
use due_set::JobTable;
use history::Turn;
use script_text::{Command, FateWord};
use std::alloc::Global;
use std::process::Abort;
use std::test::*;
use std::thread::Threads;
use world_law::{Book, TurnRow};
use world_rounds::World;

// Takes a world apart, and puts it together again.
fn put_together(world: World<MemDisk>) -> World<MemDisk>
    requires { (table : Table) × IsWorld view_of table world }
    ensures world { (table : Table) → IsWorld view_of table world → IsWorld view_of table result }
    ensures book { book_of result ≡ book_of world }
{
    World::from_parts(world.take_parts())
}

// Whether three replicas that are in parts behind so many of the commands have this book after all of them.
fn is_book_from_parts<R: Threads + Sync>(
    rt: &R,
    alloc: Global,
    table: &JobTable,
    commands: &[Command],
    place: usize,
    book: &Book,
) -> Result<bool, Fail>
    requires taken { AreTaken table.now.window 3 commands.now }
{
    let Some((first, then)) = commands.split_at_checked(place) else {
        return Err(Fail::from("too few commands"));
    };
    let world = world_after(rt, alloc, table, 3, first, 1)?;
    let world = play_on(rt, put_together(world), table, then, 1)?;
    Ok(is_same_book(world.book(), book))
}

// Behind how many of the commands three replicas that are in parts have another book than this after all of them.
fn other_place<R: Threads + Sync>(
    rt: &R,
    alloc: Global,
    table: &JobTable,
    commands: &[Command],
    book: &Book,
) -> Result<Option<usize>, Fail>
    requires taken { AreTaken table.now.window 3 commands.now }
{
    for place in 0..=commands.len() {
        if !is_book_from_parts(rt, alloc, table, commands, place, book)? {
            return Ok(Some(place));
        }
    }
    Ok(None)
}

// Whether the turn's call is late.
fn is_late(row: &TurnRow) -> bool {
    match row.turn() {
        Turn::Did {
            call: Some(call),
            ..
        } => call.fate == Fate::Late,
        _ => false,
    }
}

// Whether a disk stopped in the turn.
fn is_stop_within_a_step(row: &TurnRow) -> bool {
    matches!(row.turn(), Turn::Stopped { cause: Some(_), .. })
}

// What a world is asked to do before and after it is taken apart.
const COMMANDS: &[Command] = &[
    Command::Break {
        member: 1,
        pass: 6,
        image: 1,
    },
    Command::Campaign { member: 0 },
    Command::Round {
        at: LATER,
        rounds: 2,
    },
    Command::Round {
        at: LATER,
        rounds: 1,
    },
    Command::Restart { member: 1 },
    Command::Fate {
        member: 0,
        fate: FateWord::Late,
    },
    Command::Skew {
        member: 0,
        minutes: 3,
    },
    Command::Round {
        at: LATER,
        rounds: 1,
    },
    Command::Round {
        at: LATER,
        rounds: 1,
    },
    Command::Cut { from: 0, to: 1 },
    Command::Stop { member: 2 },
    Command::Arrive { late: 0 },
    Command::Round {
        at: LATER,
        rounds: 2,
    },
    Command::Restart { member: 2 },
    Command::Heal,
    Command::Walk { to: LATER },
];

// A disk is armed, and stops within a later command. A fate is set, and spent by a call, which arrives later. Letters and an answer
// wait, letters are lost, a clock is ahead, and a replica is stopped.
#[test]
fn a_world_plays_on_from_its_parts(rt: HostRuntime) -> Result<(), Fail> {
    let table = table_of_one(rt.alloc())?;
    let whole = world_after(&rt, rt.alloc(), &table, 3, COMMANDS, 1)?;
    assert!(rt; whole.book().turns().iter().any(is_late));
    assert!(rt; whole.book().turns().iter().any(is_stop_within_a_step));
    let place = other_place(&rt, rt.alloc(), &table, COMMANDS, whole.book())?;
    assert!(rt; place.is_none(), "{place:?}");
    Ok(())
}
