//! Rounds of an hour without jobs.
ghost use Rattle.std.specs.Prelude.{◌≤◌};
ghost use Rattle.zone_minutes.specs.declared.minute.Window.{Window};
ghost use Rattle.rounds_tests.specs.Plays.{AreTaken, IsHour};

use crate::hour::{LATER, empty_table};
use crate::worlds::world_after;
use history::{Cause, Turn};
use script_text::{Command, FateWord};
use std::alloc::Global;
use std::process::Abort;
use std::test::*;
use std::thread::Threads;
use zone_minutes::Minute;

// The number of turns and of letters after some commands.
fn counts<R: Threads + Sync>(
    rt: &R,
    alloc: Global,
    count: u8,
    commands: &[Command],
) -> Result<(usize, usize), Fail>
    requires few { count ≤ 7 }
    requires taken { (window : Window) → IsHour window → AreTaken window count commands.now }
{
    let table = empty_table(alloc)?;
    let world = world_after(rt, alloc, &table, count, commands, 1)?;
    let book = world.book();
    Ok((book.turns().len(), book.letters().len()))
}

#[test]
fn one_replica_leads(rt: HostRuntime) -> Result<(), Fail> {
    let commands = [
        Command::Campaign { member: 0 },
        Command::Round {
            at: LATER,
            rounds: 2,
        },
    ];
    let found = counts(&rt, rt.alloc(), 1, &commands)?;
    assert!(rt; found == (3, 0), "{found:?}");
    Ok(())
}

// The campaign has two letters, which are heard in the first round, and each tick follows.
#[test]
fn three_replicas_hear_a_campaign(rt: HostRuntime) -> Result<(), Fail> {
    let commands = [
        Command::Campaign { member: 0 },
        Command::Round {
            at: LATER,
            rounds: 1,
        },
    ];
    let found = counts(&rt, rt.alloc(), 3, &commands)?;
    assert!(rt; found == (6, 4), "{found:?}");
    Ok(())
}

// The promises are heard in the second round, and then the replica leads, and its tick says so to both.
#[test]
fn a_candidate_hears_promises(rt: HostRuntime) -> Result<(), Fail> {
    let commands = [
        Command::Campaign { member: 0 },
        Command::Round {
            at: LATER,
            rounds: 2,
        },
    ];
    let found = counts(&rt, rt.alloc(), 3, &commands)?;
    assert!(rt; found == (11, 6), "{found:?}");
    Ok(())
}

// A letter that is cut is posted, and nobody hears it.
#[test]
fn a_cut_letter_is_not_heard(rt: HostRuntime) -> Result<(), Fail> {
    let commands = [
        Command::Cut { from: 0, to: 1 },
        Command::Campaign { member: 0 },
        Command::Heal,
        Command::Round {
            at: LATER,
            rounds: 1,
        },
    ];
    let found = counts(&rt, rt.alloc(), 3, &commands)?;
    assert!(rt; found == (5, 3), "{found:?}");
    Ok(())
}

// A clock that is ahead reads no later than the window's last minute.
#[test]
fn a_clock_stays_within_the_window(rt: HostRuntime) -> Result<(), Fail> {
    let commands = [
        Command::Skew {
            member: 1,
            minutes: 90,
        },
        Command::Fate {
            member: 1,
            fate: FateWord::Late,
        },
        Command::Round {
            at: LATER,
            rounds: 1,
        },
    ];
    let table = empty_table(rt.alloc())?;
    let world = world_after(&rt, rt.alloc(), &table, 2, &commands, 1)?;
    let turns = world.book().turns();
    let now = Minute(28_530_779);
    let wanted = Turn::Did {
        who: 1,
        cause: Cause::Tick { now },
        call: None,
    };
    assert!(rt; turns.len() == 2);
    assert!(rt; turns[1].turn() == wanted);
    Ok(())
}
