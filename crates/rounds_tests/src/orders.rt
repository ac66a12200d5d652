//! A gate that holds a replica's thread until another has taken its turn brings about each order of two.
use crate::free::{run_part, steps_of};
use crate::gates::OrderGate;
use crate::hour::{LATER, empty_table};
use crate::worlds::first_world;
use history::{Cause, Turn};
use std::alloc::Global;
use std::process::Abort;
use std::sync::Wait;
use std::test::*;
use std::thread::Threads;

// A turn in which a replica makes no call.
fn turn_by(who: u8, cause: Cause) -> Turn {
    Turn::Did {
        who,
        cause,
        call: None,
    }
}

// Of two replicas that take three turns each, this one first, the first four turns.
fn first_turns<R: Threads + Wait + Sync>(
    rt: &R,
    alloc: Global,
    first: u8,
) -> Result<[Turn; 4], Fail> {
    let table = empty_table(alloc)?;
    let world = first_world(alloc, &table, 2)?;
    let gate = OrderGate::new(first, 2);
    let world = run_part(rt, alloc, world, &table, LATER, 3, &gate)?;
    let turns = world.book().turns();
    if gate.missed() > 0 || steps_of(turns, 0) != 3 || steps_of(turns, 1) != 3 {
        return Err(Fail::from("a wait in vain, or not three turns of each"));
    }
    match turns {
        [one, two, three, four, ..] => Ok([one.turn(), two.turn(), three.turn(), four.turn()]),
        _ => Err(Fail::from("too few turns")),
    }
}

// Replica 1 looks at its first turn's end: the letter of the campaign waits, and is heard in its second turn.
#[test]
fn replica_0_goes_first(rt: HostRuntime) -> Result<(), Fail> {
    let wanted = [
        turn_by(0, Cause::Campaign),
        turn_by(1, Cause::Tick { now: LATER }),
        turn_by(0, Cause::Tick { now: LATER }),
        turn_by(1, Cause::Hear { letter: 0 }),
    ];
    let turns = first_turns(&rt, rt.alloc(), 0)?;
    assert!(rt; turns == wanted, "{turns:?}");
    Ok(())
}

// Replica 1 looks before the campaign, which has no letter yet, so its second turn is a tick as well.
#[test]
fn replica_1_goes_first(rt: HostRuntime) -> Result<(), Fail> {
    let wanted = [
        turn_by(1, Cause::Tick { now: LATER }),
        turn_by(0, Cause::Campaign),
        turn_by(1, Cause::Tick { now: LATER }),
        turn_by(0, Cause::Tick { now: LATER }),
    ];
    let turns = first_turns(&rt, rt.alloc(), 1)?;
    assert!(rt; turns == wanted, "{turns:?}");
    Ok(())
}
