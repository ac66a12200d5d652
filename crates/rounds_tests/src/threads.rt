//! Threads of replicas run at the same time: two wait for each other, and neither waits in vain.
use crate::free::{run_part, steps_of};
use crate::gates::MeetingGate;
use crate::hour::{LATER, empty_table};
use crate::meeting::Meeting;
use crate::meets::world_of_meeting_disks;
use crate::worlds::first_world;
use std::process::Abort;
use std::sync::Arc;
use std::test::*;
use world_free::OpenGate;

// Each comes to the gate before its second turn, and waits there until the other has come.
#[test]
fn replicas_meet_at_a_gate(rt: HostRuntime) -> Result<(), Fail> {
    let table = empty_table(rt.alloc())?;
    let world = first_world(rt.alloc(), &table, 2)?;
    let gate = MeetingGate::new();
    let world = run_part(&rt, rt.alloc(), world, &table, LATER, 3, &gate)?;
    let turns = world.book().turns();
    assert!(rt; gate.counts() == (2, 0));
    assert!(rt; gate.each_came_once());
    assert!(rt; steps_of(turns, 0) == 3 && steps_of(turns, 1) == 3);
    assert!(rt; turns.len() == 6);
    Ok(())
}

// Replica 0 writes in its first turn, and waits in the sync; replica 1 writes in its ninth, where it stands for leader. So the book has the
// turns of replica 1 before that first, and then those of both.
#[test]
fn replicas_meet_in_a_sync(rt: HostRuntime) -> Result<(), Fail> {
    let table = empty_table(rt.alloc())?;
    let meeting = Arc::new(rt.alloc(), Meeting::once())?;
    let world = world_of_meeting_disks(rt.alloc(), &table, 2, &meeting)?;
    meeting.open();
    let world = run_part(&rt, rt.alloc(), world, &table, LATER, 9, &OpenGate)?;
    let turns = world.book().turns();
    assert!(rt; meeting.counts() == (2, 0));
    assert!(rt; steps_of(turns, 0) == 9 && steps_of(turns, 1) == 9);
    assert!(rt; turns.len() == 18);
    assert!(rt; steps_of(&turns[..8], 1) == 8);
    Ok(())
}
