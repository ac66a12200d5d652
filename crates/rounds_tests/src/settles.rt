//! Settling: all are level, and what was due is launched.
use crate::hour::{FROM, table_of_one};
use crate::worlds::world_after;
use cluster_sched::{Name, SchedRow};
use history::Turn;
use paxos_base::Kind;
use script_text::Command;
use std::process::Abort;
use std::test::*;

// Of three replicas one is stopped. It starts again, and the launch that is due is held once, by the replica of the lowest number.
#[test]
fn a_stopped_replica_starts_again(rt: HostRuntime) -> Result<(), Fail> {
    let commands = [Command::Stop { member: 2 }, Command::Settle { at: FROM }];
    let table = table_of_one(rt.alloc())?;
    let world = world_after(&rt, rt.alloc(), &table, 3, &commands, 1)?;
    let book = world.book();
    let launch = SchedRow {
        name: Name { job: 0, at: FROM.0 },
        kind: Kind::Launch,
        now: FROM,
        by: 0,
    };
    let turns = book.turns();
    assert!(rt; turns.len() > 1);
    assert!(rt; turns[1].turn() == Turn::Restarted { who: 2 });
    let held = book.ledger().held();
    assert!(rt; held == [launch].as_slice(), "{held:?}");
    Ok(())
}
