//! One of some replicas, with what is on its disk.
ghost use Rattle.std.specs.Prelude.{◌≡◌, ◌<◌, ◌≤◌, ◌^◌, [], None, IfOk, IfSome, OnOk, length};
ghost use Rattle.std.specs.Option.{option_to_list};
ghost use Rattle.paxos_base.specs.Rows.{RowsStand};
ghost use Rattle.launch_machine.specs.Clerk.{first_rows};
ghost use Rattle.agreement.specs.World.{fresh};
ghost use Rattle.history.specs.Book.{durable_after};
ghost use Rattle.replica_core.specs.Step.{IsInputInside, IsOfTable};
ghost use Rattle.world_tests.specs.Seat.{IsNew, IsStarted, StepsSeat};

use cluster_sched::SchedRow;
use due_set::JobTable;
use launch_machine::Machine;
use paxos_base::{Durable, VoteList, rows_stand};
use replica_core::{Input, LearntRow, Replica, StepOut};
use std::alloc::Global;
use std::marker::Model;
use std::process::Abort;
use std::test::*;

/// One of so many replicas.
#[derive(Drop)]
pub struct Seat {
    pub members: u8,
    /// The replica, while it runs.
    pub running: Option<Replica>,
    /// What is on its disk.
    pub durable: Durable,
    /// The scheduler's answer that waits for it.
    pub waits: Option<SchedRow>,
    /// The entries that it has learned since it started last.
    pub learned: Vec<LearntRow>,
}

impl Model for Seat {
    ghost use Rattle.world_tests.specs.Seat.{SeatState};

    ghost Value = { SeatState };

    ghost view = { λ seat. record { members = seat.members; running = seat.running; durable = seat.durable; waits = seat.waits } };
}

fn first_durable(alloc: Global, table: &JobTable) -> Result<Durable, Fail>
    ensures { IfOk result (λ durable. durable ≡ fresh (first_rows table.now)) }
{
    let rows = Machine::new(alloc, table)?.copy_rows(alloc)?;
    let votes = VoteList {
        items: Vec::new(alloc),
    };
    Ok(Durable {
        tried: 0,
        promised: None,
        votes,
        base: 0,
        rows,
    })
}

/// A replica that starts with what is on its disk.
pub fn start(
    rt: &impl Abort,
    table: &JobTable,
    who: u8,
    members: u8,
    durable: &Durable,
) -> Result<Replica, Fail>
    ensures { IfOk result (λ replica. IsStarted table.now who members durable.now replica) }
{
    assert!(rt; members <= 7);
    assert!(rt; who < members);
    assert!(rt; durable.tried < 1 << 61);
    assert!(rt; rows_stand(&durable.rows, table.jobs(), table.versions()));
    Ok(Replica::start(who, members, table, durable.clone()?)?)
}

/// A replica of so many that starts for the first time.
pub fn first_seat(
    rt: &impl Abort,
    alloc: Global,
    table: &JobTable,
    who: u8,
    members: u8,
) -> Result<Seat, Fail>
    ensures { IfOk result (λ seat. IsNew table.now who members seat) }
{
    let durable = first_durable(alloc, table)?;
    let replica = start(rt, table, who, members, &durable)?;
    Ok(Seat {
        members,
        running: Some(replica),
        durable,
        waits: None,
        learned: Vec::new(alloc),
    })
}

// Stores what a step changes on the disk.
fn store(durable: &mut Durable, out: &StepOut) -> Result<(), Fail>
    ensures { OnOk result (durable.new ≡ durable_after (option_to_list out.now.delta) durable.old) }
{
    match &out.delta {
        None => Ok(()),
        Some(delta) => Ok(durable.apply(delta.clone()?)?),
    }
}

/// A step of the replica, whose change is stored.
pub fn step_seat(
    rt: &impl Abort,
    table: &JobTable,
    seat: &mut Seat,
    input: Input<'_>,
) -> Result<StepOut, Fail>
    requires of_table { IfSome seat.old.running (λ replica. IsOfTable table.now replica) }
    requires inside { IsInputInside table.now input }
    ensures { IfOk result (λ out. StepsSeat table.now input.entry seat.old seat.new out) }
{
    let replica = seat.running.as_mut().ok_or("the replica is stopped")?;
    assert!(rt; replica.is_small());
    let out = replica
        .step(table, input)
        .ok()
        .ok_or("the step is refused")?;
    store(&mut seat.durable, &out)?;
    seat.learned.extend_from_slice(&out.learnt.items)?;
    Ok(out)
}
