ghost use Rattle.std.specs.Prelude.{◌<◌, ◌≤◌, ◌^◌, IsTrue, IfOk, OnOk, length};
ghost use Rattle.launch_machine.specs.Clerk.{table_size};
ghost use Rattle.paxos_base.specs.Rows.{RowsStand};
ghost use Rattle.replica_core.specs.Replica.{IsSmall};
ghost use Rattle.replica_core.specs.Step.{IsSameReplica, IsInputInside, Steps};

use crate::fault::{PlayFault, Refusal};
use crate::text::Text;
use due_set::JobTable;
use paxos_base::{Durable, rows_stand};
use replica_core::{Input, Replica, StepOut};
use std::marker::Model;
use term_core::Term;

/// A replica that runs, and the table of jobs that it is one of.
#[derive(Drop)]
pub struct Running<'a> {
    table: &'a JobTable,
    replica: Replica,
}

impl<'a> Model for Running<'a> {
    ghost use Rattle.due_set.specs.Table.{Table};
    ghost use Rattle.replica_core.specs.Replica.{ReplicaState};
    ghost use Rattle.replica_core.specs.Step.{IsOfTable};

    ghost Value = { Table × ReplicaState };

    ghost view = { λ running. (running.table.now, running.replica) };

    ghost invariant = { λ running. IsOfTable running.table.now running.replica };
}

// Whether a replica starts so: it is one of the members, and its disk is one of the table's.
fn may_start(me: u8, members: u8, table: &JobTable, durable: &Durable) -> bool
    ensures me { IsTrue result → me < members }
    ensures few { IsTrue result → members ≤ 7 }
    ensures rows { IsTrue result → RowsStand durable.now.rows (table_size table.now) }
    ensures tried { IsTrue result → durable.now.tried < 2 ^ 61 }
{
    members <= 7
        && me < members
        && durable.tried < 1 << 61
        && rows_stand(&durable.rows, table.jobs(), table.versions())
}

// Whether a tick is at a minute of the table's window.
fn is_inside(table: &JobTable, input: &Input<'_>) -> bool
    ensures { IsTrue result → IsInputInside table.now input.now }
{
    match input {
        Input::Tick { now } => table.window().contains(*now),
        Input::Campaign | Input::Hear { .. } | Input::Answer { .. } => true,
    }
}

impl<'a> Running<'a> {
    /// A replica that starts with what is on its disk.
    pub fn start(
        me: u8,
        members: u8,
        table: &'a JobTable,
        durable: Durable,
    ) -> Result<Running<'a>, PlayFault> {
        if !may_start(me, members, table, &durable) {
            return Err(PlayFault::BadStart);
        }
        let replica = Replica::start(me, members, table, durable)?;
        Ok(Running { table, replica })
    }

    /// An equal one.
    pub fn copy(&self) -> Result<Running<'a>, PlayFault>
        ensures { IfOk result (λ copy. IsSameReplica copy.1 self.now.1) }
    {
        let replica = self.replica.copy()?;
        Ok(Running {
            table: self.table,
            replica,
        })
    }

    /// Its term as a proposer.
    pub fn term(&self) -> &Term {
        self.replica.term()
    }

    // Tests that the replica may be told this: it is small, and a tick is at a minute of the table's window.
    fn test(&self, input: &Input<'_>) -> Result<(), PlayFault>
        ensures inside { OnOk result (IsInputInside self.now.0 input.now) }
        ensures small { OnOk result (IsSmall self.now.1.state self.now.1.machine.rows) }
    {
        if !is_inside(self.table, input) {
            return Err(PlayFault::OutsideHour);
        }
        if self.replica.is_small() {
            Ok(())
        } else {
            Err(PlayFault::BeyondBounds)
        }
    }

    /// A step of the replica.
    pub fn step(&mut self, input: Input<'_>) -> Result<StepOut, Refusal>
        ensures { IfOk result (λ out. Steps self.old.0 input.entry self.old.1 self.new.1 out) }
    {
        self.test(&input)?;
        Ok(self.replica.step(self.table, input)?)
    }

    /// Plans a step, and doesn't take it. What it would change on the disk is written.
    pub fn plan(&mut self, input: Input<'_>, text: &mut Text) -> Result<(), Refusal> {
        self.test(&input)?;
        let mut planned = self.replica.begin();
        self.replica.plan(self.table, input, &mut planned)?;
        text.put_plan(planned.delta())?;
        Ok(())
    }

    /// Plans a step, and then takes it. What it changes on the disk is written once it is planned.
    pub fn complete(&mut self, input: Input<'_>, text: &mut Text) -> Result<StepOut, Refusal> {
        self.test(&input)?;
        let mut planned = self.replica.begin();
        self.replica.plan(self.table, input, &mut planned)?;
        text.put_plan(planned.delta())?;
        Ok(self.replica.complete(self.table, planned))
    }
}
