//! A replica in its place: with the table of jobs that it is one of.
ghost use Rattle.std.specs.Prelude.{◌↔◌, IsTrue};
ghost use Rattle.replica_core.specs.Step.{IsInputInside};

use crate::fault::BenchFault;
use due_set::JobTable;
use launch_machine::{Intent, Machine};
use paxos_base::{Durable, VoteList};
use replica_core::{Input, Replica, StepOut};
use std::alloc::Global;
use std::marker::Model;
use zone_minutes::Minute;

/// How many replicas there are.
pub const MEMBERS: u8 = 3;

/// A replica, and the table of jobs that it is one of.
#[derive(Debug, Drop)]
pub struct Seat<'a> {
    table: &'a JobTable,
    replica: Replica,
}

impl<'a> Model for Seat<'a> {
    ghost use Rattle.due_set.specs.Table.{Table};
    ghost use Rattle.replica_core.specs.Replica.{ReplicaState};
    ghost use Rattle.replica_core.specs.Step.{IsOfTable};

    ghost Value = { Table × ReplicaState };

    ghost view = { λ seat. (seat.table.now, seat.replica) };

    ghost invariant = { λ seat. IsOfTable seat.table.now seat.replica };
}

impl<'a> Seat<'a> {
    /// A replica that starts for the first time.
    pub fn start(alloc: Global, me: u8, table: &'a JobTable) -> Result<Seat<'a>, BenchFault> {
        if me >= MEMBERS {
            return Err(BenchFault::NoReplica);
        }
        let durable = Durable {
            tried: 0,
            promised: None,
            votes: VoteList {
                items: Vec::new(alloc),
            },
            base: 0,
            rows: Machine::new(alloc, table)?.copy_rows(alloc)?,
        };
        let replica = Replica::start(me, MEMBERS, table, durable)?;
        Ok(Seat { table, replica })
    }

    /// A step of the replica. There is none where its numbers are too large, or a tick is outside the window.
    pub fn step(&mut self, input: Input<'_>) -> Result<StepOut, BenchFault> {
        if !is_inside(self.table, &input) {
            return Err(BenchFault::NoStep);
        }
        if !self.replica.is_small() {
            return Err(BenchFault::NoStep);
        }
        match self.replica.step(self.table, input) {
            Ok(out) => Ok(out),
            Err(_) => Err(BenchFault::RefusedStep),
        }
    }

    /// In how many minutes of the window the launch table asks for nothing.
    pub fn rests(&self) -> u64 {
        let mut rests = 0_u64;
        let window = self.table.window();
        for now in window.from.0..window.until.0 {
            if self.is_at_rest(Minute(now)) {
                rests = rests.saturating_add(1);
            }
        }
        rests
    }

    // Whether the launch table asks for nothing at an instant of the window.
    fn is_at_rest(&self, now: Minute) -> bool {
        self.table.window().contains(now)
            && self.replica.machine().choose(self.table, now) == Intent::Rest
    }
}

// Whether a tick is at a minute of the window.
fn is_inside(table: &JobTable, input: &Input<'_>) -> bool
    ensures { IsTrue result ↔ IsInputInside table.now input.now }
{
    match input {
        Input::Tick { now } => table.window().contains(*now),
        Input::Campaign | Input::Hear { .. } | Input::Answer { .. } => true,
    }
}
