//! A replica that is alone, with its table of jobs: without a disk, and on one.
ghost use Rattle.std.specs.Prelude.{◌↔◌, IsTrue};
ghost use Rattle.replica_core.specs.Step.{IsInputInside};

use crate::fault::BenchFault;
use disk_model::MemDisk;
use due_set::JobTable;
use launch_machine::Machine;
use paxos_base::{Durable, VoteList};
use replica_core::{Input, Replica, StepOut};
use replica_node::Node;
use std::alloc::Global;
use std::marker::Model;

/// What does a step at an input.
pub trait Steps: Drop {
    /// A step. There is none where its numbers are too large, or a tick is outside the window.
    fn step(&mut self, input: Input<'_>) -> Result<StepOut, BenchFault>;
}

/// A replica without a disk, of one.
#[derive(Debug, Drop)]
pub struct Bare<'a> {
    table: &'a JobTable,
    replica: Replica,
}

impl<'a> Model for Bare<'a> {
    ghost use Rattle.due_set.specs.Table.{Table};
    ghost use Rattle.replica_core.specs.Replica.{ReplicaState};
    ghost use Rattle.replica_core.specs.Step.{IsOfTable};

    ghost Value = { Table × ReplicaState };

    ghost view = { λ seat. (seat.table.now, seat.replica) };

    ghost invariant = { λ seat. IsOfTable seat.table.now seat.replica };
}

impl<'a> Bare<'a> {
    /// A replica that starts for the first time.
    pub fn start(alloc: Global, table: &'a JobTable) -> Result<Bare<'a>, BenchFault> {
        let durable = Durable {
            tried: 0,
            promised: None,
            votes: VoteList {
                items: Vec::new(alloc),
            },
            base: 0,
            rows: Machine::new(alloc, table)?.copy_rows(alloc)?,
        };
        let replica = Replica::start(0, 1, table, durable)?;
        Ok(Bare { table, replica })
    }
}

impl<'a> Steps for Bare<'a> {
    fn step(&mut self, input: Input<'_>) -> Result<StepOut, BenchFault> {
        if !is_inside(self.table, &input) {
            return Err(BenchFault::NoStep);
        }
        if !self.replica.is_small() {
            return Err(BenchFault::NoStep);
        }
        match self.replica.step(self.table, input) {
            Ok(out) => Ok(out),
            Err(_) => Err(BenchFault::RefusedStep),
        }
    }
}

/// A replica on a disk in memory, of one.
#[derive(Drop)]
pub struct OnDisk<'a> {
    table: &'a JobTable,
    node: Node<MemDisk>,
}

impl<'a> Model for OnDisk<'a> {
    ghost use Rattle.std.specs.Prelude.{◌≡◌, true};
    ghost use Rattle.disk_model.specs.MemDisk.{view_of};
    ghost use Rattle.disk_model.specs.declared.mem_disk.MemDisk.{MemDisk};
    ghost use Rattle.due_set.specs.Table.{Table};
    ghost use Rattle.replica_node.specs.Node.{runs_in, IsNodeAtRest};
    ghost use Rattle.replica_node.specs.declared.node.Node.{Node};

    ghost Value = { Table × Node MemDisk };

    ghost view = { λ seat. (seat.table.now, seat.node) };

    ghost invariant = { λ seat. runs_in seat.node ≡ true → IsNodeAtRest view_of seat.table.now seat.node };
}

impl<'a> OnDisk<'a> {
    /// A replica that starts for the first time.
    pub fn start(alloc: Global, table: &'a JobTable) -> Result<OnDisk<'a>, BenchFault> {
        let disk = MemDisk::new(alloc, Vec::new(alloc));
        match Node::recover(alloc, 0, 1, table, disk) {
            Ok(node) => Ok(OnDisk { table, node }),
            Err(_) => Err(BenchFault::NoNode),
        }
    }
}

impl<'a> Steps for OnDisk<'a> {
    fn step(&mut self, input: Input<'_>) -> Result<StepOut, BenchFault> {
        if !is_inside(self.table, &input) {
            return Err(BenchFault::NoStep);
        }
        if !self.node.is_running() || !self.node.replica().is_small() {
            return Err(BenchFault::NoStep);
        }
        match self.node.handle(self.table, input) {
            Ok(out) => Ok(out),
            Err(_) => Err(BenchFault::RefusedStep),
        }
    }
}

// Whether a tick is at a minute of the window.
fn is_inside(table: &JobTable, input: &Input<'_>) -> bool
    ensures { IsTrue result ↔ IsInputInside table.now input.now }
{
    match input {
        Input::Tick { now } => table.window().contains(*now),
        Input::Campaign | Input::Hear { .. } | Input::Answer { .. } => true,
    }
}
