//! A node that runs, and one that was stopped within a step.
ghost use Rattle.std.specs.Prelude.{◌↔◌, IsTrue};
ghost use Rattle.replica_core.specs.Step.{IsInputInside};

use crate::bare::{Bare, Owner};
use crate::command::Told;
use crate::seat::Seat;
use crate::text::Text;
use disk_model::MemDisk;
use due_set::JobTable;
use replica_core::Input;
use replica_node::{Node, NodeFault};
use std::marker::Model;

/// A node that runs.
#[derive(Drop)]
pub struct Running<'a> {
    pub owner: Owner<'a>,
    pub node: Node<MemDisk>,
}

impl<'a> Model for Running<'a> {
    ghost use Rattle.disk_model.specs.MemDisk.{view_of};
    ghost use Rattle.disk_model.specs.declared.mem_disk.MemDisk.{MemDisk};
    ghost use Rattle.due_set.specs.Table.{Table};
    ghost use Rattle.replica_node.specs.Node.{IsNodeAtRest};
    ghost use Rattle.replica_node.specs.declared.node.Node.{Node};

    ghost Value = { Table × Node MemDisk };

    ghost view = { λ here. (here.owner.table.now, here.node) };

    ghost invariant = { λ here. IsNodeAtRest view_of here.owner.table.now here.node };
}

/// A node that was stopped within a step.
#[derive(Drop)]
pub struct Halted<'a> {
    pub owner: Owner<'a>,
    pub node: Node<MemDisk>,
}

impl<'a> Model for Halted<'a> {
    ghost use Rattle.disk_model.specs.MemDisk.{view_of};
    ghost use Rattle.disk_model.specs.declared.mem_disk.MemDisk.{MemDisk};
    ghost use Rattle.due_set.specs.Table.{Table};
    ghost use Rattle.replica_node.specs.Stopped.{IsStopped};
    ghost use Rattle.replica_node.specs.declared.node.Node.{Node};

    ghost Value = { Table × Node MemDisk };

    ghost view = { λ here. (here.owner.table.now, here.node) };

    ghost invariant = { λ here. IsStopped view_of here.owner.table.now here.node };
}

fn input_of(told: &Told) -> Input<'_> {
    match told {
        Told::Campaign => Input::Campaign,
        Told::Tick(now) => Input::Tick { now: *now },
        Told::Hear(bytes) => Input::Hear { bytes },
    }
}

// Whether a tick is at a minute of the table's window.
fn is_inside(table: &JobTable, input: &Input<'_>) -> bool
    ensures { IsTrue result ↔ IsInputInside table.now input.now }
{
    match input {
        Input::Tick { now } => table.window().contains(*now),
        Input::Campaign | Input::Hear { .. } | Input::Answer { .. } => true,
    }
}

impl<'a> Running<'a> {
    /// Arms the disk.
    pub fn arm(&mut self, pass: u32, image: u32) {
        self.node.arm(pass, image);
    }

    /// Takes the arming back.
    pub fn disarm(&mut self) {
        self.node.disarm();
    }

    /// Leaves the disk.
    pub fn stop(self) -> Bare<'a> {
        let Running { owner, node } = self;
        Bare {
            owner,
            disk: node.into_disk(),
        }
    }

    /// Does a step, where the node may be told this.
    pub fn step(self, told: &Told, text: &mut Text) -> Seat<'a> {
        let input = input_of(told);
        if !is_inside(self.owner.table, &input) {
            text.put_refusal("the stamp is outside the hour from 2024-03-31T00:00Z on");
            return Seat::Running(self);
        }
        if !self.node.replica().is_small() {
            text.put_refusal("the replica's numbers are beyond its bounds");
            return Seat::Running(self);
        }
        let Running { owner, mut node } = self;
        let result = node.handle(owner.table, input);
        text.put_answer(&result);
        match result {
            Ok(_) => Seat::Running(Running { owner, node }),
            Err(NodeFault::OutOfMemory) => Seat::Running(Running { owner, node }),
            Err(NodeFault::Letter(_)) => Seat::Running(Running { owner, node }),
            Err(NodeFault::Stopped) => Seat::Halted(Halted { owner, node }),
            Err(NodeFault::DiskFault | NodeFault::Damaged { .. }) => Seat::Bare(Bare {
                owner,
                disk: node.into_disk(),
            }),
        }
    }
}

impl<'a> Halted<'a> {
    /// Leaves the disk, which has stopped.
    pub fn stop(self) -> Bare<'a> {
        let Halted { owner, node } = self;
        Bare {
            owner,
            disk: node.into_disk(),
        }
    }

    /// Reopens the node, writes what its files have kept of the step, and leaves the disk.
    pub fn reopen(self, text: &mut Text) -> Bare<'a> {
        let Halted { owner, node } = self;
        match node.reopen(owner.alloc, owner.table) {
            Ok((node, change)) => {
                match &change {
                    Some(delta) => text.put_delta("  was kept: ", delta),
                    None => text.put("  was lost\n"),
                }
                Bare {
                    owner,
                    disk: node.into_disk(),
                }
            }
            Err((disk, fault)) => {
                text.put_fault(fault);
                Bare { owner, disk }
            }
        }
    }
}
