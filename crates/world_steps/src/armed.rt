//! A step on a disk that is armed.
ghost use Rattle.std.specs.Prelude.{◌≡◌, ◌<◌, ◌≤◌, ◌^◌, [], ℕ, List, Some, IfOk};
ghost use Rattle.history.specs.Book.{Row};
ghost use Rattle.replica_node.specs.Node.{replica_of};
ghost use Rattle.world_law.specs.Book.{BookState};
ghost use Rattle.world_steps.specs.Steps.{IsBeside, MayStep, WasToldOf};
ghost use Rattle.world_steps.specs.Stops.{HasOutcome, IsNodeAfter};

use crate::fault::memory_of;
use crate::steps::{MOST_TURNS, Taken, take_step};
use cron_io::OutOfMemory;
use disk_model::{Arm, ArmedDisk};
use due_set::JobTable;
use history::Cause;
use paxos_base::Delta;
use replica_core::Input;
use replica_node::{Node, NodeFault};
use std::alloc::Global;

/// What came of a step on a disk that may be armed.
#[derive(Debug, Drop)]
pub enum Outcome {
    /// It was taken, and its change is safe.
    Taken(Taken),
    /// The disk stopped within the save of its change, which is here where it was kept.
    Stopped(Option<Delta>),
}

// Lets a node take its step on its disk, which is armed for the length of the step.
fn take_armed<D: ArmedDisk>(
    node: &mut Node<D>,
    alloc: Global,
    table: &JobTable,
    who: u8,
    members: u8,
    arm: Arm,
    cause: Cause,
    input: Input<'_>,
) -> Result<Outcome, OutOfMemory>
    requires me { who < members }
    requires few { members ≤ 7 }
    requires may { (turns : ℕ) × (turns < 2 ^ 31) × MayStep D.view table.now turns node.old cause input }
    ensures ended { IfOk result (λ ended. (rows : List Row) (book : BookState) → book.members ≡ members
        → IsBeside D.view table.now rows book who [] node.old → WasToldOf table.now rows book who [] cause input.entry
        → HasOutcome table.now rows book who cause (Some arm) ended (replica_of node.new).state.kept
        × IsNodeAfter D.view table.now rows book who ended node.new) }
{
    node.arm(arm.left, arm.image);
    let fault = match node.handle(table, input) {
        Ok(out) => {
            node.disarm();
            return Ok(Outcome::Taken(Taken { cause, out }));
        }
        Err(fault) => fault,
    };
    match fault {
        NodeFault::Stopped => match node.attach_again(alloc, who, members, table) {
            Ok(change) => Ok(Outcome::Stopped(change)),
            Err(fault) => Err(memory_of(fault)),
        },
        _ => Err(memory_of(fault)),
    }
}

/// Lets a node take its step for a cause, beside a book of so many turns, on its disk: where that is armed, it is so for the length of
/// the step. Where the disk stops it is revived and attached at once, and the node is that of a replica which is stopped.
///
/// # Errors
///
/// Want of memory, and a book of 2^31 turns.
pub fn take_by_arm<D: ArmedDisk>(
    node: &mut Node<D>,
    alloc: Global,
    table: &JobTable,
    who: u8,
    members: u8,
    arm: Option<Arm>,
    turns: usize,
    cause: Cause,
    input: Input<'_>,
) -> Result<Outcome, OutOfMemory>
    requires me { who < members }
    requires few { members ≤ 7 }
    requires may { MayStep D.view table.now turns node.old cause input }
    ensures ended { IfOk result (λ ended. (rows : List Row) (book : BookState) → book.members ≡ members
        → IsBeside D.view table.now rows book who [] node.old → WasToldOf table.now rows book who [] cause input.entry
        → HasOutcome table.now rows book who cause arm ended (replica_of node.new).state.kept
        × IsNodeAfter D.view table.now rows book who ended node.new) }
{
    if turns >= MOST_TURNS {
        return Err(OutOfMemory);
    }
    match arm {
        None => Ok(Outcome::Taken(take_step(node, table, turns, cause, input)?)),
        Some(arm) => take_armed(node, alloc, table, who, members, arm, cause, input),
    }
}
