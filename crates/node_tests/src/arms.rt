//! A node that arms its disk between two of its calls, so that the disk stops within the save of a step, and is reopened
//! then; or that takes the arming back.
ghost use Rattle.disk_model.specs.MemDisk.{view_of};
ghost use Rattle.replica_core.specs.Step.{IsInputInside};
ghost use Rattle.replica_node.specs.Node.{IsNodeAtRest};
ghost use Rattle.replica_node.specs.Stopped.{IsStopped};

use crate::nodes::{
    End, Told, empty_disk, empty_table, end_with, found_on, input_of, letter_of, play,
};
use disk_model::{ArmedDisk, MemDisk};
use due_set::JobTable;
use replica_core::Input;
use replica_node::{Node, NodeFault};
use std::alloc::Global;
use std::process::Abort;
use std::test::*;

/// What a disk keeps: the round that was tried, the promise (0 is none), how many votes, and the base.
pub type Kept = (u64, u64, usize, u64);

// A step of a node that is fresh, or that was told something before. The last two of the calls that save its change make it
// safe: they open the gate of a record, or write the chooser's byte, and these images show that byte as it is to be.
#[derive(Debug)]
struct Step {
    earlier: Option<Told>,
    told: Told,
    letters: usize,
    calls: u32,
    shown: [u32; 2],
    before: Kept,
    after: Kept,
}

// A base stands in the second area, which an odd byte of the chooser selects, and the next one in the first again.
const STEPS: &[Step] = &[
    Step {
        earlier: None,
        told: Told::Campaign,
        letters: 2,
        calls: 4,
        shown: [1, 5],
        before: (0, 0, 0, 0),
        after: (1, 8, 0, 0),
    },
    Step {
        earlier: None,
        told: Told::Prepare,
        letters: 1,
        calls: 4,
        shown: [1, 5],
        before: (0, 0, 0, 0),
        after: (0, 9, 0, 0),
    },
    Step {
        earlier: None,
        told: Told::Accept,
        letters: 1,
        calls: 4,
        shown: [1, 5],
        before: (0, 0, 0, 0),
        after: (0, 9, 1, 0),
    },
    Step {
        earlier: None,
        told: Told::Snap(5),
        letters: 0,
        calls: 5,
        shown: [1, 5],
        before: (0, 0, 0, 0),
        after: (0, 0, 0, 5),
    },
    Step {
        earlier: Some(Told::Accept),
        told: Told::Snap(5),
        letters: 0,
        calls: 5,
        shown: [1, 5],
        before: (0, 9, 1, 0),
        after: (0, 9, 0, 5),
    },
    Step {
        earlier: Some(Told::Snap(5)),
        told: Told::Snap(9),
        letters: 0,
        calls: 5,
        shown: [1, 2],
        before: (0, 0, 0, 5),
        after: (0, 0, 0, 9),
    },
];

// What the last syncs left, the stopped call done, and the bytes 0 and 1 in all that was written since.
const IMAGES: &[u32] = &[0, 1, 2, 5];

// A disk of a node that has done the earlier step, where there is one.
fn disk_for(
    rt: &impl Abort,
    alloc: Global,
    table: &JobTable,
    step: &Step,
) -> Result<MemDisk, Fail> {
    let disk = empty_disk(alloc, &[])?;
    let Some(told) = step.earlier else {
        return Ok(disk);
    };
    let letter = letter_of(told);
    let (disk, _) = play(rt, alloc, table, disk, input_of(told, &letter));
    Ok(disk)
}

// A node is recovered from a disk, arms it, and does a step. The disk is handed back, as the step or the reopening left it.
fn step_armed(
    rt: &impl Abort,
    alloc: Global,
    table: &JobTable,
    disk: MemDisk,
    told: Told,
    arm: (u32, u32),
) -> (MemDisk, End) {
    let letter = letter_of(told);
    match Node::recover(alloc, 0, 3, table, disk) {
        Ok(mut node) => {
            node.arm(arm.0, arm.1);
            handle_armed(rt, alloc, table, node, input_of(told, &letter))
        }
        Err((disk, _)) => (disk, End::NotRecovered),
    }
}

/// A node whose disk is armed does a step, and is reopened where that is stopped.
pub fn handle_armed(
    rt: &impl Abort,
    alloc: Global,
    table: &JobTable,
    mut node: Node<MemDisk>,
    input: Input<'_>,
) -> (MemDisk, End)
    requires at_rest { IsNodeAtRest view_of table.now node }
    requires inside { IsInputInside table.now input }
{
    assert!(rt; node.replica().is_small());
    match node.handle(table, input) {
        Ok(out) => (node.into_disk(), End::Done(out.letters.items.len())),
        Err(NodeFault::Stopped) => reopen(alloc, table, node),
        Err(_) => (node.into_disk(), End::Ended),
    }
}

fn reopen(alloc: Global, table: &JobTable, node: Node<MemDisk>) -> (MemDisk, End)
    requires { IsStopped view_of table.now node }
{
    match node.reopen(alloc, table) {
        Ok((node, Some(_))) => (node.into_disk(), End::Kept),
        Ok((node, None)) => (node.into_disk(), End::Lost),
        Err((disk, _)) => (disk, End::Ended),
    }
}

// Arms a disk so, does the step, and says whether it came as it is to come.
fn stops(
    rt: &impl Abort,
    alloc: Global,
    table: &JobTable,
    step: &Step,
    arm: (u32, u32),
) -> Result<(), Fail> {
    let disk = disk_for(rt, alloc, table, step)?;
    let (mut disk, end) = step_armed(rt, alloc, table, disk, step.told, arm);
    let wanted = end_of(step, arm);
    assert!(rt; end == wanted, "{step:?} {arm:?}");
    // A disk that hasn't stopped is still armed.
    disk.disarm();
    let kept = kept_on(alloc, &mut disk)?;
    let is_kept = wanted != End::Lost;
    assert!(rt;
        kept == if is_kept { step.after } else { step.before },
        "{step:?} {arm:?}"
    );
    Ok(())
}

// How the step of a node comes out that has armed its disk so.
fn end_of(step: &Step, arm: (u32, u32)) -> End {
    let (pass, image) = arm;
    if pass >= step.calls {
        End::Done(step.letters)
    } else if step.calls - pass <= 2 && step.shown.contains(&image) {
        End::Kept
    } else {
        End::Lost
    }
}

/// What the disk keeps.
pub fn kept_on(alloc: Global, disk: &mut MemDisk) -> Result<Kept, Fail> {
    let found = found_on(alloc, disk)?;
    let promised = found.promised.map_or(0, |ballot| ballot.number());
    Ok((found.tried, promised, found.votes.items.len(), found.base))
}

#[test]
fn an_armed_node_keeps_its_change_or_not(rt: HostRuntime) -> Result<(), Fail> {
    let table = empty_table(rt.alloc())?;
    for step in STEPS {
        for image in IMAGES {
            for pass in 0..10 {
                stops(&rt, rt.alloc(), &table, step, (pass, *image))?;
            }
        }
    }
    Ok(())
}

// A campaign stops within the last call of its save, and another one follows. The disk keeps this round then.
fn campaigns_again(
    rt: &impl Abort,
    alloc: Global,
    table: &JobTable,
    image: u32,
    tried: u64,
) -> Result<(), Fail> {
    let disk = empty_disk(alloc, &[])?;
    let (disk, _) = step_armed(rt, alloc, table, disk, Told::Campaign, (3, image));
    let (mut disk, end) = play(rt, alloc, table, disk, input_of(Told::Campaign, &[]));
    let found = found_on(alloc, &mut disk)?;
    assert!(rt; end == End::Done(2) && found.tried == tried, "{image}");
    Ok(())
}

// A campaign whose ballot was lost takes up the same ballot again; one whose ballot was kept takes up the next.
#[test]
fn a_lost_ballot_is_taken_up_again(rt: HostRuntime) -> Result<(), Fail> {
    let table = empty_table(rt.alloc())?;
    campaigns_again(&rt, rt.alloc(), &table, 0, 1)?;
    campaigns_again(&rt, rt.alloc(), &table, 1, 2)
}

#[test]
fn a_node_takes_an_arm_back(rt: HostRuntime) -> Result<(), Fail> {
    let table = empty_table(rt.alloc())?;
    let disk = empty_disk(rt.alloc(), &[])?;
    match Node::recover(rt.alloc(), 0, 3, &table, disk) {
        Ok(mut node) => {
            node.arm(0, 0);
            node.disarm();
            let (_, end) = end_with(&rt, &table, node, input_of(Told::Campaign, &[]));
            assert!(rt; end == End::Done(2));
            Ok(())
        }
        Err(_) => {
            assert!(rt; false, "an empty disk is attached");
            Ok(())
        }
    }
}
