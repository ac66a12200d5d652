//! A leader that another asks for a vote in its own ballot, and that casts this vote again as its proposal. What it keeps is the
//! same with that change and without it, so a node whose disk stopped within the save answers it, however the disk was armed.
ghost use Rattle.disk_model.specs.MemDisk.{view_of};
ghost use Rattle.replica_core.specs.Step.{IsInputInside};
ghost use Rattle.replica_node.specs.Node.{IsNodeAtRest};
ghost use Rattle.std.specs.Prelude.{IfOk};

use crate::arms::{handle_armed, kept_on};
use crate::nodes::{End, HOUR, empty_disk, empty_table};
use disk_model::MemDisk;
use due_set::JobTable;
use replica_core::Input;
use replica_node::Node;
use std::alloc::Global;
use std::process::Abort;
use std::test::*;

// A packet of a kind, from replica 1, in the ballot of replica 0 in round 2.
fn packet(kind: u8) -> [u8; 56] {
    let mut bytes = [0; 56];
    bytes[0] = kind;
    bytes[1] = 1;
    bytes[15] = 16;
    bytes
}

// That ballot is promised, with an old vote for a no-op at slot 1, in the ballot of replica 1 in round 1.
fn promise() -> [u8; 112] {
    let mut bytes = [0; 112];
    let mut head = packet(2);
    head[31] = 1;
    let mut vote = packet(3);
    vote[23] = 1;
    vote[31] = 9;
    bytes[..56].copy_from_slice(&head);
    bytes[56..].copy_from_slice(&vote);
    bytes
}

// A node takes a step.
fn tell(
    rt: &impl Abort,
    table: &JobTable,
    mut node: Node<MemDisk>,
    input: Input<'_>,
) -> Result<Node<MemDisk>, Fail>
    requires at_rest { IsNodeAtRest view_of table.now node }
    requires inside { IsInputInside table.now input }
    ensures { IfOk result (IsNodeAtRest view_of table.now) }
{
    assert!(rt; node.replica().is_small());
    match node.handle(table, input) {
        Ok(_) => Ok(node),
        Err(_) => {
            assert!(rt; false, "a step is refused");
            unreachable!()
        }
    }
}

// A node that leads in the ballot of round 2, and has voted there at slot 0, as replica 1 asked it to.
fn leader(rt: &impl Abort, alloc: Global, table: &JobTable) -> Result<Node<MemDisk>, Fail>
    ensures { IfOk result (IsNodeAtRest view_of table.now) }
{
    match Node::recover(alloc, 0, 3, table, empty_disk(alloc, &[])?) {
        Ok(node) => {
            let node = tell(rt, table, node, Input::Campaign)?;
            let node = tell(rt, table, node, Input::Campaign)?;
            let node = tell(rt, table, node, Input::Hear { bytes: &promise() })?;
            tell(rt, table, node, Input::Hear { bytes: &packet(4) })
        }
        Err(_) => {
            assert!(rt; false, "an empty disk is attached");
            unreachable!()
        }
    }
}

#[test]
fn a_vote_that_is_cast_again_is_answered(rt: HostRuntime) -> Result<(), Fail> {
    let table = empty_table(rt.alloc())?;
    let mut node = leader(&rt, rt.alloc(), &table)?;
    node.arm(0, 0);
    assert!(rt; table.window().contains(HOUR.from));
    let tick = Input::Tick { now: HOUR.from };
    let (mut disk, end) = handle_armed(&rt, rt.alloc(), &table, node, tick);
    assert!(rt; end == End::Kept);
    assert!(rt; kept_on(rt.alloc(), &mut disk)? == (2, 16, 1, 0));
    Ok(())
}
