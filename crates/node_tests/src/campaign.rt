//! A first campaign.
ghost use Rattle.replica_core.specs.Step.{IsOfTable};

use crate::builders::{empty_table, first_of_three};
use due_set::JobTable;
use replica_core::{Input, Replica, StepOut};
use std::process::Abort;
use std::test::*;

// A prepare request of replica 0 in its ballot of round 1, from slot 0 on.
const PREPARE: &[u8] = &[
    1, 0, 0, 0, 0, 0, 0, 0, //
    0, 0, 0, 0, 0, 0, 0, 8, //
    0, 0, 0, 0, 0, 0, 0, 0, //
    0, 0, 0, 0, 0, 0, 0, 0, //
    0, 0, 0, 0, 0, 0, 0, 0, //
    0, 0, 0, 0, 0, 0, 0, 0, //
    0, 0, 0, 0, 0, 0, 0, 0,
];

fn both_ask(rt: &impl Abort, out: &StepOut) {
    assert_eq!(rt; out.letters.items.len(), 2);
    for letter in &out.letters.items {
        assert_eq!(rt; letter.bytes.bytes(), PREPARE);
    }
}

fn copy_is_alike(rt: &impl Abort, replica: &Replica) -> Result<(), Fail> {
    let copy = replica.copy()?;
    assert_eq!(rt; copy.prefix(), replica.prefix());
    Ok(())
}

fn campaigns(rt: &impl Abort, table: &JobTable, replica: &mut Replica) -> Result<(), Fail>
    requires { IsOfTable table.now replica.old }
{
    assert!(rt; replica.is_small());
    let out = replica.step(table, Input::Campaign)?;
    both_ask(rt, &out);
    Ok(())
}

#[test]
fn a_first_campaign_asks_all_for_promises(rt: HostRuntime) -> Result<(), Fail> {
    let table = empty_table(rt.alloc())?;
    let mut replica = first_of_three(rt.alloc(), &table)?;
    campaigns(&rt, &table, &mut replica)?;
    copy_is_alike(&rt, &replica)
}
