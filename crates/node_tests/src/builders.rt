//! The first of three replicas, with an hour without jobs.
ghost use Rattle.std.specs.Prelude.{◌≡◌, IfOk, OnOk, length};
ghost use Rattle.launch_machine.specs.Clerk.{table_size};
ghost use Rattle.paxos_base.specs.Rows.{RowsStand};
ghost use Rattle.replica_core.specs.Step.{IsOfTable};

use due_set::JobTable;
use launch_machine::Machine;
use paxos_base::{Durable, VoteList};
use replica_core::{Input, Replica, StepOut};
use std::alloc::Global;
use std::process::Abort;
use std::test::*;
use zone_minutes::{Minute, Window};

// An hour of 2024.
const HOUR: Window = Window {
    from: Minute(28_530_720),
    until: Minute(28_530_780),
};

pub fn empty_table(alloc: Global) -> Result<JobTable, Fail> {
    Ok(JobTable::in_utc(alloc, HOUR, 10, Vec::new(alloc))?)
}

fn no_votes(alloc: Global) -> VoteList {
    VoteList {
        items: Vec::new(alloc),
    }
}

fn first_durable(alloc: Global, table: &JobTable) -> Result<Durable, Fail>
    ensures rows { IfOk result (λ durable. RowsStand durable.rows (table_size table.now)) }
    ensures tried { IfOk result (λ durable. durable.tried ≡ 0) }
{
    let rows = Machine::new(alloc, table)?.copy_rows(alloc)?;
    Ok(Durable {
        tried: 0,
        promised: None,
        votes: no_votes(alloc),
        base: 0,
        rows,
    })
}

pub fn first_of_three(alloc: Global, table: &JobTable) -> Result<Replica, Fail>
    ensures { IfOk result (λ replica. IsOfTable table.now replica) }
{
    let durable = first_durable(alloc, table)?;
    Ok(Replica::start(0, 3, table, durable)?)
}

// A letter is heard.
pub fn hear(
    rt: &impl Abort,
    table: &JobTable,
    replica: &mut Replica,
    bytes: &[u8],
) -> Result<StepOut, Fail>
    requires { IsOfTable table.now replica.old }
    ensures { OnOk result (IsOfTable table.now replica.new) }
{
    assert!(rt; replica.is_small());
    Ok(
        replica
            .step(table, Input::Hear { bytes })
            .ok()
            .ok_or("the letter is refused")?,
    )
}
