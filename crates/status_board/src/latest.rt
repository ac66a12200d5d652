//! The latest state, as the writer has it.
ghost use Rattle.std.specs.Prelude.{◌≡◌, ◌+◌, ◌<◌, ◌^◌, IfOk, Some, length, slice_get};
ghost use Rattle.paxos_base.specs.Rows.{RowsStand};
ghost use Rattle.launch_machine.specs.Clerk.{Applies, first_rows, table_size};
ghost use Rattle.launch_machine.specs.Machine.{CanCount, StandsFor};
ghost use Rattle.status_board.specs.Change.{row_changed_by, with_new};

use crate::change::NewRows;
use cron_io::OutOfMemory;
use due_set::JobTable;
use launch_machine::Machine;
use paxos_base::{Entry, RowList};
use std::alloc::Global;

/// A prefix of the log, and the launch table that it leaves.
#[derive(Drop)]
pub struct Latest {
    pub prefix: u64,
    pub machine: Machine,
}

// The number of the row that an entry may change.
fn row_of(table: &JobTable, entry: Entry) -> Option<u32>
    ensures { result ≡ row_changed_by table.now entry }
{
    match entry {
        Entry::Noop => None,
        Entry::Start { job, .. } | Entry::End { job, .. } => Some(job),
        Entry::Table { .. } => Some(table.jobs()),
    }
}

impl Latest {
    /// The state before the log.
    pub fn first(alloc: Global, table: &JobTable) -> Result<Latest, OutOfMemory>
        ensures prefix { IfOk result (λ latest. latest.prefix ≡ 0) }
        ensures rows { IfOk result (λ latest. latest.machine.rows ≡ first_rows table.now) }
        ensures stands { IfOk result (λ latest. StandsFor table.now latest.machine) }
    {
        Ok(Latest {
            prefix: 0,
            machine: Machine::new(alloc, table)?,
        })
    }

    /// The state of a snapshot.
    pub fn of(
        alloc: Global,
        table: &JobTable,
        prefix: u64,
        rows: &RowList,
    ) -> Result<Latest, OutOfMemory>
        requires { RowsStand rows.now (table_size table.now) }
        ensures prefix { IfOk result (λ latest. latest.prefix ≡ prefix) }
        ensures rows { IfOk result (λ latest. latest.machine.rows ≡ rows.now) }
        ensures stands { IfOk result (λ latest. StandsFor table.now latest.machine) }
    {
        let Some(machine) = Machine::from_rows(alloc, table, rows.clone()?)? else {
            unreachable!()
        };
        Ok(Latest { prefix, machine })
    }

    /// Applies the entry at the prefix, and gives what is new in the rows.
    pub fn learn(&mut self, table: &JobTable, entry: Entry) -> NewRows
        requires stands { StandsFor table.now self.old.machine }
        requires prefix { self.old.prefix < 2 ^ 62 }
        requires counts { CanCount self.old.machine.rows entry }
        ensures applies { Applies table.now self.old.machine.rows entry self.new.machine.rows }
        ensures stands { StandsFor table.now self.new.machine }
        ensures prefix { self.new.prefix ≡ self.old.prefix + 1 }
        ensures rows { with_new result self.old.machine.rows ≡ self.new.machine.rows }
    {
        self.machine.apply(table, entry);
        self.prefix += 1;
        let Some(number) = row_of(table, entry) else {
            return NewRows::Same;
        };
        if number > table.jobs() {
            return NewRows::Same;
        }
        NewRows::One(self.machine.row(number))
    }
}
