//! What the writer appends: a state, as a change of the one before it.
ghost use Rattle.std.specs.Prelude.{◌≡◌, IfOk, List, length};
ghost use Rattle.paxos_base.specs.declared.rows.JobRow.{JobRow};
ghost use Rattle.status_board.specs.Change.{with_new};

use crate::past::Past;
use cron_io::OutOfMemory;
use paxos_base::{JobRow, RowList};
use std::alloc::Global;

/// What is new in the rows.
#[derive(Drop)]
pub enum NewRows {
    /// Nothing.
    Same,
    /// The row of its job.
    One(JobRow),
    /// All rows.
    All(Vec<JobRow>),
}

/// A state, and the states up to it.
#[derive(Drop)]
pub struct Change {
    pub past: Past,
    pub prefix: u64,
    pub rows: NewRows,
}

impl NewRows {
    /// Other rows in the place of as many.
    pub fn all(alloc: Global, rows: &RowList) -> Result<NewRows, OutOfMemory>
        ensures { IfOk result (λ new. (old : List JobRow) → length rows.now ≡ length old → with_new new old ≡ rows.now) }
    {
        let mut items = Vec::new(alloc);
        items.extend_from_slice(&rows.items)?;
        Ok(NewRows::All(items))
    }
}
