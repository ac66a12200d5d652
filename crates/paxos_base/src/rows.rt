ghost use Rattle.std.specs.Prelude.{◌≡◌, ◌↔◌, ◌==◌, ◌<◌, ◌-◌, not, is_some, if◌then◌else◌, IsTrue, IfOk};
ghost use Rattle.paxos_base.specs.Rows.{AreNumbered, EndsWithTable, RowsStand, fits_table, fresh_row, fresh_rows, is_table_row, row_count};

use std::alloc::{AllocError, Global};
use std::marker::Model;

/// A row of the launch table: a job's, or the last, which is the table's own. The cursor of that is the minute since when a
/// version of the table is in force, and its `launched` is the version; the first, 0, is in force without such a minute.
#[derive(Clone, Copy, Debug, PartialEq, Eq, Hash)]
pub struct JobRow {
    /// The job's number; in the table's own row the number of jobs.
    pub job: u32,
    /// When the job's latest launch that has started was due, where there is one.
    pub cursor: Option<i64>,
    /// Where the launch at the cursor has not ended, the minute at which it was decided, since 1970-01-01 00:00 UTC.
    pub open_now: Option<i64>,
    /// When the latest launch was due that ended as launched, where there is one.
    pub last: Option<i64>,
    /// How many launches ended as launched.
    pub launched: u32,
    /// How many launches ended as void.
    pub voided: u32,
}

impl JobRow {
    /// The row of a job of which nothing was heard.
    pub fn fresh(job: u32) -> JobRow
        ensures { result ≡ fresh_row job }
    {
        JobRow {
            job,
            cursor: None,
            open_now: None,
            last: None,
            launched: 0,
            voided: 0,
        }
    }

    /// Whether the row may be the table's own, where this is the last version.
    pub fn is_table_row(&self, last_version: u32) -> bool
        ensures { result ≡ is_table_row last_version self.now }
    {
        self.open_now.is_none()
            && self.last.is_none()
            && self.voided == 0
            && self.launched <= last_version
            && self.has_fit_cursor()
    }

    /// Whether the row may stand in a table of this size: where its number is behind those of the jobs, it is the table's own.
    pub fn fits_table(&self, size: TableSize) -> bool
        ensures { result ≡ fits_table size self.now }
    {
        if self.job == size.jobs {
            self.is_table_row(size.last_version)
        } else {
            true
        }
    }

    // Whether it has a cursor exactly where its version isn't the first.
    fn has_fit_cursor(&self) -> bool
        ensures { result ≡ (if self.now.launched == 0 then not (is_some self.now.cursor) else is_some self.now.cursor) }
    {
        if self.launched == 0 {
            self.cursor.is_none()
        } else {
            self.cursor.is_some()
        }
    }
}

/// How large a table of jobs is, as far as the rows of its launch table go.
#[derive(Clone, Copy, Debug, PartialEq, Eq)]
pub struct TableSize {
    /// How many jobs it has.
    pub jobs: u32,
    /// The number of its last version, from 0.
    pub last_version: u32,
}

impl TableSize {
    /// How many rows its launch table has: one for each job, and the table's own.
    pub fn row_count(self) -> u64
        ensures { result ≡ row_count self }
    {
        u64::from(self.jobs) + 1
    }
}

/// Rows of the launch table, in which each row with a launch that is open has a cursor. Contracts see the list.
#[derive(Clone, Debug, Drop)]
pub struct RowList {
    pub items: Vec<JobRow>,
}

impl Model for RowList {
    ghost use Rattle.std.specs.Prelude.{List};
    ghost use Rattle.paxos_base.specs.declared.rows.JobRow.{JobRow};
    ghost use Rattle.paxos_base.specs.Rows.{OpenHaveCursors};

    ghost Value = { List JobRow };

    ghost view = { λ list. list.items.items };

    ghost invariant = { λ list. OpenHaveCursors list.items.items };
}

impl PartialEq for RowList {
    ghost use Rattle.std.specs.Cmp.Lexicographic.{pointwise, lists_per};
    ghost use Rattle.paxos_base.specs.contracts.rows.JobRowPartialEq.TheImpl.Laws.{laws-law};

    ghost eq = { pointwise ⟦<JobRow as PartialEq>⟧.eq };

    ghost laws = { lists_per laws-law };

    fn eq(&self, other: &RowList) -> bool {
        self.items == other.items
    }
}

impl Eq for RowList {
    ghost use Rattle.std.specs.Cmp.Lexicographic.{lists_equiv};
    ghost use Rattle.paxos_base.specs.contracts.rows.JobRowEq.TheImpl.Laws.{laws-law};

    ghost laws = { lists_equiv laws-law };
}

impl RowList {
    /// The fresh rows of a table of this size, in the order of their numbers.
    ///
    /// # Errors
    ///
    /// There is no memory for the rows.
    pub fn fresh(alloc: Global, size: TableSize) -> Result<RowList, AllocError>
        ensures { IfOk result (λ rows. rows ≡ fresh_rows (row_count size)) }
    {
        let mut items = job_rows(alloc, size.jobs)?;
        items.push(JobRow::fresh(size.jobs))?;
        Ok(RowList { items })
    }

    /// Whether the rows are those of a table of this size: one row for each job, in the order of their numbers, and behind
    /// them the table's own.
    pub fn stand_for(&self, size: TableSize) -> bool
        ensures { IsTrue result ↔ RowsStand self.now size }
    {
        are_numbered(&self.items, size.row_count()) && ends_with_table(&self.items, size)
    }
}

// A fresh row for each of so many jobs, in the order of their numbers.
fn job_rows(alloc: Global, jobs: u32) -> Result<Vec<JobRow>, AllocError>
    ensures { IfOk result (λ rows. rows.items ≡ fresh_rows jobs) }
{
    (0..jobs).map(|job| JobRow::fresh(job)).collect(alloc)
}

// Whether there are so many rows, each at its job's number.
fn are_numbered(rows: &[JobRow], total: u64) -> bool
    ensures { IsTrue result ↔ AreNumbered rows.now total }
{
    rows.len() as u64 == total
        && rows
            .iter()
            .enumerate()
            .all(|(place, row)| row.job as usize == place)
}

// Whether the row behind those of the jobs is the table's own.
fn ends_with_table(rows: &[JobRow], size: TableSize) -> bool
    ensures { IsTrue result ↔ EndsWithTable rows.now size }
{
    match rows.get(size.jobs as usize) {
        Some(row) => row.is_table_row(size.last_version),
        None => true,
    }
}

/// Whether the rows are those of a table of that many jobs and versions: one row for each job, in the order of their
/// numbers, and behind them the table's own.
pub fn rows_stand(rows: &RowList, jobs: u32, versions: u32) -> bool
    ensures { IsTrue result ↔ (0 < versions) × RowsStand rows.now (record { jobs = jobs; last_version = versions - 1 }) }
{
    let Some(last_version) = versions.checked_sub(1) else {
        return false;
    };
    rows.stand_for(TableSize { jobs, last_version })
}
