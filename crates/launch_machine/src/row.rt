//! Changes of the rows.
ghost use Rattle.std.specs.Prelude.{◌≡◌, ◌↔◌, ◌+◌, ◌<◌, ◌^◌, IfOk, IsTrue};
ghost use Rattle.paxos_base.specs.Rows.{fresh_rows, row_count};
ghost use Rattle.due_set.specs.Table.{IsSound};
ghost use Rattle.launch_machine.specs.Clerk.{TakesEnd, adopted_row, opened_row, closed_row, table_size};

use cron_io::OutOfMemory;
use due_set::JobTable;
use paxos_base::{JobRow, Kind, RowList, TableSize};
use std::alloc::Global;

/// How many jobs a table has, and its last version.
pub fn table_size(table: &JobTable) -> TableSize
    ensures size { result ≡ table_size table.now }
    ensures sound { IsSound table.now }
{
    TableSize {
        jobs: table.jobs(),
        last_version: table.versions() - 1,
    }
}

/// The fresh rows of a table of this size.
pub fn first_rows(alloc: Global, size: TableSize) -> Result<Vec<JobRow>, OutOfMemory>
    ensures { IfOk result (λ rows. rows.items ≡ fresh_rows (row_count size)) }
{
    Ok(RowList::fresh(alloc, size)?.items)
}

/// Whether the job is in the table and open at the instant.
pub fn takes_end(rows: &[JobRow], job: u32, at: i64) -> bool
    ensures { IsTrue result ↔ TakesEnd rows.now job at }
{
    let place = job as usize;
    if place >= rows.len() {
        return false;
    }
    match (rows[place].open_now, rows[place].cursor) {
        (Some(_), Some(cursor)) => cursor == at,
        _ => false,
    }
}

/// The row with its job's launch of an instant opened.
pub fn opened(row: JobRow, at: i64, now: i64) -> JobRow
    ensures { result ≡ opened_row at now row }
{
    JobRow {
        cursor: Some(at),
        open_now: Some(now),
        ..row
    }
}

/// The table's own row once a version is adopted.
pub fn adopted(row: JobRow, version: u32, now: i64) -> JobRow
    ensures { result ≡ adopted_row version now row }
{
    JobRow {
        cursor: Some(now),
        launched: version,
        ..row
    }
}

/// The row with its job's launch of an instant closed.
pub fn closed(row: JobRow, at: i64, kind: Kind) -> JobRow
    requires launched { row.launched + 1 < 2 ^ 32 }
    requires voided { row.voided + 1 < 2 ^ 32 }
    ensures { result ≡ closed_row at kind row }
{
    match kind {
        Kind::Launch => JobRow {
            open_now: None,
            last: Some(at),
            launched: row.launched + 1,
            ..row
        },
        Kind::Void => JobRow {
            open_now: None,
            voided: row.voided + 1,
            ..row
        },
    }
}
