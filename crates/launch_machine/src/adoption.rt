//! When the next version of a table is adopted.
ghost use Rattle.std.specs.Prelude.{◌≡◌, ◌↔◌, ◌<◌, length, IfNone, IfSome, IsTrue, Some};
ghost use Rattle.paxos_base.specs.Rows.{RowsStand};
ghost use Rattle.launch_machine.specs.Clerk.{AreEndedBy, IsBy, IsEndedRow, NoStart, NoTable, TakesTable, next_version, table_size};
ghost use Rattle.launch_machine.specs.Machine.{AreNextStarts};

use crate::choice::first_start;
use crate::force::{in_force, next_version};
use due_set::JobTable;
use min_tree::LeastTree;
use paxos_base::JobRow;
use zone_minutes::Minute;

// Whether the instant, where there is one, isn't later than now.
fn is_by(now: i64, instant: Option<i64>) -> bool
    ensures { IsTrue result ↔ IsBy now instant }
{
    match instant {
        Some(instant) => instant <= now,
        None => true,
    }
}

// Whether the row is closed, and its launch, if its job runs by due instants, isn't later than now.
fn is_ended(table: &JobTable, job: u32, row: JobRow, now: i64) -> bool
    requires { job < length table.now.jobs }
    ensures { IsTrue result ↔ IsEndedRow table.now now job row }
{
    row.open_now.is_none() && (table.is_anacron(job) || is_by(now, row.cursor))
}

// Whether no launch is open, and none of a job that runs by its due instants is of a later one.
fn are_ended_by(rows: &[JobRow], table: &JobTable, now: i64) -> bool
    requires { RowsStand rows.now (table_size table.now) }
    ensures { IsTrue result ↔ AreEndedBy table.now rows.now now }
{
    for job in 0..table.jobs() {
        if !is_ended(table, job, rows[job as usize], now) {
            return false;
        }
    }
    true
}

// Whether the version that comes next may be adopted now, where no start would take effect.
fn has_come(rows: &[JobRow], table: &JobTable, version: u32, now: i64) -> bool
    requires stands { RowsStand rows.now (table_size table.now) }
    requires next { next_version table.now rows.now ≡ Some version }
    ensures comes { IsTrue result → NoStart table.now rows.now now → TakesTable table.now rows.now version now }
    ensures waits { TakesTable table.now rows.now version now → IsTrue result }
{
    let since = in_force(rows, table).since;
    if table.version_from(version).0 > now || !is_by(now, since) {
        return false;
    }
    are_ended_by(rows, table, now)
}

/// Whether a version of the table may be adopted now.
pub fn takes_table(
    rows: &[JobRow],
    starts: &LeastTree,
    table: &JobTable,
    version: u32,
    now: i64,
) -> bool
    requires stands { RowsStand rows.now (table_size table.now) }
    requires starts { AreNextStarts table.now rows.now starts.now }
    ensures { IsTrue result ↔ TakesTable table.now rows.now version now }
{
    if next_version(rows, table) != Some(version) {
        return false;
    }
    if !has_come(rows, table, version, now) {
        return false;
    }
    first_start(rows, starts, table, Minute(now)).is_none()
}

/// The version that may be adopted now, if there is one, where no start would take effect.
pub fn version_to_adopt(rows: &[JobRow], table: &JobTable, now: Minute) -> Option<u32>
    requires stands { RowsStand rows.now (table_size table.now) }
    requires none { NoStart table.now rows.now now.0 }
    ensures found { IfSome result (λ version. TakesTable table.now rows.now version now.0) }
    ensures none { IfNone result (NoTable table.now rows.now now.0) }
{
    let version = next_version(rows, table)?;
    if has_come(rows, table, version, now.0) {
        Some(version)
    } else {
        None
    }
}
