//! When the jobs may be started and their launches called, kept beside their rows.
ghost use Rattle.std.specs.Prelude.{◌≡◌, ◌↔◌, ◌<◌, ℤ, ◌≤ℤ◌, None, Some, slice_get, length, IfOk, IfSome, IfNone, IsTrue};
ghost use Rattle.due_set.specs.Anacron.{IsFirstOpening, IsJobOpen};
ghost use Rattle.due_set.specs.Table.{IsAfter, IsJobDue, IsNextDue, version_count};
ghost use Rattle.launch_machine.specs.declared.force.InForce.{InForce};
ghost use Rattle.launch_machine.specs.Clerk.{MayStart, TakesStart, table_size};
ghost use Rattle.paxos_base.specs.Rows.{RowsStand, row_count};
ghost use Rattle.launch_machine.specs.Machine.{AreBeside, AreCalls, AreNextStarts, IsStartBeside, IsCallBeside, IsFirstStartOf, IsFirstToStart};

use crate::force::{InForce, in_force, later_of};
use cron_io::OutOfMemory;
use due_set::JobTable;
use min_tree::LeastTree;
use paxos_base::JobRow;
use std::alloc::Global;
use zone_minutes::Minute;

// The first instant at which a launch of the row's job may be started.
fn first_start_of(table: &JobTable, force: InForce, job: u32, row: JobRow) -> Option<i64>
    requires version { force.version < version_count table.now }
    requires job { job < length table.now.jobs }
    ensures { IsFirstStartOf table.now force job row result }
{
    if table.is_anacron(job) {
        first_opening(table, force.version, job, row.last, row.cursor)
    } else {
        next_due(table, force.version, job, later_of(row.cursor, force.since))
    }
}

// The first instant at which the job may open, by these dates.
fn first_opening(
    table: &JobTable,
    version: u32,
    job: u32,
    last: Option<i64>,
    cursor: Option<i64>,
) -> Option<i64>
    requires version { version < version_count table.now }
    requires job { job < length table.now.jobs }
    ensures found { IfSome result (IsFirstOpening table.now version job last cursor) }
    ensures none { IfNone result ((now date : ℤ) → IsJobOpen table.now version job last cursor now date → ⊥) }
{
    match table.first_opening(version, job, last, cursor) {
        Some(first) => Some(first.0),
        None => None,
    }
}

// The job's next due instant after another, or the first of all.
fn next_due(table: &JobTable, version: u32, job: u32, after: Option<i64>) -> Option<i64>
    requires version { version < version_count table.now }
    requires job { job < length table.now.jobs }
    ensures found { IfSome result (IsNextDue table.now version job after) }
    ensures none { IfNone result ((at : ℤ) → IsJobDue table.now version job at → IsAfter after at → ⊥) }
{
    match table.next_due(version, job, after.map(Minute)) {
        Some(next) => Some(next.0),
        None => None,
    }
}

/// What stands beside a row: the first instant at which its job may be started; nothing while a launch is open.
pub fn start_beside(table: &JobTable, force: InForce, job: u32, row: JobRow) -> Option<i64>
    requires version { force.version < version_count table.now }
    requires job { job < length table.now.jobs }
    ensures { IsStartBeside table.now force job row result }
{
    match row.open_now {
        Some(_) => None,
        None => first_start_of(table, force, job, row),
    }
}

/// An instant before which the row's launch isn't called; nothing where none is open.
pub fn call_beside(table: &JobTable, job: u32, row: JobRow) -> Option<i64>
    requires { job < length table.now.jobs }
    ensures { (force : InForce) → IsCallBeside table.now force job row result }
{
    row.open_now?;
    let at = row.cursor?;
    if table.is_anacron(job) {
        // Its date has come where the zone's clock shows it, which may be put back.
        Some(table.window().from.0)
    } else {
        Some(at)
    }
}

/// What stands beside each row of the starts.
pub fn starts_of(alloc: Global, table: &JobTable, rows: &[JobRow]) -> Result<LeastTree, OutOfMemory>
    requires { RowsStand rows.now (table_size table.now) }
    ensures { IfOk result (λ starts. AreNextStarts table.now rows.now starts) }
{
    let force = in_force(rows, table);
    let mut starts = Vec::new(alloc);
    for job in 0..table.jobs() {
        starts.push(start_beside(table, force, job, rows[job as usize]))?;
    }
    // No launch is the table's own.
    starts.push(None)?;
    LeastTree::build(alloc, &starts)
}

/// Sets anew what stands beside each job's row of the starts, by a version.
pub fn set_starts(starts: &mut LeastTree, table: &JobTable, force: InForce, rows: &[JobRow])
    requires version { force.version < version_count table.now }
    requires rows { length rows.now ≡ row_count (table_size table.now) }
    requires count { length starts.old ≡ length rows.now }
    requires own { slice_get starts.old (length table.now.jobs) ≡ Some None }
    ensures { AreBeside (IsStartBeside table.now force) rows.now starts.new }
{
    for job in 0..table.jobs() {
        let place = job as usize;
        starts.set(place, start_beside(table, force, job, rows[place]));
    }
}

/// What stands beside each row of the calls.
pub fn calls_of(alloc: Global, table: &JobTable, rows: &[JobRow]) -> Result<LeastTree, OutOfMemory>
    requires { RowsStand rows.now (table_size table.now) }
    ensures { IfOk result (λ calls. AreCalls table.now rows.now calls) }
{
    let mut calls = Vec::new(alloc);
    for job in 0..table.jobs() {
        calls.push(call_beside(table, job, rows[job as usize]))?;
    }
    // No launch is the table's own.
    calls.push(None)?;
    LeastTree::build(alloc, &calls)
}

/// The launch of the job that may be started now, if it is idle.
pub fn start_at(
    rows: &[JobRow],
    starts: &LeastTree,
    table: &JobTable,
    job: u32,
    now: i64,
) -> Option<i64>
    requires stands { RowsStand rows.now (table_size table.now) }
    requires starts { AreNextStarts table.now rows.now starts.now }
    ensures found { IfSome result (λ at. TakesStart table.now rows.now job at now) }
    ensures none { IfNone result ((at : ℤ) → TakesStart table.now rows.now job at now → ⊥) }
{
    let place = job as usize;
    if place >= rows.len() {
        return None;
    }
    match starts.get(place) {
        Some(first) if first <= now => {
            let force = in_force(rows, table);
            launch_at(table, force, job, rows[place], first, now)
        }
        _ => None,
    }
}

/// Whether the launch of the job may be started now.
pub fn takes_start(
    rows: &[JobRow],
    starts: &LeastTree,
    table: &JobTable,
    job: u32,
    at: i64,
    now: i64,
) -> bool
    requires stands { RowsStand rows.now (table_size table.now) }
    requires starts { AreNextStarts table.now rows.now starts.now }
    ensures { IsTrue result ↔ TakesStart table.now rows.now job at now }
{
    match start_at(rows, starts, table, job, now) {
        Some(launch) => launch == at,
        None => false,
    }
}

// The launch of the row's job that may be started now, where the first instant for one has come.
fn launch_at(
    table: &JobTable,
    force: InForce,
    job: u32,
    row: JobRow,
    first: i64,
    now: i64,
) -> Option<i64>
    requires version { force.version < version_count table.now }
    requires job { job < length table.now.jobs }
    requires first { IsFirstToStart table.now force job row first }
    requires come { first ≤ℤ now }
    ensures found { IfSome result (λ at. MayStart table.now force job row at now) }
    ensures none { IfNone result ((at : ℤ) → MayStart table.now force job row at now → ⊥) }
{
    if table.is_anacron(job) {
        date_at(table, force.version, job, row, now)
    } else {
        Some(first)
    }
}

// The date on which the row's job may open now, if it runs by its period.
fn date_at(table: &JobTable, version: u32, job: u32, row: JobRow, now: i64) -> Option<i64>
    requires version { version < version_count table.now }
    requires job { job < length table.now.jobs }
    ensures found { IfSome result (IsJobOpen table.now version job row.last row.cursor now) }
    ensures none { IfNone result ((date : ℤ) → IsJobOpen table.now version job row.last row.cursor now date → ⊥) }
{
    let now = Minute(now);
    if table.window().contains(now) {
        table.anacron_open(version, job, row.last, row.cursor, now)
    } else {
        None
    }
}
