//! What a leader does next.
ghost use Rattle.std.specs.Prelude.{◌<◌, ℤ, length, IfSome, IfNone};
ghost use Rattle.zone_minutes.specs.Window.{IsInWindow};
ghost use Rattle.paxos_base.specs.Rows.{RowsStand};
ghost use Rattle.due_set.specs.Table.{version_count};
ghost use Rattle.launch_machine.specs.Clerk.{table_size, NoStart};
ghost use Rattle.launch_machine.specs.Answers.{IsCallKind};
ghost use Rattle.launch_machine.specs.Intent.{MayCall, NoCall, IsFirstCall, IsFirstStart};
ghost use Rattle.launch_machine.specs.Machine.{AreCalls, AreNextStarts};

use crate::force::in_force;
use crate::next::start_at;
use due_set::{JobTable, Kind2};
use min_tree::LeastTree;
use paxos_base::{JobRow, Kind};
use zone_minutes::Minute;

// The job's launch, if it is open and may be called.
fn call_at(rows: &[JobRow], table: &JobTable, job: u32, now: Minute) -> Option<i64>
    requires stands { RowsStand rows.now (table_size table.now) }
    requires job { job < length table.now.jobs }
    requires inside { IsInWindow table.now.window now.0 }
    ensures found { IfSome result (λ at. MayCall table.now rows.now job at now.0) }
    ensures none { IfNone result ((at : ℤ) → MayCall table.now rows.now job at now.0 → ⊥) }
{
    let row = rows[job as usize];
    row.open_now?;
    let at = row.cursor?;
    let version = in_force(rows, table).version;
    if table.may_call(version, job, at, now) {
        Some(at)
    } else {
        None
    }
}

/// The first job whose launch may be called, and the launch.
pub fn first_call(
    rows: &[JobRow],
    calls: &LeastTree,
    table: &JobTable,
    now: Minute,
) -> Option<(u32, i64)>
    requires stands { RowsStand rows.now (table_size table.now) }
    requires calls { AreCalls table.now rows.now calls.now }
    requires inside { IsInWindow table.now.window now.0 }
    ensures found { IfSome result (λ first. IsFirstCall table.now rows.now now.0 first.0 first.1) }
    ensures none { IfNone result (NoCall table.now rows.now now.0) }
{
    let jobs = table.jobs() as usize;
    let mut from = 0;
    'open: while from < jobs {
        let place = calls.first_at_most(from, now.0)?;
        if place >= jobs {
            return None;
        }
        let job = place as u32;
        if let Some(at) = call_at(rows, table, job, now) {
            return Some((job, at));
        }
        from = place + 1;
    }
    None
}

/// The first job whose start would take effect, and its launch.
#[inline(always)]
pub fn first_start(
    rows: &[JobRow],
    starts: &LeastTree,
    table: &JobTable,
    now: Minute,
) -> Option<(u32, i64)>
    requires stands { RowsStand rows.now (table_size table.now) }
    requires starts { AreNextStarts table.now rows.now starts.now }
    ensures found { IfSome result (λ first. IsFirstStart table.now rows.now now.0 first.0 first.1) }
    ensures none { IfNone result (NoStart table.now rows.now now.0) }
{
    let jobs = table.jobs() as usize;
    let mut from = 0;
    'idle: while from < jobs {
        let place = starts.first_at_most(from, now.0)?;
        let job = place as u32;
        if let Some(at) = start_at(rows, starts, table, job, now.0) {
            return Some((job, at));
        }
        from = place + 1;
    }
    None
}

/// How a launch ends that is called now, by a version.
pub fn call_kind(table: &JobTable, version: u32, job: u32, at: i64, now: Minute) -> Kind
    requires version { version < version_count table.now }
    requires job { job < length table.now.jobs }
    requires inside { IsInWindow table.now.window now.0 }
    ensures { IsCallKind table.now version job at now.0 result }
{
    match table.call_kind(version, job, at, now) {
        Kind2::OnTime => Kind::Launch,
        Kind2::Late => Kind::Void,
    }
}
