//! The report's lines, each by one write.
ghost use Rattle.std.specs.Prelude.{◌≡◌, ◌++◌, ◌∷◌, [], ◌<◌, length, codes, decimal, string_bytes, OnOk};
ghost use Rattle.zone_minutes.specs.Civil.{IsCalendarMinute};
ghost use Rattle.due_set.specs.Table.{job_name};
ghost use Rattle.cluster_sched.specs.Names.{IsNameIn};
ghost use Rattle.report_text.specs.Report.{job_line, row_line};
ghost use Rattle.zone_minutes.specs.Window.{window_line};
ghost use Rattle.report_text.specs.Writes.{Writes};

use crate::count::Counts;
use crate::fault::ReportFault;
use cluster_sched::{SchedRow, write_name};
use cron_io::{OutOfMemory, Sink, write_all};
use due_set::JobTable;
use paxos_base::Kind;
use std::fmt::Write;
use zone_minutes::{Window, write_stamp};

/// Writes the line and its newline at once. The newline stands in `line` then, too.
///
/// # Errors
///
/// `WriteFault` only where a write failed, and `OutOfMemory`. Some front of the line may be written then.
pub fn write_line<K: Sink>(sink: &mut K, line: &mut String) -> Result<(), ReportFault>
    ensures { Writes (K.seen sink.old) (K.seen sink.new) result (string_bytes line.old ++ 10 ∷ []) }
{
    line.push('\n')?;
    write_all(sink, line.as_bytes())?;
    Ok(())
}

fn put_window(line: &mut String, window: Window) -> Result<(), OutOfMemory>
    requires from { IsCalendarMinute window.from.0 }
    requires until { IsCalendarMinute window.until.0 }
    ensures { OnOk result (string_bytes line.new ≡ window_line window) }
{
    line.clear();
    line.push_str("window ")?;
    write_stamp(window.from, line)?;
    line.push(' ')?;
    write_stamp(window.until, line)
}

fn put_counts(line: &mut String, name: &str, counts: Counts) -> Result<(), OutOfMemory>
    ensures { OnOk result (string_bytes line.new ≡ job_line name.now counts.launched counts.voided) }
{
    let Counts { launched, voided } = counts;
    line.clear();
    write!(line, "job {name} launched {launched} void {voided}")?;
    Ok(())
}

fn put_row(line: &mut String, table: &JobTable, row: SchedRow) -> Result<(), OutOfMemory>
    requires { IsNameIn table.now row.name }
    ensures { OnOk result (string_bytes line.new ≡ row_line table.now row) }
{
    line.clear();
    match row.kind {
        Kind::Launch => line.push_str("launch ")?,
        Kind::Void => line.push_str("void ")?,
    }
    write_name(table, row.name, line)
}

/// Writes the text as a line, at once. It is put together in `line`, whatever that has.
///
/// # Errors
///
/// `WriteFault` only where a write failed, and `OutOfMemory`. Some front of the line may be written then.
pub fn write_text<K: Sink>(sink: &mut K, line: &mut String, text: &str) -> Result<(), ReportFault>
    ensures { Writes (K.seen sink.old) (K.seen sink.new) result (text.now ++ 10 ∷ []) }
{
    line.clear();
    line.push_str(text)?;
    write_line(sink, line)
}

/// Writes the line of the window.
pub fn write_window<K: Sink>(
    sink: &mut K,
    line: &mut String,
    window: Window,
) -> Result<(), ReportFault>
    requires from { IsCalendarMinute window.from.0 }
    requires until { IsCalendarMinute window.until.0 }
    ensures { Writes (K.seen sink.old) (K.seen sink.new) result (window_line window ++ 10 ∷ []) }
{
    put_window(line, window)?;
    write_line(sink, line)
}

/// Writes the line of the number of replicas.
pub fn write_members<K: Sink>(
    sink: &mut K,
    line: &mut String,
    members: u8,
) -> Result<(), ReportFault>
    ensures { Writes (K.seen sink.old) (K.seen sink.new) result (codes "replicas " ++ decimal members ++ 10 ∷ []) }
{
    line.clear();
    write!(line, "replicas {members}")?;
    write_line(sink, line)
}

/// Writes the line of the number of jobs.
pub fn write_job_number<K: Sink>(
    sink: &mut K,
    line: &mut String,
    jobs: u32,
) -> Result<(), ReportFault>
    ensures { Writes (K.seen sink.old) (K.seen sink.new) result (codes "jobs " ++ decimal jobs ++ 10 ∷ []) }
{
    line.clear();
    write!(line, "jobs {jobs}")?;
    write_line(sink, line)
}

/// Writes the line of a job.
pub fn write_count<K: Sink>(
    sink: &mut K,
    line: &mut String,
    table: &JobTable,
    job: u32,
    counts: Counts,
) -> Result<(), ReportFault>
    requires { job < length table.now.jobs }
    ensures { Writes (K.seen sink.old) (K.seen sink.new) result
        (job_line (job_name table.now job) counts.launched counts.voided ++ 10 ∷ []) }
{
    put_counts(line, table.name(job), counts)?;
    write_line(sink, line)
}

/// Writes the line of a row.
pub fn write_row<K: Sink>(
    sink: &mut K,
    line: &mut String,
    table: &JobTable,
    row: SchedRow,
) -> Result<(), ReportFault>
    requires { IsNameIn table.now row.name }
    ensures { Writes (K.seen sink.old) (K.seen sink.new) result (row_line table.now row ++ 10 ∷ []) }
{
    put_row(line, table, row)?;
    write_line(sink, line)
}
