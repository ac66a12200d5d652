//! The due list of a table.
ghost use Rattle.std.specs.Prelude.{◌≡◌, ◌<◌, ◌++◌, ◌∷◌, [], length, map, All, IfOk, OnOk, string_bytes};
ghost use Rattle.std.specs.List.{range_with_len};
ghost use Rattle.jiff.specs.Types.{TimeZone};
ghost use Rattle.zone_minutes.specs.Civil.{IsCalendarMinute};
ghost use Rattle.due_set.specs.Table.{Job, IsJobDue, IsJobIn, version_count};
ghost use Rattle.cron_io.specs.Lines.{text_of_lines};
ghost use Rattle.due_list.specs.DueText.{AreEntryLines, AreLinesOfJob, AreLinesOfVersion, IsDueText, anacron_line, due_line, due_job_line, local_text};
ghost use Rattle.due_list.specs.Listing.{WritesListing};
ghost use Rattle.due_list.specs.Parts.{AppendsLines, AppendsParts};

use crate::dues::dues_of;
use crate::fault::ListFault;
use crate::write::write_text;
use cluster_sched::{Name, write_name};
use cron_io::{OutOfMemory, Sink};
use due_set::{JobKind, JobTable};
use std::alloc::Global;
use std::fmt::Write;
use zone_minutes::{Minute, write_stamp};

// Appends a civil minute as YYYY-MM-DDTHH:MM.
fn put_local(into: &mut String, minute: i64) -> Result<(), OutOfMemory>
    requires { IsCalendarMinute minute }
    ensures { OnOk result (string_bytes into.new ≡ string_bytes into.old ++ local_text minute) }
{
    write_stamp(Minute(minute), into)?;
    // The stamp's `Z` would say that it is UTC.
    into.pop();
    Ok(())
}

// Appends the line of a due instant.
fn put_due(
    into: &mut String,
    table: &JobTable,
    version: u32,
    job: u32,
    at: Minute,
) -> Result<(), OutOfMemory>
    requires version { version < version_count table.now }
    requires job { job < length table.now.jobs }
    requires due { IsJobDue table.now version job at.0 }
    ensures { OnOk result ((j : Job) (zone : TimeZone) → IsJobIn table.now version job j zone
        → string_bytes into.new ≡ string_bytes into.old ++ (due_line table.now job zone at.0 ++ 10 ∷ [])) }
{
    let shown = table.local_of(version, job, at);
    into.push_str("due ")?;
    write_name(table, Name { job, at: at.0 }, into)?;
    into.push(' ')?;
    put_local(into, shown)?;
    into.push('\n')?;
    Ok(())
}

// Appends the lines of due instants.
fn put_dues(
    into: &mut String,
    table: &JobTable,
    version: u32,
    job: u32,
    dues: &[Minute],
) -> Result<(), OutOfMemory>
    requires version { version < version_count table.now }
    requires job { job < length table.now.jobs }
    requires due { All (λ at. IsJobDue table.now version job at.0) dues.now }
    ensures { OnOk result ((j : Job) (zone : TimeZone) → IsJobIn table.now version job j zone
        → string_bytes into.new ≡ string_bytes into.old ++ text_of_lines (map (λ at. due_line table.now job zone at.0) dues.now)) }
{
    for at in dues {
        put_due(into, table, version, job, *at)?;
    }
    Ok(())
}

// Appends the line of a job that has so many due instants in a version.
fn put_count(into: &mut String, name: &str, version: u32, count: usize) -> Result<(), OutOfMemory>
    ensures { OnOk result (string_bytes into.new ≡ string_bytes into.old ++ (due_job_line name.now version count ++ 10 ∷ [])) }
{
    write!(into, "job {name} version {version} count {count}\n")?;
    Ok(())
}

// Appends the line of a job that runs by its period in a version.
fn put_anacron(into: &mut String, name: &str, version: u32) -> Result<(), OutOfMemory>
    ensures { OnOk result (string_bytes into.new ≡ string_bytes into.old ++ (anacron_line name.now version ++ 10 ∷ [])) }
{
    write!(into, "anacron {name} version {version}\n")?;
    Ok(())
}

// Appends the lines of a job that doesn't run by its period in a version.
fn put_entry(
    alloc: Global,
    into: &mut String,
    table: &JobTable,
    version: u32,
    job: u32,
) -> Result<(), OutOfMemory>
    requires version { version < version_count table.now }
    requires job { job < length table.now.jobs }
    ensures { OnOk result ((j : Job) (zone : TimeZone) → IsJobIn table.now version job j zone
        → AppendsLines (string_bytes into.old) (string_bytes into.new) (AreEntryLines table.now version job j zone)) }
{
    let dues = dues_of(alloc, table, version, job)?;
    put_count(into, table.name(job), version, dues.len())?;
    put_dues(into, table, version, job, &dues)
}

// Appends the lines of a job, as a version has it.
fn put_job(
    alloc: Global,
    into: &mut String,
    table: &JobTable,
    version: u32,
    job: u32,
) -> Result<(), OutOfMemory>
    requires version { version < version_count table.now }
    requires job { job < length table.now.jobs }
    ensures { OnOk result (AppendsLines (string_bytes into.old) (string_bytes into.new) (AreLinesOfJob table.now version job)) }
{
    let name = table.name(job);
    match table.kind(version, job) {
        JobKind::Anacron { .. } => put_anacron(into, name, version),
        JobKind::Crontab { .. } | JobKind::Never => put_entry(alloc, into, table, version, job),
    }
}

// Appends the lines of all jobs, as a version has them.
fn put_jobs(
    alloc: Global,
    into: &mut String,
    table: &JobTable,
    version: u32,
) -> Result<(), OutOfMemory>
    requires { version < version_count table.now }
    ensures { OnOk result (AppendsLines (string_bytes into.old) (string_bytes into.new) (AreLinesOfVersion table.now version)) }
{
    for job in 0..table.jobs() {
        put_job(alloc, into, table, version, job)?;
    }
    Ok(())
}

// Appends the lines of all versions.
fn put_versions(alloc: Global, into: &mut String, table: &JobTable) -> Result<(), OutOfMemory>
    ensures { OnOk result (AppendsParts (AreLinesOfVersion table.now) (range_with_len 0 (version_count table.now))
        (string_bytes into.old) (string_bytes into.new)) }
{
    for version in 0..table.versions() {
        put_jobs(alloc, into, table, version)?;
    }
    Ok(())
}

// The due list of a table.
fn due_text(alloc: Global, table: &JobTable) -> Result<String, OutOfMemory>
    ensures { IfOk result (λ text. IsDueText table.now (string_bytes text)) }
{
    let mut text = String::from_str(alloc, "cron due 1\n")?;
    put_versions(alloc, &mut text, table)?;
    text.push_str("end\n")?;
    Ok(text)
}

/// Writes the due list of a table: for each version in order, and in it for each job in order, a line with its name and how
/// many due instants it has there, and for each of these the launch's name and what the clock of the job's zone shows then; for
/// a job that runs by its period its name alone.
///
/// # Errors
///
/// `WriteFault` only where a write failed: then some front of the list may be written. `OutOfMemory`: then nothing is written.
pub fn write_due<K: Sink>(alloc: Global, sink: &mut K, table: &JobTable) -> Result<(), ListFault>
    ensures { WritesListing (K.seen sink.old) (K.seen sink.new) result (IsDueText table.now) }
{
    let text = due_text(alloc, table)?;
    write_text(sink, &text)
}
