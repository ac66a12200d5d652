//! Windows, entries and tables of one job.
ghost use Rattle.std.specs.Prelude.{◌≡◌, length, IfOk, IfSome};
ghost use Rattle.zone_minutes.specs.Window.{IsInWindow, IsWithinLimits};
ghost use Rattle.due_set.specs.Table.{IsKindOfName};

use cron_fields::{FieldKind, FieldSet, Fields, HashSeed, read_field};
use due_set::{JobKind, JobSpec, JobTable};
use std::alloc::Global;
use std::test::Fail;
use zone_minutes::{Minute, Window, ZoneRuns, ZoneSource, read_stamp};

pub const UTC: ZoneSource<'static> = ZoneSource::Fixed { minutes: 0 };

/// From -10:00 to +14:00 on 2011-12-30, past the whole of that day.
pub const SAMOA: &[u8] =
    b"TZif2\0\0\0\0\0\0\0\0\0\0\0\0\0\0\0\0\0\0\0\0\0\0\0\0\0\0\0\0\0\0\x01\0\0\0\x02\0\0\0\x08N\xfd\
    \x8b\xa0\x01\xff\xffs`\0\0\0\0\xc4\xe0\0\x04-10\0+14\0TZif2\0\0\0\0\0\0\0\0\0\0\0\0\0\0\0\0\0\0\
    \0\0\0\0\0\0\0\0\0\0\0\0\x01\0\0\0\x02\0\0\0\x08\0\0\0\0N\xfd\x8b\xa0\x01\xff\xffs`\0\0\0\0\xc4\
    \xe0\0\x04-10\0+14\0\n<+14>-14\n";

/// The window of two stamps.
pub fn window_of(from: &str, until: &str) -> Result<Window, Fail>
    ensures { IfOk result IsWithinLimits }
{
    let window = Window {
        from: read_stamp(from).ok_or("no stamp")?,
        until: read_stamp(until).ok_or("no stamp")?,
    };
    if window.is_within_limits() {
        Ok(window)
    } else {
        Err(Fail::from("no window"))
    }
}

// A field of at most 99 bytes.
fn field_of(kind: FieldKind, text: Option<&str>) -> Option<FieldSet> {
    let text = text?;
    let seed = HashSeed {
        owner: "alice",
        command: "true",
    };
    if text.len() < 100 {
        read_field(kind, text, seed).ok()
    } else {
        None
    }
}

/// The five fields of an entry.
pub fn fields_of(entry: &str) -> Option<Fields> {
    let mut parts = entry.split(' ');
    Some(Fields {
        minute: field_of(FieldKind::Minute, parts.next())?,
        hour: field_of(FieldKind::Hour, parts.next())?,
        month_day: field_of(FieldKind::MonthDay, parts.next())?,
        month: field_of(FieldKind::Month, parts.next())?,
        week_day: field_of(FieldKind::WeekDay, parts.next())?,
    })
}

// A name of a job that runs so.
fn name_of(kind: JobKind) -> &'static str
    ensures { IsKindOfName result.now kind }
{
    match kind {
        JobKind::Anacron { .. } => "alice/backup",
        JobKind::Crontab { .. } | JobKind::Never => "alice:1",
    }
}

/// A table of one job, at a grace of five minutes, in a zone.
pub fn table_in(
    alloc: Global,
    window: Window,
    source: &ZoneSource<'_>,
    kind: JobKind,
) -> Result<JobTable, Fail>
    requires { IsWithinLimits window }
    ensures { IfOk result (λ table. (table.window ≡ window) × (length table.jobs ≡ 1)) }
{
    if !source.is_in_range() {
        return Err(Fail::from("no offset"));
    }
    let mut zones = Vec::new(alloc);
    zones.push(ZoneRuns::build(alloc, source, window)?)?;
    let mut jobs = Vec::new(alloc);
    jobs.push(JobSpec::new(alloc, name_of(kind), 0, kind)?)?;
    Ok(JobTable::assemble(window, 5, zones, jobs))
}

/// A table of an entry alone.
pub fn table_of_entry(
    alloc: Global,
    window: Window,
    source: &ZoneSource<'_>,
    entry: &str,
) -> Result<JobTable, Fail>
    requires { IsWithinLimits window }
    ensures { IfOk result (λ table. (table.window ≡ window) × (length table.jobs ≡ 1)) }
{
    let fields = fields_of(entry).ok_or("no fields")?;
    table_in(alloc, window, source, JobKind::Crontab { fields })
}

/// The instant of a stamp, if it is in the table's window.
pub fn instant_in(table: &JobTable, stamp: &str) -> Option<Minute>
    ensures { IfSome result (λ t. IsInWindow table.now.window t.0) }
{
    let instant = read_stamp(stamp)?;
    if table.window().contains(instant) {
        Some(instant)
    } else {
        None
    }
}
