//! Jobs and tables.
ghost use Rattle.std.specs.Prelude.{◌≡◌, ◌≤◌, IfSome, length};
ghost use Rattle.due_set.specs.Table.{IsKindOfName};
ghost use Rattle.zone_minutes.specs.Window.{IsInWindow, IsWithinLimits};

use cron_fields::{FieldKind, FieldSet, Fields, HashSeed, read_field};
use due_set::{JobKind, JobSpec, JobTable, Period};
use std::alloc::Global;
use std::test::Fail;
use zone_minutes::{Minute, Window};

/// 2024-03-31T00:00Z.
pub const FROM: i64 = 28_530_720;

pub const HOUR: Window = Window {
    from: Minute(FROM),
    until: Minute(FROM + 60),
};

/// Minutes.
pub const DAY: i64 = 1440;

/// The date of the window's first instant, the last of a month.
pub const FIRST_DATE: i64 = FROM / DAY;

pub const THREE_DAYS: Window = Window {
    from: Minute(FROM),
    until: Minute(FROM + 3 * DAY),
};

/// When a job runs.
#[derive(Clone, Copy)]
pub enum When {
    Never,
    /// At these minutes of each hour.
    At(&'static str),
    /// Once in a period, from one minute of the day on and before another.
    Once(Period, u16, u16),
}

// A field of at most 99 bytes.
fn field_of(kind: FieldKind, text: &str) -> Option<FieldSet> {
    let seed = HashSeed {
        owner: "alice",
        command: "true",
    };
    if text.len() < 100 {
        read_field(kind, text, seed).ok()
    } else {
        None
    }
}

/// The fields of an entry that runs at these minutes of each hour.
pub fn fields_of(minutes: &str) -> Option<Fields> {
    Some(Fields {
        minute: field_of(FieldKind::Minute, minutes)?,
        hour: field_of(FieldKind::Hour, "*")?,
        month_day: field_of(FieldKind::MonthDay, "*")?,
        month: field_of(FieldKind::Month, "*")?,
        week_day: field_of(FieldKind::WeekDay, "*")?,
    })
}

// When such a job runs.
fn kind_of_job(when: When) -> Result<JobKind, Fail> {
    match when {
        When::Never => Ok(JobKind::Never),
        When::At(minutes) => {
            let fields = fields_of(minutes).ok_or("no fields")?;
            Ok(JobKind::Crontab { fields })
        }
        When::Once(period, first_minute, last_minute) => Ok(JobKind::Anacron {
            period,
            first_minute,
            last_minute,
        }),
    }
}

// Alice's name of a job that runs so: it has a `/` where that is by a period.
fn alices(kind: JobKind) -> &'static str
    ensures says { IsKindOfName result.now kind }
    ensures length { length result.now ≡ 7 }
{
    match kind {
        JobKind::Anacron { .. } => "alice/1",
        JobKind::Crontab { .. } | JobKind::Never => "alice:1",
    }
}

// Bob's.
fn bobs(kind: JobKind) -> &'static str
    ensures says { IsKindOfName result.now kind }
    ensures length { length result.now ≡ 10 }
{
    match kind {
        JobKind::Anacron { .. } => "bob@home/2",
        JobKind::Crontab { .. } | JobKind::Never => "bob@home:2",
    }
}

/// A table of two jobs that run by UTC, with so many minutes of grace.
pub fn two_jobs(
    alloc: Global,
    window: Window,
    grace: u32,
    first: When,
    second: When,
) -> Result<JobTable, Fail>
    requires limits { IsWithinLimits window }
    requires grace { grace ≤ 525_600 }
{
    let one = kind_of_job(first)?;
    let other = kind_of_job(second)?;
    let mut jobs = Vec::new(alloc);
    jobs.push(JobSpec::new(alloc, alices(one), 0, one)?)?;
    jobs.push(JobSpec::new(alloc, bobs(other), 0, other)?)?;
    Ok(JobTable::in_utc(alloc, window, grace, jobs)?)
}

/// An instant so many minutes after the table's first, if it is in the window.
pub fn instant_in(table: &JobTable, minute: i64) -> Option<Minute>
    ensures { IfSome result (λ t. IsInWindow table.now.window t.0) }
{
    let window = table.window();
    let instant = Minute(window.from.0.checked_add(minute)?);
    if window.contains(instant) {
        Some(instant)
    } else {
        None
    }
}
