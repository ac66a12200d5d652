//! An hour without jobs, and one with a job.
ghost use Rattle.std.specs.Prelude.{IfOk};
ghost use Rattle.rounds_tests.specs.Plays.{AreFourHours, IsHour};

use cron_fields::{FieldKind, FieldSet, Fields, HashSeed, read_field};
use due_set::{JobKind, JobSpec, JobTable};
use std::alloc::Global;
use std::test::*;
use zone_minutes::{Minute, Window};

/// 2024-03-31T00:00Z, the first minute of the window.
pub const FROM: Minute = Minute(28_530_720);

/// An instant within it.
pub const LATER: Minute = Minute(28_530_730);

/// The hour from then on.
pub const HOUR: Window = Window {
    from: FROM,
    until: Minute(28_530_780),
};

fn field_of(kind: FieldKind, text: &str) -> Option<FieldSet> {
    let seed = HashSeed {
        owner: "alice",
        command: "true",
    };
    if text.len() < 100 {
        read_field(kind, text, seed).ok()
    } else {
        None
    }
}

/// 2024-03-31T01:00Z, an instant within the four hours.
pub const TENS: Minute = Minute(28_530_780);

const FOUR_HOURS: Window = Window {
    from: FROM,
    until: Minute(28_530_960),
};

/// A job runs at these minutes of each hour.
pub fn each_hour(minutes: &str) -> Option<Fields> {
    Some(Fields {
        minute: field_of(FieldKind::Minute, minutes)?,
        hour: field_of(FieldKind::Hour, "*")?,
        month_day: field_of(FieldKind::MonthDay, "*")?,
        month: field_of(FieldKind::Month, "*")?,
        week_day: field_of(FieldKind::WeekDay, "*")?,
    })
}

/// The hour, in which no job runs.
pub fn empty_table(alloc: Global) -> Result<JobTable, Fail>
    ensures { IfOk result (λ table. IsHour table.window) }
{
    Ok(JobTable::in_utc(alloc, HOUR, 10, Vec::new(alloc))?)
}

/// The hour, in which a job runs each twenty minutes.
pub fn table_of_one(alloc: Global) -> Result<JobTable, Fail>
    ensures { IfOk result (λ table. IsHour table.window) }
{
    let fields = each_hour("*/20").ok_or("no fields")?;
    let mut jobs = Vec::new(alloc);
    jobs.push(JobSpec::new(alloc, "alice:1", 0, JobKind::Crontab { fields })?)?;
    Ok(JobTable::in_utc(alloc, HOUR, 10, jobs)?)
}

/// Four hours, in which a job runs each ten minutes.
pub fn table_of_tens(alloc: Global) -> Result<JobTable, Fail>
    ensures { IfOk result (λ table. AreFourHours table.window) }
{
    let fields = each_hour("*/10").ok_or("no fields")?;
    let mut jobs = Vec::new(alloc);
    jobs.push(JobSpec::new(alloc, "alice:1", 0, JobKind::Crontab { fields })?)?;
    Ok(JobTable::in_utc(alloc, FOUR_HOURS, 240, jobs)?)
}
