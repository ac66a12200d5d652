//! The tables of jobs: an hour with no job, one or two.
ghost use Rattle.std.specs.Prelude.{◌≡◌, IfOk, false};
ghost use Rattle.due_set.specs.Table.{IsKindOfName, is_period_name};

use cron_fields::{FieldKind, FieldSet, Fields, HashSeed, read_field};
use cron_io::OutOfMemory;
use due_set::{JobKind, JobSpec, JobTable};
use std::alloc::Global;
use zone_minutes::{Minute, Window};

// 2024-03-31T00:00Z.
const FROM: i64 = 28_530_720;

/// The hour that every table is of.
pub const HOUR: Window = Window {
    from: Minute(FROM),
    until: Minute(FROM + 60),
};

// How many minutes late a launch may be.
const GRACE: u32 = 10;

fn field_of(kind: FieldKind, text: &str) -> Option<FieldSet> {
    let seed = HashSeed {
        owner: "alice",
        command: "true",
    };
    if text.len() < 100 {
        read_field(kind, text, seed).ok()
    } else {
        None
    }
}

// Minutes 0, 20 and 40 of each hour.
fn each_third_of_an_hour() -> Option<Fields> {
    Some(Fields {
        minute: field_of(FieldKind::Minute, "0,20,40")?,
        hour: field_of(FieldKind::Hour, "*")?,
        month_day: field_of(FieldKind::MonthDay, "*")?,
        month: field_of(FieldKind::Month, "*")?,
        week_day: field_of(FieldKind::WeekDay, "*")?,
    })
}

// A job of that name. Its fields can be read.
fn job(alloc: Global, name: &str) -> Result<JobSpec, OutOfMemory>
    requires plain { is_period_name name.now ≡ false }
    ensures name { IfOk result (λ job. job.name ≡ name.now) }
    ensures zone { IfOk result (λ job. job.zone ≡ 0) }
    ensures kind { IfOk result (λ job. IsKindOfName job.name job.kind) }
{
    let kind = match each_third_of_an_hour() {
        Some(fields) => JobKind::Crontab { fields },
        None => JobKind::Never,
    };
    JobSpec::new(alloc, name, 0, kind)
}

fn no_job(alloc: Global) -> Result<JobTable, OutOfMemory> {
    JobTable::in_utc(alloc, HOUR, GRACE, Vec::new(alloc))
}

fn one_job(alloc: Global) -> Result<JobTable, OutOfMemory> {
    let mut jobs = Vec::new(alloc);
    jobs.push(job(alloc, "alice:1")?)?;
    JobTable::in_utc(alloc, HOUR, GRACE, jobs)
}

fn two_jobs(alloc: Global) -> Result<JobTable, OutOfMemory> {
    let mut jobs = Vec::new(alloc);
    jobs.push(job(alloc, "alice:1")?)?;
    jobs.push(job(alloc, "alice:2")?)?;
    JobTable::in_utc(alloc, HOUR, GRACE, jobs)
}

/// The tables of the hour from 2024-03-31T00:00Z on, at 10 minutes of grace, whose jobs are due at minutes 0, 20 and 40.
#[derive(Drop)]
pub struct Tables {
    alloc: Global,
    none: JobTable,
    one: JobTable,
    two: JobTable,
}

impl Tables {
    /// The three of them.
    pub fn new(alloc: Global) -> Result<Tables, OutOfMemory> {
        Ok(Tables {
            alloc,
            none: no_job(alloc)?,
            one: one_job(alloc)?,
            two: two_jobs(alloc)?,
        })
    }

    /// Where memory is taken from.
    pub fn alloc(&self) -> Global {
        self.alloc
    }

    /// The one of that many jobs.
    pub fn of(&self, jobs: Jobs) -> &JobTable {
        match jobs {
            Jobs::None => &self.none,
            Jobs::One => &self.one,
            Jobs::Two => &self.two,
        }
    }
}

/// How many jobs a table has.
#[derive(Clone, Copy, Debug, PartialEq, Eq)]
pub enum Jobs {
    None,
    One,
    Two,
}
