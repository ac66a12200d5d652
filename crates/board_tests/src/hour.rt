//! A table of an hour, with a job each third of it.
ghost use Rattle.std.specs.Prelude.{◌≡◌, IfOk};
ghost use Rattle.due_set.specs.Table.{IsKindOfName};

use cron_fields::{FieldKind, FieldSet, Fields, HashSeed, read_field};
use cron_io::OutOfMemory;
use due_set::{JobKind, JobSpec, JobTable};
use paxos_base::TableSize;
use std::alloc::Global;
use zone_minutes::{Minute, Window};

/// 2024-03-31T00:00Z.
pub const FROM: i64 = 28_530_720;

/// How large its table is.
pub const SIZE: TableSize = TableSize {
    jobs: 1,
    last_version: 0,
};

const HOUR: Window = Window {
    from: Minute(FROM),
    until: Minute(FROM + 60),
};

fn field_of(kind: FieldKind, text: &str) -> Option<FieldSet> {
    let seed = HashSeed {
        owner: "alice",
        command: "true",
    };
    if text.len() < 100 {
        read_field(kind, text, seed).ok()
    } else {
        None
    }
}

// Minutes 0, 20 and 40 of each hour.
fn each_third_of_an_hour() -> Option<Fields> {
    Some(Fields {
        minute: field_of(FieldKind::Minute, "0,20,40")?,
        hour: field_of(FieldKind::Hour, "*")?,
        month_day: field_of(FieldKind::MonthDay, "*")?,
        month: field_of(FieldKind::Month, "*")?,
        week_day: field_of(FieldKind::WeekDay, "*")?,
    })
}

// The one job. Its fields can be read.
fn job(alloc: Global) -> Result<JobSpec, OutOfMemory>
    ensures zone { IfOk result (λ job. job.zone ≡ 0) }
    ensures kind { IfOk result (λ job. IsKindOfName job.name job.kind) }
{
    let kind = match each_third_of_an_hour() {
        Some(fields) => JobKind::Crontab { fields },
        None => JobKind::Never,
    };
    JobSpec::new(alloc, "alice:1", 0, kind)
}

pub fn hour_table(alloc: Global) -> Result<JobTable, OutOfMemory> {
    let mut jobs = Vec::new(alloc);
    jobs.push(job(alloc)?)?;
    JobTable::in_utc(alloc, HOUR, 10, jobs)
}
