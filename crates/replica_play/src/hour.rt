//! The table of jobs of all scenarios, and a disk before a replica's first start.
ghost use Rattle.std.specs.Prelude.{◌≡◌, IfOk};
ghost use Rattle.due_set.specs.Table.{IsKindOfName};

use cron_fields::{FieldKind, FieldSet, Fields, HashSeed, read_field};
use cron_io::OutOfMemory;
use due_set::{JobKind, JobSpec, JobTable};
use launch_machine::Machine;
use paxos_base::{Durable, VoteList};
use std::alloc::Global;
use zone_minutes::{Minute, Window};

// 2024-03-31T00:00Z.
const FROM: i64 = 28_530_720;

/// The hour of the scenarios.
pub const HOUR: Window = Window {
    from: Minute(FROM),
    until: Minute(FROM + 60),
};

// How many minutes late a launch may be.
const GRACE: u32 = 10;

fn field_of(kind: FieldKind, text: &str) -> Option<FieldSet> {
    let seed = HashSeed {
        owner: "alice",
        command: "true",
    };
    if text.len() < 100 {
        read_field(kind, text, seed).ok()
    } else {
        None
    }
}

// Minutes 0, 20 and 40 of each hour.
fn each_third_of_an_hour() -> Option<Fields> {
    Some(Fields {
        minute: field_of(FieldKind::Minute, "0,20,40")?,
        hour: field_of(FieldKind::Hour, "*")?,
        month_day: field_of(FieldKind::MonthDay, "*")?,
        month: field_of(FieldKind::Month, "*")?,
        week_day: field_of(FieldKind::WeekDay, "*")?,
    })
}

// The one job. Its fields can be read.
fn job(alloc: Global) -> Result<JobSpec, OutOfMemory>
    ensures zone { IfOk result (λ job. job.zone ≡ 0) }
    ensures kind { IfOk result (λ job. IsKindOfName job.name job.kind) }
{
    let kind = match each_third_of_an_hour() {
        Some(fields) => JobKind::Crontab { fields },
        None => JobKind::Never,
    };
    JobSpec::new(alloc, "alice:1", 0, kind)
}

/// A table of the hour from 2024-03-31T00:00Z on, at 10 minutes of grace, with a job at minutes 0, 20 and 40.
pub fn hour_table(alloc: Global) -> Result<JobTable, OutOfMemory> {
    let mut jobs = Vec::new(alloc);
    jobs.push(job(alloc)?)?;
    JobTable::in_utc(alloc, HOUR, GRACE, jobs)
}

/// What a replica's disk has before its first start.
pub fn empty_disk(alloc: Global, table: &JobTable) -> Result<Durable, OutOfMemory> {
    let machine = Machine::new(alloc, table)?;
    Ok(Durable {
        tried: 0,
        promised: None,
        votes: VoteList {
            items: Vec::new(alloc),
        },
        base: 0,
        rows: machine.copy_rows(alloc)?,
    })
}
