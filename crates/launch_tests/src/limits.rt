//! The largest table: 1,000 jobs.
ghost use Rattle.std.specs.Prelude.{◌≤◌, length, map, IfOk};
ghost use Rattle.due_set.specs.Table.{job_of, AreKindsOfNames, AreNamesDistinct, AreZonesBelow};

use crate::build::{FROM, fields_of};
use due_set::{JobKind, JobSpec, JobTable};
use launch_machine::Machine;
use std::alloc::Global;
use std::test::Fail;
use zone_minutes::{Minute, Window};

const TWENTY_HOURS: Window = Window {
    from: Minute(FROM),
    until: Minute(FROM + 1200),
};

// A thousand jobs, each with a longer name than the one before, that run once an hour.
fn thousand_jobs(alloc: Global) -> Result<Vec<JobSpec>, Fail>
    ensures zones { IfOk result (λ jobs. AreZonesBelow 1 (map job_of jobs.items)) }
    ensures few { IfOk result (λ jobs. length jobs.items ≤ 1000) }
    ensures distinct { IfOk result (λ jobs. AreNamesDistinct (map job_of jobs.items)) }
    ensures kinds { IfOk result (λ jobs. AreKindsOfNames (map job_of jobs.items)) }
{
    let fields = fields_of("30").ok_or("no fields")?;
    let kind = JobKind::Crontab { fields };
    let mut jobs = Vec::new(alloc);
    let mut name = String::new(alloc);
    for place in 0..1000u32 {
        name.push('x')?;
        jobs.push(JobSpec::new(alloc, name.as_str(), 0, kind)?)?;
    }
    Ok(jobs)
}

fn largest_table(alloc: Global) -> Result<JobTable, Fail> {
    Ok(JobTable::in_utc(alloc, TWENTY_HOURS, 0, thousand_jobs(alloc)?)?)
}

#[test]
fn a_thousand_jobs_have_a_launch_table(rt: HostRuntime) -> Result<(), Fail> {
    let table = largest_table(rt.alloc())?;
    let machine = Machine::new(rt.alloc(), &table)?.copy()?;
    let rows = machine.copy_rows(rt.alloc())?;
    assert!(rt; Machine::from_rows(rt.alloc(), &table, rows)?.is_some());
    Ok(())
}
