//! A version of a table is adopted between launches.
ghost use Rattle.std.specs.Prelude.{◌≡◌, codes, map, IfOk};
ghost use Rattle.due_set.specs.Table.{IsKindOfName, job_of};
ghost use Rattle.launch_machine.specs.Machine.{StandsFor};
ghost use Rattle.launch_tests.specs.Versions.{HasTwoJobs};

use crate::build::{FIRST_DATE, FROM, HOUR, fields_of};
use crate::machine::{Step, chosen, first_difference};
use due_set::{JobKind, JobSpec, JobTable, Period, VersionSpec};
use launch_machine::{Effect, Intent, Machine};
use paxos_base::{Entry, JobRow, Kind};
use std::alloc::Global;
use std::test::Fail;
use zone_minutes::{Minute, ZoneRuns, ZoneSource};

// Up to the adoption: alice's entry is due at minutes 0, 35 and 40.
const STEPS: &[Step] = &[
    Step {
        minute: 0,
        intent: Intent::Start { job: 0, at: FROM },
        next: Some(0),
        entry: Entry::Start {
            job: 0,
            at: FROM,
            now: FROM,
        },
        effect: Effect::Opened,
    },
    Step {
        minute: 0,
        intent: Intent::Call {
            job: 0,
            at: FROM,
            kind: Kind::Launch,
        },
        next: None,
        entry: Entry::End {
            job: 0,
            at: FROM,
            kind: Kind::Launch,
        },
        effect: Effect::Closed,
    },
    // The version's instant hasn't come.
    Step {
        minute: 29,
        intent: Intent::Rest,
        next: Some(35),
        entry: Entry::Table {
            version: 1,
            now: FROM + 29,
        },
        effect: Effect::Ignored,
    },
    Step {
        minute: 35,
        intent: Intent::Start {
            job: 0,
            at: FROM + 35,
        },
        next: Some(35),
        entry: Entry::Start {
            job: 0,
            at: FROM + 35,
            now: FROM + 35,
        },
        effect: Effect::Opened,
    },
    // A launch is open.
    Step {
        minute: 36,
        intent: Intent::Call {
            job: 0,
            at: FROM + 35,
            kind: Kind::Launch,
        },
        next: None,
        entry: Entry::Table {
            version: 1,
            now: FROM + 36,
        },
        effect: Effect::Ignored,
    },
    Step {
        minute: 36,
        intent: Intent::Call {
            job: 0,
            at: FROM + 35,
            kind: Kind::Launch,
        },
        next: None,
        entry: Entry::End {
            job: 0,
            at: FROM + 35,
            kind: Kind::Launch,
        },
        effect: Effect::Closed,
    },
    // It would be before the launch.
    Step {
        minute: 36,
        intent: Intent::Adopt { version: 1 },
        next: Some(40),
        entry: Entry::Table {
            version: 1,
            now: FROM + 34,
        },
        effect: Effect::Ignored,
    },
    // A start is due then.
    Step {
        minute: 39,
        intent: Intent::Adopt { version: 1 },
        next: Some(40),
        entry: Entry::Table {
            version: 1,
            now: FROM + 40,
        },
        effect: Effect::Ignored,
    },
    // The one in force, and one that the table hasn't.
    Step {
        minute: 39,
        intent: Intent::Adopt { version: 1 },
        next: Some(40),
        entry: Entry::Table {
            version: 0,
            now: FROM + 39,
        },
        effect: Effect::Ignored,
    },
    Step {
        minute: 39,
        intent: Intent::Adopt { version: 1 },
        next: Some(40),
        entry: Entry::Table {
            version: 2,
            now: FROM + 39,
        },
        effect: Effect::Ignored,
    },
    Step {
        minute: 39,
        intent: Intent::Adopt { version: 1 },
        next: Some(40),
        entry: Entry::Table {
            version: 1,
            now: FROM + 39,
        },
        effect: Effect::Adopted,
    },
];

// From then on alice's entry is due at minutes 10, 39 and 50, and bob's job may be started from minute 45 on.
const LATER_STEPS: &[Step] = &[
    Step {
        minute: 39,
        intent: Intent::Rest,
        next: Some(45),
        entry: Entry::Table {
            version: 1,
            now: FROM + 39,
        },
        effect: Effect::Ignored,
    },
    Step {
        minute: 39,
        intent: Intent::Rest,
        next: Some(45),
        entry: Entry::Table {
            version: 2,
            now: FROM + 39,
        },
        effect: Effect::Ignored,
    },
    // No start goes by the version before, or by an instant that isn't after the adoption.
    Step {
        minute: 44,
        intent: Intent::Rest,
        next: Some(45),
        entry: Entry::Start {
            job: 0,
            at: FROM + 40,
            now: FROM + 44,
        },
        effect: Effect::Ignored,
    },
    Step {
        minute: 44,
        intent: Intent::Rest,
        next: Some(45),
        entry: Entry::Start {
            job: 0,
            at: FROM + 10,
            now: FROM + 44,
        },
        effect: Effect::Ignored,
    },
    Step {
        minute: 44,
        intent: Intent::Rest,
        next: Some(45),
        entry: Entry::Start {
            job: 0,
            at: FROM + 39,
            now: FROM + 44,
        },
        effect: Effect::Ignored,
    },
    Step {
        minute: 45,
        intent: Intent::Start {
            job: 1,
            at: FIRST_DATE,
        },
        next: Some(45),
        entry: Entry::Start {
            job: 1,
            at: FIRST_DATE,
            now: FROM + 45,
        },
        effect: Effect::Opened,
    },
    Step {
        minute: 45,
        intent: Intent::Call {
            job: 1,
            at: FIRST_DATE,
            kind: Kind::Launch,
        },
        next: Some(50),
        entry: Entry::End {
            job: 1,
            at: FIRST_DATE,
            kind: Kind::Launch,
        },
        effect: Effect::Closed,
    },
    Step {
        minute: 50,
        intent: Intent::Start {
            job: 0,
            at: FROM + 50,
        },
        next: Some(50),
        entry: Entry::Start {
            job: 0,
            at: FROM + 50,
            now: FROM + 50,
        },
        effect: Effect::Opened,
    },
];

// What the steps leave.
const ALICES: JobRow = JobRow {
    job: 0,
    cursor: Some(FROM + 50),
    open_now: Some(FROM + 50),
    last: Some(FROM + 35),
    launched: 2,
    voided: 0,
};

const BOBS: JobRow = JobRow {
    job: 1,
    cursor: Some(FIRST_DATE),
    open_now: None,
    last: Some(FIRST_DATE),
    launched: 1,
    voided: 0,
};

// The table's own row.
const OWN: JobRow = JobRow {
    job: 2,
    cursor: Some(FROM + 39),
    open_now: None,
    last: None,
    launched: 1,
    voided: 0,
};

// A version from an instant on, with an entry of alice's and a job of bob's.
fn version(alloc: Global, from: Minute, minutes: &str, dated: JobKind) -> Result<VersionSpec, Fail>
    requires dated { IsKindOfName (codes "bob/2") dated }
    ensures from { IfOk result (λ version. version.from ≡ from) }
    ensures jobs { IfOk result (λ version. HasTwoJobs (map job_of version.jobs.items)) }
{
    let fields = fields_of(minutes).ok_or("no fields")?;
    let mut jobs = Vec::new(alloc);
    jobs.push(JobSpec::new(alloc, "alice:1", 0, JobKind::Crontab { fields })?)?;
    jobs.push(JobSpec::new(alloc, "bob/2", 0, dated)?)?;
    Ok(VersionSpec { from, jobs })
}

// From half past on alice's entry has other minutes, and bob's job, which never ran before, runs once a day.
fn two_versions(alloc: Global) -> Result<JobTable, Fail> {
    let daily = JobKind::Anacron {
        period: Period::Days(1),
        first_minute: 45,
        last_minute: 1440,
    };
    let mut zones = Vec::new(alloc);
    zones.push(ZoneRuns::build(alloc, &ZoneSource::Fixed { minutes: 0 }, HOUR)?)?;
    let mut versions = Vec::new(alloc);
    versions.push(version(alloc, Minute(FROM), "0,35,40", JobKind::Never)?)?;
    versions.push(version(alloc, Minute(FROM + 30), "10,39,50", daily)?)?;
    Ok(JobTable::assemble_versions(HOUR, 5, zones, versions))
}

// Whether a machine of the machine's rows goes on as it does, whatever the minute.
fn goes_on_from_its_rows(alloc: Global, table: &JobTable, machine: &Machine) -> Result<bool, Fail>
    requires { StandsFor table.now machine.now }
{
    let rows = machine.copy_rows(alloc)?;
    let Some(other) = Machine::from_rows(alloc, table, machine.copy_rows(alloc)?)? else {
        return Ok(false);
    };
    let others = other.copy_rows(alloc)?;
    if others.items != rows.items || other.next_start() != machine.next_start() {
        return Ok(false);
    }
    for minute in 0..60 {
        if chosen(&other, table, minute) != chosen(machine, table, minute) {
            return Ok(false);
        }
    }
    Ok(true)
}

#[test]
fn a_version_is_adopted_between_launches(rt: HostRuntime) -> Result<(), Fail> {
    let table = two_versions(rt.alloc())?;
    let mut machine = Machine::new(rt.alloc(), &table)?;
    assert_eq!(rt; first_difference(&mut machine, &table, STEPS), None);
    let adopted = machine.copy_rows(rt.alloc())?;
    assert_eq!(rt; adopted.items.last(), Some(&OWN));
    assert!(rt; goes_on_from_its_rows(rt.alloc(), &table, &machine)?);
    assert_eq!(rt; first_difference(&mut machine, &table, LATER_STEPS), None);
    let rows = machine.copy_rows(rt.alloc())?;
    assert_eq!(rt; rows.items.as_slice(), [ALICES, BOBS, OWN].as_slice());
    assert!(rt; goes_on_from_its_rows(rt.alloc(), &table, &machine)?);
    Ok(())
}
