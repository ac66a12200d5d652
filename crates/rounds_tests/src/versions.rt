//! A walk over the adoption of a version: an entry moves to other minutes at half past.
ghost use Rattle.std.specs.Prelude.{◌≡◌, map, IfOk};
ghost use Rattle.due_set.specs.Table.{job_of};
ghost use Rattle.rounds_tests.specs.Plays.{IsHour};
ghost use Rattle.rounds_tests.specs.Versions.{IsAlicesEntry};

use crate::hour::{FROM, HOUR, each_hour};
use crate::worlds::world_after;
use cluster_sched::{Name, SchedRow};
use due_set::{JobKind, JobSpec, JobTable, VersionSpec};
use paxos_base::Kind;
use script_text::Command;
use std::alloc::Global;
use std::test::*;
use zone_minutes::{Minute, ZoneRuns, ZoneSource};

/// 2024-03-31T00:30Z.
const HALF: Minute = Minute(28_530_750);

/// 2024-03-31T00:59Z, the last minute of the hour.
const LAST: Minute = Minute(28_530_779);

// A version from an instant on, with an entry of alice's.
fn version(alloc: Global, from: Minute, minutes: &str) -> Result<VersionSpec, Fail>
    ensures from { IfOk result (λ version. version.from ≡ from) }
    ensures entry { IfOk result (λ version. IsAlicesEntry (map job_of version.jobs.items)) }
{
    let fields = each_hour(minutes).ok_or("no fields")?;
    let mut jobs = Vec::new(alloc);
    jobs.push(JobSpec::new(alloc, "alice:1", 0, JobKind::Crontab { fields })?)?;
    Ok(VersionSpec { from, jobs })
}

// Alice's entry runs each twenty minutes, and from half past on at minutes 10 and 50.
fn two_versions(alloc: Global) -> Result<JobTable, Fail>
    ensures { IfOk result (λ table. IsHour table.window) }
{
    let mut zones = Vec::new(alloc);
    zones.push(ZoneRuns::build(alloc, &ZoneSource::Fixed { minutes: 0 }, HOUR)?)?;
    let mut versions = Vec::new(alloc);
    versions.push(version(alloc, FROM, "0,20,40")?)?;
    versions.push(version(alloc, HALF, "10,50")?)?;
    Ok(JobTable::assemble_versions(HOUR, 5, zones, versions))
}

// A launch of alice's entry, made at its instant by the first replica.
fn launch_at(minute: i64) -> SchedRow {
    let at = FROM.0.wrapping_add(minute);
    SchedRow {
        name: Name { job: 0, at },
        kind: Kind::Launch,
        now: Minute(at),
        by: 0,
    }
}

#[test]
fn a_walk_adopts_a_version(rt: HostRuntime) -> Result<(), Fail> {
    let table = two_versions(rt.alloc())?;
    let commands = [Command::Walk { to: LAST }];
    let world = world_after(&rt, rt.alloc(), &table, 3, &commands, 1)?;
    let held = world.book().ledger().held();
    let launches = [launch_at(0), launch_at(20), launch_at(50)];
    assert!(rt; held == launches.as_slice(), "{held:?}");
    Ok(())
}
