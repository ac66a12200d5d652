//! A table of two versions, in which an entry moves to other minutes.
ghost use Rattle.std.specs.Prelude.{◌≡◌, length, map, IfOk};
ghost use Rattle.due_set.specs.Table.{job_of, version_count};
ghost use Rattle.calendar_tests.specs.Versions.{HasOneEntry, hour};

use crate::build::{UTC, fields_of};
use due_set::{JobKind, JobSpec, JobTable, VersionSpec};
use std::alloc::Global;
use std::test::*;
use zone_minutes::{Minute, Window, ZoneRuns, read_stamp};

/// 2024-03-31T00:00Z.
const FROM: Minute = Minute(28_530_720);

const HOUR: Window = Window {
    from: FROM,
    until: Minute(28_530_780),
};

/// 2024-03-31T00:30Z.
const HALF: Minute = Minute(28_530_750);

// A version from an instant on, with an entry of alice's.
fn version(alloc: Global, from: Minute, entry: &str) -> Result<VersionSpec, Fail>
    ensures from { IfOk result (λ version. version.from ≡ from) }
    ensures entry { IfOk result (λ version. HasOneEntry (map job_of version.jobs.items)) }
{
    let fields = fields_of(entry).ok_or("no fields")?;
    let mut jobs = Vec::new(alloc);
    jobs.push(JobSpec::new(alloc, "alice:1", 0, JobKind::Crontab { fields })?)?;
    Ok(VersionSpec { from, jobs })
}

// Alice's entry runs each twenty minutes, and from half past on at minutes 10 and 50.
fn two_versions(alloc: Global) -> Result<JobTable, Fail>
    ensures versions { IfOk result (λ table. version_count table ≡ 2) }
    ensures jobs { IfOk result (λ table. length table.jobs ≡ 1) }
    ensures window { IfOk result (λ table. table.window ≡ hour) }
{
    let mut zones = Vec::new(alloc);
    zones.push(ZoneRuns::build(alloc, &UTC, HOUR)?)?;
    let mut versions = Vec::new(alloc);
    versions.push(version(alloc, FROM, "0,20,40 * * * *")?)?;
    versions.push(version(alloc, HALF, "10,50 * * * *")?)?;
    Ok(JobTable::assemble_versions(HOUR, 5, zones, versions))
}

#[test]
fn versions_are_told_apart(rt: HostRuntime) -> Result<(), Fail> {
    let table = two_versions(rt.alloc())?;
    assert_eq!(rt; table.versions(), 2);
    assert_eq!(rt;
        (table.version_from(0), table.version_from(1)),
        (FROM, HALF)
    );
    assert_eq!(rt; (table.count_due(0, 0), table.count_due(1, 0)), (3, 2));
    assert_eq!(rt;
        table.next_due(0, 0, Some(HALF)),
        read_stamp("2024-03-31T00:40Z")
    );
    assert_eq!(rt;
        table.next_due(1, 0, Some(HALF)),
        read_stamp("2024-03-31T00:50Z")
    );
    assert_eq!(rt;
        (table.is_due(0, 0, FROM), table.is_due(1, 0, FROM)),
        (true, false)
    );
    Ok(())
}
