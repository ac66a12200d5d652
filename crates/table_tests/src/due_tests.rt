//! The instants at which jobs are due, by the zones that a run names.
ghost use Rattle.std.specs.Prelude.{◌<◌, length};

use crate::job_tests::table_of;
use crate::rows::sides;
use due_set::JobTable;
use std::process::Abort;
use std::test::Fail;
use zone_minutes::read_stamp;

const SPRING: &str = "2024-03-31T00:00Z 2024-03-31T04:00Z";

const AUTUMN: &str = "2024-10-27T00:00Z 2024-10-27T04:00Z";

// The job is due at these instants, and at no others.
fn assert_due(rt: &impl Abort, table: &JobTable, job: u32, stamps: &str)
    requires { job < length table.now.jobs }
{
    let mut last = None;
    for stamp in stamps.split_whitespace() {
        last = table.next_due(0, job, last);
        assert_eq!(rt; last, read_stamp(stamp), "{stamp}");
    }
    assert_eq!(rt; table.next_due(0, job, last), None);
}

// The table has these jobs in order, a line each: its name, and the instants at which it is due.
fn assert_jobs(rt: &impl Abort, table: &JobTable, want: &str) -> Result<(), Fail> {
    let mut jobs = 0;
    for line in want.lines() {
        let (name, stamps) = line.split_once(' ').ok_or("a job without a blank")?;
        assert!(rt; jobs < table.jobs());
        assert_eq!(rt; table.name(jobs), name);
        assert_due(rt, table, jobs, stamps);
        jobs += 1;
    }
    assert_eq!(rt; table.jobs(), jobs);
    Ok(())
}

const PARIS: &str =
    "zone Europe/Paris posix CET-1CEST,M3.5.0,M10.5.0/3\ncrontab alice UTC 2\nCRON_TZ=Europe/Paris\n";

// The skipped half past two runs at once.
const IN_SPRING: &str = "\
30 2 * * * => 2024-03-31T01:00Z
*/30 * * * * => 2024-03-31T00:00Z 2024-03-31T00:30Z 2024-03-31T01:00Z 2024-03-31T01:30Z 2024-03-31T02:00Z 2024-03-31T02:30Z 2024-03-31T03:00Z 2024-03-31T03:30Z
0,30 2,3 * * * => 2024-03-31T01:00Z 2024-03-31T01:30Z
";

#[test]
fn the_night_on_which_paris_skips_an_hour(rt: HostRuntime) -> Result<(), Fail> {
    for row in IN_SPRING.lines() {
        let (entry, want) = sides(rt.alloc(), row)?;
        let sections = format!(in rt.alloc(); "{PARIS}{entry} x\n")?;
        let table = table_of(rt.alloc(), SPRING, &sections)?;
        assert!(rt; 0 < table.jobs());
        assert_due(&rt, &table, 0, &want);
    }
    Ok(())
}

// The repeated half past two doesn't run again.
const IN_AUTUMN: &str = "\
30 2 * * * => 2024-10-27T00:30Z
*/30 * * * * => 2024-10-27T00:00Z 2024-10-27T00:30Z 2024-10-27T01:00Z 2024-10-27T01:30Z 2024-10-27T02:00Z 2024-10-27T02:30Z 2024-10-27T03:00Z 2024-10-27T03:30Z
";

#[test]
fn the_night_on_which_paris_repeats_an_hour(rt: HostRuntime) -> Result<(), Fail> {
    for row in IN_AUTUMN.lines() {
        let (entry, want) = sides(rt.alloc(), row)?;
        let sections = format!(in rt.alloc(); "{PARIS}{entry} x\n")?;
        let table = table_of(rt.alloc(), AUTUMN, &sections)?;
        assert!(rt; 0 < table.jobs());
        assert_due(&rt, &table, 0, &want);
    }
    Ok(())
}

const ZONES: &str = "zone I fixed +05:30\ncrontab alice I 7\n0 6 * * * x\nCRON_TZ=J\n0 0 * * * x\n\
    CRON_TZ=UTC\n0 3 * * * x\nCRON_TZ=J\n30 0 * * * x\n\
    crontab bob UTC 1\n0 2 * * * x\n\
    crontab carol J 2\n0 0 * * * x\n30 1 * * * x\n\
    zone J fixed -01:00\n";

const BY_ZONES: &str = "alice:1 2024-03-31T00:30Z
alice:2 2024-03-31T01:00Z
alice:3 2024-03-31T03:00Z
alice:4 2024-03-31T01:30Z
bob:1 2024-03-31T02:00Z
carol:1 2024-03-31T01:00Z
carol:2 2024-03-31T02:30Z
";

#[test]
fn the_zone_of_a_section_and_of_its_lines(rt: HostRuntime) -> Result<(), Fail> {
    let table = table_of(rt.alloc(), SPRING, ZONES)?;
    assert_jobs(&rt, &table, BY_ZONES)
}

/// From -10:00 to +14:00 at 2011-12-30T10:00Z, past the whole of that day.
const SAMOA: &str = "zone Samoa tzif \
    545a6966320000000000000000000000000000000000000000000000000000000000000100000002\
    000000084efd8ba001ffff736000000000c4e000042d3130002b313400\
    545a6966320000000000000000000000000000000000000000000000000000000000000100000002\
    00000008000000004EFD8BA001FFFF736000000000C4E000042D3130002B313400\
    0a3c2b31343e2d31340a\n\
    crontab alice Samoa 2\n0 12 30 12 * a\n0 12 * * * b\n";

#[test]
fn a_day_that_a_zone_skips(rt: HostRuntime) -> Result<(), Fail> {
    let table = table_of(rt.alloc(), "2011-12-30T00:00Z 2011-12-31T12:00Z", SAMOA)?;
    assert_jobs(&rt, &table, "alice:1 \nalice:2 2011-12-30T22:00Z\n")
}
