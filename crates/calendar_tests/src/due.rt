//! Due instants of entries of crontabs, by the calendar: October 13, 2024 was a Sunday.
ghost use Rattle.std.specs.Prelude.{◌<◌, length};

use crate::build::{SAMOA, UTC, fields_of, instant_in, table_of_entry, window_of};
use due_set::{JobKind, JobSpec, JobTable, Kind2};
use std::alloc::Global;
use std::test::Fail;
use zone_minutes::ZoneSource::{Fixed, Posix, Tzif};
use zone_minutes::{Minute, ZoneSource, read_stamp};

const PARIS: &str = "CET-1CEST,M3.5.0,M10.5.0/3";

/// An entry in a zone, and its due instants in a window.
struct Row {
    zone: ZoneSource<'static>,
    from: &'static str,
    until: &'static str,
    entry: &'static str,
    due: &'static [&'static str],
}

const DUE: &[Row] = &[
    Row {
        zone: Fixed { minutes: 0 },
        from: "2024-03-31T00:00Z",
        until: "2024-03-31T01:00Z",
        entry: "0,20,40 * * * *",
        due: &[
            "2024-03-31T00:00Z",
            "2024-03-31T00:20Z",
            "2024-03-31T00:40Z",
        ],
    },
    Row {
        zone: Fixed { minutes: 0 },
        from: "2024-10-01T00:00Z",
        until: "2024-11-01T00:00Z",
        entry: "0 0 13 * 5",
        due: &[
            "2024-10-04T00:00Z",
            "2024-10-11T00:00Z",
            "2024-10-13T00:00Z",
            "2024-10-18T00:00Z",
            "2024-10-25T00:00Z",
        ],
    },
    Row {
        zone: Fixed { minutes: 0 },
        from: "2024-10-01T00:00Z",
        until: "2024-11-01T00:00Z",
        entry: "0 0 13 * *",
        due: &["2024-10-13T00:00Z"],
    },
    Row {
        zone: Fixed { minutes: 0 },
        from: "2024-01-01T00:00Z",
        until: "2025-02-04T00:00Z",
        entry: "0 0 31 2 *",
        due: &[],
    },
    // One February in 400 days.
    Row {
        zone: Fixed { minutes: 0 },
        from: "2024-01-01T00:00Z",
        until: "2025-02-04T00:00Z",
        entry: "0 0 29 2 *",
        due: &["2024-02-29T00:00Z"],
    },
    // February 29, 2024, was a Thursday, and either day is enough.
    Row {
        zone: Fixed { minutes: 0 },
        from: "2024-01-01T00:00Z",
        until: "2025-02-04T00:00Z",
        entry: "0 0 29 2 4",
        due: &[
            "2024-02-01T00:00Z",
            "2024-02-08T00:00Z",
            "2024-02-15T00:00Z",
            "2024-02-22T00:00Z",
            "2024-02-29T00:00Z",
        ],
    },
    // 06:00 at +05:30
    Row {
        zone: Fixed { minutes: 330 },
        from: "2024-03-31T00:00Z",
        until: "2024-03-31T04:00Z",
        entry: "0 6 * * *",
        due: &["2024-03-31T00:30Z"],
    },
    // 22:00 on March 30 at -03:30
    Row {
        zone: Fixed { minutes: -210 },
        from: "2024-03-31T00:00Z",
        until: "2024-03-31T04:00Z",
        entry: "0 22 30 3 *",
        due: &["2024-03-31T01:30Z"],
    },
    // the first minute of April at +05:45
    Row {
        zone: Fixed { minutes: 345 },
        from: "2024-03-31T17:00Z",
        until: "2024-03-31T19:00Z",
        entry: "0 0 1 4 *",
        due: &["2024-03-31T18:15Z"],
    },
    // the last minute of a Saturday at -12:00
    Row {
        zone: Fixed { minutes: -720 },
        from: "2024-03-31T00:00Z",
        until: "2024-03-31T12:30Z",
        entry: "59 23 * * 6",
        due: &["2024-03-31T11:59Z"],
    },
    // half past each hour of a Monday at +14:00
    Row {
        zone: Fixed { minutes: 840 },
        from: "2024-03-31T09:00Z",
        until: "2024-03-31T12:00Z",
        entry: "30 * * * 1",
        due: &["2024-03-31T10:30Z", "2024-03-31T11:30Z"],
    },
    // Over the nights of both changes in Paris in 2024.
    // The skipped half past two runs at once.
    Row {
        zone: Posix(PARIS),
        from: "2024-03-31T00:00Z",
        until: "2024-03-31T04:00Z",
        entry: "30 2 * * *",
        due: &["2024-03-31T01:00Z"],
    },
    // The repeated half past two doesn't run again.
    Row {
        zone: Posix(PARIS),
        from: "2024-10-27T00:00Z",
        until: "2024-10-27T04:00Z",
        entry: "30 2 * * *",
        due: &["2024-10-27T00:30Z"],
    },
    Row {
        zone: Posix(PARIS),
        from: "2024-03-31T00:00Z",
        until: "2024-03-31T04:00Z",
        entry: "*/30 * * * *",
        due: &[
            "2024-03-31T00:00Z",
            "2024-03-31T00:30Z",
            "2024-03-31T01:00Z",
            "2024-03-31T01:30Z",
            "2024-03-31T02:00Z",
            "2024-03-31T02:30Z",
            "2024-03-31T03:00Z",
            "2024-03-31T03:30Z",
        ],
    },
    Row {
        zone: Posix(PARIS),
        from: "2024-10-27T00:00Z",
        until: "2024-10-27T04:00Z",
        entry: "*/30 * * * *",
        due: &[
            "2024-10-27T00:00Z",
            "2024-10-27T00:30Z",
            "2024-10-27T01:00Z",
            "2024-10-27T01:30Z",
            "2024-10-27T02:00Z",
            "2024-10-27T02:30Z",
            "2024-10-27T03:00Z",
            "2024-10-27T03:30Z",
        ],
    },
    // Two skipped times run once.
    Row {
        zone: Posix(PARIS),
        from: "2024-03-31T00:00Z",
        until: "2024-03-31T04:00Z",
        entry: "0,30 2,3 * * *",
        due: &["2024-03-31T01:00Z", "2024-03-31T01:30Z"],
    },
    // Over the day that Samoa passed: a change of three hours or more skips nothing that runs.
    Row {
        zone: Tzif(SAMOA),
        from: "2011-12-30T00:00Z",
        until: "2011-12-31T12:00Z",
        entry: "0 12 30 12 *",
        due: &[],
    },
    Row {
        zone: Tzif(SAMOA),
        from: "2011-12-30T00:00Z",
        until: "2011-12-31T12:00Z",
        entry: "0 12 * * *",
        due: &["2011-12-30T22:00Z"],
    },
];

// Whether the table's first job is due at these instants, and then no more.
fn is_due_in_turn(table: &JobTable, stamps: &[&str]) -> bool
    requires { 0 < length table.now.jobs }
{
    let mut last = None;
    for stamp in stamps {
        let next = table.next_due(0, 0, last);
        if next != read_stamp(stamp) {
            return false;
        }
        last = next;
    }
    table.next_due(0, 0, last).is_none()
}

#[test]
fn entries_are_due_in_turn(rt: HostRuntime) -> Result<(), Fail> {
    for row in DUE {
        let window = window_of(row.from, row.until)?;
        let table = table_of_entry(rt.alloc(), window, &row.zone, row.entry)?;
        let counted = table.count_due(0, 0) as usize == row.due.len();
        assert!(rt; counted && is_due_in_turn(&table, row.due), "{}", row.entry);
    }
    Ok(())
}

/// An instant of a window of four days over a February's end, and whether an entry of its hour is due then.
struct Asked {
    at: &'static str,
    due: bool,
}

const ASKED: &[Asked] = &[
    Asked {
        at: "2024-02-28T12:00Z",
        due: false,
    },
    Asked {
        at: "2024-02-29T12:00Z",
        due: true,
    },
    Asked {
        at: "2024-02-29T12:01Z",
        due: false,
    },
    Asked {
        at: "2024-03-01T12:00Z",
        due: false,
    },
];

#[test]
fn an_entry_is_due_at_an_instant_or_not(rt: HostRuntime) -> Result<(), Fail> {
    let window = window_of("2024-02-28T12:00Z", "2024-03-02T12:00Z")?;
    let table = table_of_entry(rt.alloc(), window, &UTC, "0 * 29 2 *")?;
    for row in ASKED {
        let at = instant_in(&table, row.at).ok_or("not in the window")?;
        assert_eq!(rt; table.is_due(0, 0, at), row.due, "{}", row.at);
    }
    Ok(())
}

// A table of an hour with a job that never runs, and an entry.
fn two_jobs(alloc: Global) -> Result<JobTable, Fail> {
    let window = window_of("2024-03-31T00:00Z", "2024-03-31T01:00Z")?;
    let fields = fields_of("30 0 * * *").ok_or("no fields")?;
    let mut jobs = Vec::new(alloc);
    jobs.push(JobSpec::new(alloc, "alice:1", 0, JobKind::Never)?)?;
    jobs.push(JobSpec::new(alloc, "bob:2", 0, JobKind::Crontab { fields })?)?;
    Ok(JobTable::in_utc(alloc, window, 0, jobs)?)
}

#[test]
fn jobs_of_a_table_are_told_apart(rt: HostRuntime) -> Result<(), Fail> {
    let table = two_jobs(rt.alloc())?;
    if table.jobs() != 2 {
        return Err(Fail::from("not two jobs"));
    }
    assert_eq!(rt; (table.name(0), table.name(1)), ("alice:1", "bob:2"));
    assert_eq!(rt; table.next_due(0, 0, None), None);
    assert_eq!(rt; table.next_due(0, 1, None), read_stamp("2024-03-31T00:30Z"));
    Ok(())
}

/// How many minutes after the launch's instant it is called, whether it may be, and what comes of it at a grace of five.
struct Call {
    later: i64,
    may: bool,
    kind: Kind2,
}

const CALLS: &[Call] = &[
    Call {
        later: -1,
        may: false,
        kind: Kind2::OnTime,
    },
    Call {
        later: 0,
        may: true,
        kind: Kind2::OnTime,
    },
    Call {
        later: 5,
        may: true,
        kind: Kind2::OnTime,
    },
    Call {
        later: 6,
        may: true,
        kind: Kind2::Late,
    },
];

// What comes of the first job's launch of 2024-03-31T00:10Z, if it is called so much later.
fn called(table: &JobTable, later: i64) -> Option<(bool, Kind2)>
    requires { 0 < length table.now.jobs }
{
    let launch = 28_530_730;
    let now = Minute(later.checked_add(launch)?);
    if table.window().contains(now) {
        Some((
            table.may_call(0, 0, launch, now),
            table.call_kind(0, 0, launch, now),
        ))
    } else {
        None
    }
}

#[test]
fn a_launch_is_called_from_its_instant_on(rt: HostRuntime) -> Result<(), Fail> {
    let window = window_of("2024-03-31T00:00Z", "2024-03-31T01:00Z")?;
    let table = table_of_entry(rt.alloc(), window, &UTC, "* * * * *")?;
    for call in CALLS {
        let want = Some((call.may, call.kind));
        assert_eq!(rt; called(&table, call.later), want, "{}", call.later);
    }
    Ok(())
}
