//! Due instants where clocks are put forward and back, by much and by little, as another program finds them.
ghost use Rattle.std.specs.Prelude.{◌<◌, length};

use crate::build::{table_of_entry, window_of};
use due_set::JobTable;
use std::alloc::Global;
use std::test::Fail;
use zone_minutes::{Minute, ZoneSource};

/// A TZ rule, a window's first instant and its end, and the due instants of the two entries, in minutes from the first on:
/// what `bench/zone_rows.py` prints.
struct Change {
    rule: &'static str,
    from: &'static str,
    until: &'static str,
    fixed: &'static [u16],
    frequent: &'static [u16],
}

/// An entry with a fixed time.
const FIXED: &str = "20,50 1,2,3,13 * * *";

/// An entry that follows the clock as it shows.
const FREQUENT: &str = "*/40 1,2,3,13 * * *";

/// Changes of half an hour up to a day, and two within 180 minutes.
const BY_SIZE: &[Change] = &[
    Change {
        rule: "AAA0BBB-0:30,M3.5.0/1,M10.5.0/6",
        from: "2024-03-30T23:00Z",
        until: "2024-03-31T05:00Z",
        fixed: &[120, 140, 170, 200, 230, 260],
        frequent: &[130, 150, 190, 210, 250],
    },
    Change {
        rule: "AAA0BBB-0:30,M3.5.0/1,M10.5.0/6",
        from: "2024-10-27T00:30Z",
        until: "2024-10-27T11:30Z",
        fixed: &[20, 50, 80, 110, 140, 170],
        frequent: &[0, 40, 60, 100, 120, 160],
    },
    Change {
        rule: "AAA0BBB-1:00,M3.5.0/1,M10.5.0/6",
        from: "2024-03-30T23:00Z",
        until: "2024-03-31T05:00Z",
        fixed: &[120, 140, 170, 200, 230],
        frequent: &[120, 160, 180, 220],
    },
    Change {
        rule: "AAA0BBB-1:00,M3.5.0/1,M10.5.0/6",
        from: "2024-10-27T00:00Z",
        until: "2024-10-27T11:00Z",
        fixed: &[20, 50, 80, 110, 140, 170],
        frequent: &[0, 40, 60, 100, 120, 160],
    },
    Change {
        rule: "AAA0BBB-2:00,M3.5.0/1,M10.5.0/6",
        from: "2024-03-30T23:00Z",
        until: "2024-03-31T05:00Z",
        fixed: &[120, 140, 170],
        frequent: &[120, 160],
    },
    Change {
        rule: "AAA0BBB-2:00,M3.5.0/1,M10.5.0/6",
        from: "2024-10-26T23:00Z",
        until: "2024-10-27T10:00Z",
        fixed: &[20, 50, 80, 110, 140, 170],
        frequent: &[0, 40, 60, 100, 120, 160],
    },
    Change {
        rule: "AAA0BBB-2:59,M3.5.0/1,M10.5.0/6",
        from: "2024-03-30T23:00Z",
        until: "2024-03-31T05:00Z",
        fixed: &[120],
        frequent: &[],
    },
    Change {
        rule: "AAA0BBB-2:59,M3.5.0/1,M10.5.0/6",
        from: "2024-10-26T22:01Z",
        until: "2024-10-27T09:01Z",
        fixed: &[20, 50, 80, 110, 140, 170],
        frequent: &[0, 40, 60, 100, 120, 160, 339],
    },
    Change {
        rule: "AAA0BBB-3:00,M3.5.0/1,M10.5.0/6",
        from: "2024-03-30T23:00Z",
        until: "2024-03-31T05:00Z",
        fixed: &[],
        frequent: &[],
    },
    Change {
        rule: "AAA0BBB-3:00,M3.5.0/1,M10.5.0/6",
        from: "2024-10-26T22:00Z",
        until: "2024-10-27T09:00Z",
        fixed: &[20, 50, 80, 110, 140, 170, 320, 350],
        frequent: &[0, 40, 60, 100, 120, 160, 300, 340],
    },
    Change {
        rule: "AAA0BBB-3:01,M3.5.0/1,M10.5.0/6",
        from: "2024-03-30T23:00Z",
        until: "2024-03-31T05:00Z",
        fixed: &[],
        frequent: &[],
    },
    Change {
        rule: "AAA0BBB-3:01,M3.5.0/1,M10.5.0/6",
        from: "2024-10-26T21:59Z",
        until: "2024-10-27T08:59Z",
        fixed: &[20, 50, 80, 110, 140, 170, 321, 351],
        frequent: &[0, 40, 60, 100, 120, 160, 301, 341],
    },
    Change {
        rule: "AAA12BBB-12,M3.5.0/1,M10.5.0/6",
        from: "2024-03-31T00:00Z",
        until: "2024-04-01T06:00Z",
        fixed: &[80, 110, 800, 830, 860, 890, 920, 950, 1520, 1550],
        frequent: &[60, 100, 780, 820, 840, 880, 900, 940, 1500, 1540],
    },
    Change {
        rule: "AAA12BBB-12,M3.5.0/1,M10.5.0/6",
        from: "2024-10-25T12:00Z",
        until: "2024-10-27T18:00Z",
        fixed: &[
            80, 110, 140, 170, 200, 230, 800, 830, 1520, 1550, 1580, 1610, 1640, 1670, 2240, 2270,
            2960, 2990, 3020, 3050, 3080, 3110,
        ],
        frequent: &[
            60, 100, 120, 160, 180, 220, 780, 820, 1500, 1540, 1560, 1600, 1620, 1660, 2220, 2260,
            2940, 2980, 3000, 3040, 3060, 3100,
        ],
    },
    Change {
        rule: "AAA0BBB-1,M3.5.0/1,M3.5.0/4",
        from: "2024-03-30T23:00Z",
        until: "2024-03-31T06:00Z",
        fixed: &[120, 140, 170, 200, 230],
        frequent: &[120, 160, 180, 220, 240, 280],
    },
    Change {
        rule: "AAA0BBB-1,M3.5.0/3,M3.5.0/2",
        from: "2024-03-30T23:00Z",
        until: "2024-03-31T06:00Z",
        fixed: &[80, 110, 200, 230, 240],
        frequent: &[60, 100, 120, 160, 180, 220],
    },
];

/// A change at the first minute of a window, at its last one, and before it.
const AT_EDGES: &[Change] = &[
    Change {
        rule: "AAA0BBB-1,M3.5.0/1,M10.5.0/3",
        from: "2024-03-31T01:00Z",
        until: "2024-03-31T04:00Z",
        fixed: &[0, 20, 50, 80, 110],
        frequent: &[0, 40, 60, 100],
    },
    Change {
        rule: "AAA0BBB-1,M3.5.0/1,M10.5.0/3",
        from: "2024-03-30T23:00Z",
        until: "2024-03-31T01:01Z",
        fixed: &[120],
        frequent: &[120],
    },
    Change {
        rule: "AAA0BBB-1,M3.5.0/1,M10.5.0/3",
        from: "2024-03-31T01:01Z",
        until: "2024-03-31T04:01Z",
        fixed: &[19, 49, 79, 109],
        frequent: &[39, 59, 99],
    },
    Change {
        rule: "AAA0BBB-1,M3.5.0/1,M10.5.0/3",
        from: "2024-03-31T01:45Z",
        until: "2024-03-31T04:45Z",
        fixed: &[5, 35, 65],
        frequent: &[15, 55],
    },
    Change {
        rule: "AAA0BBB-1,M3.5.0/1,M10.5.0/3",
        from: "2024-03-31T03:59Z",
        until: "2024-03-31T06:59Z",
        fixed: &[],
        frequent: &[],
    },
    Change {
        rule: "AAA0BBB-1,M3.5.0/1,M10.5.0/3",
        from: "2024-10-27T02:00Z",
        until: "2024-10-27T05:00Z",
        fixed: &[80, 110],
        frequent: &[0, 40, 60, 100],
    },
    Change {
        rule: "AAA0BBB-1,M3.5.0/1,M10.5.0/3",
        from: "2024-10-27T00:00Z",
        until: "2024-10-27T02:01Z",
        fixed: &[20, 50, 80, 110],
        frequent: &[0, 40, 60, 100, 120],
    },
    Change {
        rule: "AAA0BBB-1,M3.5.0/1,M10.5.0/3",
        from: "2024-10-27T02:01Z",
        until: "2024-10-27T05:01Z",
        fixed: &[79, 109],
        frequent: &[39, 59, 99],
    },
    Change {
        rule: "AAA0BBB-1,M3.5.0/1,M10.5.0/3",
        from: "2024-10-27T02:45Z",
        until: "2024-10-27T05:45Z",
        fixed: &[35, 65],
        frequent: &[15, 55],
    },
    Change {
        rule: "AAA0BBB-1,M3.5.0/1,M10.5.0/3",
        from: "2024-10-27T04:59Z",
        until: "2024-10-27T07:59Z",
        fixed: &[],
        frequent: &[],
    },
];

// Whether the table's first job is due so many minutes after the window's first, at each of these, and at no others.
fn is_due_after(table: &JobTable, minutes: &[u16]) -> bool
    requires { 0 < length table.now.jobs }
{
    let first = table.window().from.0;
    let mut last = None;
    for minute in minutes {
        let next = table.next_due(0, 0, last);
        if next != Some(Minute(first + i64::from(*minute))) {
            return false;
        }
        last = next;
    }
    table.next_due(0, 0, last).is_none() && table.count_due(0, 0) as usize == minutes.len()
}

// Whether an entry is due at these minutes of the change's window.
fn is_due_over(alloc: Global, change: &Change, entry: &str, minutes: &[u16]) -> Result<bool, Fail> {
    let window = window_of(change.from, change.until)?;
    let zone = ZoneSource::Posix(change.rule);
    let table = table_of_entry(alloc, window, &zone, entry)?;
    Ok(is_due_after(&table, minutes))
}

fn are_due_over(alloc: Global, change: &Change) -> Result<bool, Fail> {
    Ok(
        is_due_over(alloc, change, FIXED, change.fixed)?
            && is_due_over(alloc, change, FREQUENT, change.frequent)?,
    )
}

#[test]
fn due_over_changes_of_each_size(rt: HostRuntime) -> Result<(), Fail> {
    for change in BY_SIZE {
        let due = are_due_over(rt.alloc(), change)?;
        assert!(rt; due, "{} {}", change.rule, change.from);
    }
    Ok(())
}

#[test]
fn due_over_changes_at_the_edges_of_a_window(rt: HostRuntime) -> Result<(), Fail> {
    for change in AT_EDGES {
        let due = are_due_over(rt.alloc(), change)?;
        assert!(rt; due, "{} {}", change.rule, change.from);
    }
    Ok(())
}
