//! Dates on which jobs of anacrontabs open.
ghost use Rattle.std.specs.Prelude.{◌<◌, length};

use crate::build::{SAMOA as SAMOA_FILE, UTC, instant_in, table_in, window_of};
use due_set::{JobKind, JobTable, Kind2, Period};
use std::alloc::Global;
use std::test::Fail;
use zone_minutes::{Minute, Window, ZoneSource, read_date, read_stamp};

/// Lebanon's: at midnight the clock goes back to eleven.
const BEIRUT: ZoneSource<'static> = ZoneSource::Posix("EET-2EEST,M3.5.0/0,M10.5.0/0");

/// At half past midnight the clock goes back into the day before.
const BACK: ZoneSource<'static> = ZoneSource::Posix("AAA-2BBB,M3.5.0/0:30,M10.5.0/0:30");

/// The clock goes past the whole of 2011-12-30.
const SAMOA: ZoneSource<'static> = ZoneSource::Tzif(SAMOA_FILE);

/// The first and the last minute of the day.
#[derive(Clone, Copy)]
struct Hours {
    first: u16,
    last: u16,
}

const ALL_DAY: Hours = Hours {
    first: 0,
    last: 1440,
};

/// A job in a window and a zone, and the instants at which it opens if it is launched each time.
struct Opened {
    zone: ZoneSource<'static>,
    from: &'static str,
    until: &'static str,
    period: Period,
    hours: Hours,
    opens: &'static [&'static str],
}

const OPENED: &[Opened] = &[
    // START_HOURS_RANGE=3-22, a delay of 5 minutes, and 38 that the identifier `a` adds.
    Opened {
        zone: UTC,
        from: "2024-03-01T00:00Z",
        until: "2024-03-04T00:00Z",
        period: Period::Days(1),
        hours: Hours {
            first: 223,
            last: 1320,
        },
        opens: &[
            "2024-03-01T03:43Z",
            "2024-03-02T03:43Z",
            "2024-03-03T03:43Z",
        ],
    },
    Opened {
        zone: UTC,
        from: "2024-02-26T00:00Z",
        until: "2024-03-12T00:00Z",
        period: Period::Days(7),
        hours: Hours {
            first: 185,
            last: 1320,
        },
        opens: &[
            "2024-02-26T03:05Z",
            "2024-03-04T03:05Z",
            "2024-03-11T03:05Z",
        ],
    },
    // Over 29 February.
    Opened {
        zone: UTC,
        from: "2024-02-28T00:00Z",
        until: "2024-03-04T00:00Z",
        period: Period::Days(2),
        hours: Hours {
            first: 0,
            last: 1440,
        },
        opens: &[
            "2024-02-28T00:00Z",
            "2024-03-01T00:00Z",
            "2024-03-03T00:00Z",
        ],
    },
    // Over the ends of months.
    Opened {
        zone: UTC,
        from: "2024-01-31T12:00Z",
        until: "2024-03-02T00:00Z",
        period: Period::Monthly,
        hours: Hours {
            first: 0,
            last: 1440,
        },
        opens: &[
            "2024-01-31T12:00Z",
            "2024-02-01T00:00Z",
            "2024-03-01T00:00Z",
        ],
    },
    // Over a year's end.
    Opened {
        zone: UTC,
        from: "2023-12-31T23:59Z",
        until: "2024-02-01T00:00Z",
        period: Period::Yearly,
        hours: Hours {
            first: 0,
            last: 1440,
        },
        opens: &["2023-12-31T23:59Z", "2024-01-01T00:00Z"],
    },
    Opened {
        zone: UTC,
        from: "2023-12-31T23:59Z",
        until: "2024-01-03T00:00Z",
        period: Period::Monthly,
        hours: Hours {
            first: 60,
            last: 1440,
        },
        opens: &["2023-12-31T23:59Z", "2024-01-01T01:00Z"],
    },
    // The date begins when the clock comes to midnight, an hour later.
    Opened {
        zone: BEIRUT,
        from: "2024-10-25T21:00Z",
        until: "2024-10-28T00:00Z",
        period: Period::Days(1),
        hours: Hours {
            first: 0,
            last: 1440,
        },
        opens: &[
            "2024-10-25T21:00Z",
            "2024-10-26T22:00Z",
            "2024-10-27T22:00Z",
        ],
    },
    // A date that was opened isn't opened again, nor the one before it, where the clock shows them once more.
    Opened {
        zone: BACK,
        from: "2024-10-26T20:30Z",
        until: "2024-10-27T23:00Z",
        period: Period::Days(1),
        hours: Hours {
            first: 0,
            last: 1440,
        },
        opens: &[
            "2024-10-26T20:30Z",
            "2024-10-26T21:00Z",
            "2024-10-27T22:00Z",
        ],
    },
    // A date that no clock showed is passed over.
    Opened {
        zone: SAMOA,
        from: "2011-12-29T10:00Z",
        until: "2012-01-01T09:00Z",
        period: Period::Days(1),
        hours: Hours {
            first: 0,
            last: 1440,
        },
        opens: &[
            "2011-12-29T10:00Z",
            "2011-12-30T10:00Z",
            "2011-12-31T10:00Z",
        ],
    },
    // The first minute is the end of the hours.
    Opened {
        zone: UTC,
        from: "2024-03-01T00:00Z",
        until: "2024-03-03T00:00Z",
        period: Period::Days(1),
        hours: Hours {
            first: 1320,
            last: 1320,
        },
        opens: &[],
    },
    // The window ends before the first minute.
    Opened {
        zone: UTC,
        from: "2024-03-01T00:00Z",
        until: "2024-03-01T03:43Z",
        period: Period::Days(1),
        hours: Hours {
            first: 223,
            last: 1320,
        },
        opens: &[],
    },
];

fn kind_of_period(period: Period, hours: Hours) -> JobKind {
    JobKind::Anacron {
        period,
        first_minute: hours.first,
        last_minute: hours.last,
    }
}

// The first instant at which the table's first job may open if it was last launched on this date, and the date then.
fn next_opening(table: &JobTable, last: Option<i64>) -> Option<(Minute, Option<i64>)>
    requires { 0 < length table.now.jobs }
{
    let first = table.first_opening(0, 0, last, last)?;
    if table.window().contains(first) {
        Some((first, table.anacron_open(0, 0, last, last, first)))
    } else {
        None
    }
}

// Whether the table's first job opens at these instants in turn, and then no more.
fn opens_in_turn(table: &JobTable, stamps: &[&str]) -> bool
    requires { 0 < length table.now.jobs }
{
    let mut last = None;
    for stamp in stamps {
        let Some((first, date)) = next_opening(table, last) else {
            return false;
        };
        if read_stamp(stamp) != Some(first) || date.is_none() {
            return false;
        }
        last = date;
    }
    next_opening(table, last).is_none()
}

#[test]
fn each_date_in_turn(rt: HostRuntime) -> Result<(), Fail> {
    for row in OPENED {
        let window = window_of(row.from, row.until)?;
        let kind = kind_of_period(row.period, row.hours);
        let table = table_in(rt.alloc(), window, &row.zone, kind)?;
        assert!(rt; opens_in_turn(&table, row.opens), "{}", row.from);
    }
    Ok(())
}

/// A period, the date of the last launch, the date last opened, and whether the job may open today.
struct Dates {
    period: Period,
    last: Option<&'static str>,
    opened: Option<&'static str>,
    today: &'static str,
    opens: bool,
}

const DATES: &[Dates] = &[
    Dates {
        period: Period::Days(1),
        last: Some("2024-02-28"),
        opened: None,
        today: "2024-02-28",
        opens: false,
    },
    Dates {
        period: Period::Days(1),
        last: Some("2024-02-28"),
        opened: None,
        today: "2024-02-29",
        opens: true,
    },
    Dates {
        period: Period::Days(2),
        last: Some("2024-02-28"),
        opened: None,
        today: "2024-02-29",
        opens: false,
    },
    Dates {
        period: Period::Days(2),
        last: Some("2024-02-28"),
        opened: None,
        today: "2024-03-01",
        opens: true,
    },
    Dates {
        period: Period::Days(9999),
        last: Some("1970-01-01"),
        opened: None,
        today: "1997-05-17",
        opens: false,
    },
    Dates {
        period: Period::Days(9999),
        last: Some("1970-01-01"),
        opened: None,
        today: "1997-05-18",
        opens: true,
    },
    Dates {
        period: Period::Monthly,
        last: Some("2024-02-29"),
        opened: None,
        today: "2024-03-01",
        opens: true,
    },
    Dates {
        period: Period::Monthly,
        last: Some("2024-03-01"),
        opened: None,
        today: "2024-03-31",
        opens: false,
    },
    Dates {
        period: Period::Monthly,
        last: Some("2023-03-31"),
        opened: None,
        today: "2024-03-01",
        opens: true,
    },
    Dates {
        period: Period::Monthly,
        last: Some("2023-12-01"),
        opened: None,
        today: "2024-01-01",
        opens: true,
    },
    Dates {
        period: Period::Monthly,
        last: Some("2024-04-01"),
        opened: None,
        today: "2024-03-31",
        opens: false,
    },
    Dates {
        period: Period::Yearly,
        last: Some("2023-12-31"),
        opened: None,
        today: "2024-01-01",
        opens: true,
    },
    Dates {
        period: Period::Yearly,
        last: Some("2024-01-01"),
        opened: None,
        today: "2024-12-31",
        opens: false,
    },
    Dates {
        period: Period::Yearly,
        last: Some("2023-01-01"),
        opened: None,
        today: "2023-12-31",
        opens: false,
    },
    Dates {
        period: Period::Days(1),
        last: None,
        opened: Some("2024-03-03"),
        today: "2024-03-03",
        opens: false,
    },
    Dates {
        period: Period::Days(1),
        last: None,
        opened: Some("2024-03-03"),
        today: "2024-03-04",
        opens: true,
    },
    Dates {
        period: Period::Days(1),
        last: Some("2024-03-01"),
        opened: Some("2024-03-03"),
        today: "2024-03-02",
        opens: false,
    },
    Dates {
        period: Period::Monthly,
        last: Some("2024-02-01"),
        opened: Some("2024-03-03"),
        today: "2024-03-03",
        opens: false,
    },
];

fn day_of_date(date: Option<&str>) -> Option<i64> {
    read_date(date?)
}

// The date on which the job of a row may open at noon of UTC.
fn open_at_noon(alloc: Global, row: &Dates) -> Result<Option<i64>, Fail> {
    let day = read_date(row.today).ok_or("no date")?;
    let noon = Minute(day * 1440 + 720);
    let window = Window {
        from: noon,
        until: Minute(noon.0 + 60),
    };
    if !window.is_within_limits() {
        return Err(Fail::from("no window"));
    }
    let table = table_in(alloc, window, &UTC, kind_of_period(row.period, ALL_DAY))?;
    Ok(table.anacron_open(0, 0, day_of_date(row.last), day_of_date(row.opened), noon))
}

#[test]
fn dates_since_the_last_launch(rt: HostRuntime) -> Result<(), Fail> {
    for row in DATES {
        let found = open_at_noon(rt.alloc(), row)?;
        let want = if row.opens {
            read_date(row.today)
        } else {
            None
        };
        assert_eq!(rt; found, want, "{}", row.today);
    }
    Ok(())
}

/// In Nepal, where 2024-04-01 begins at 18:15Z: a date, an instant, whether the launch may be called, and what comes of it.
struct Call {
    date: &'static str,
    now: &'static str,
    may: bool,
    kind: Kind2,
}

const CALLS: &[Call] = &[
    Call {
        date: "2024-04-01",
        now: "2024-03-31T18:14Z",
        may: false,
        kind: Kind2::Late,
    },
    Call {
        date: "2024-03-31",
        now: "2024-03-31T18:14Z",
        may: true,
        kind: Kind2::OnTime,
    },
    Call {
        date: "2024-04-01",
        now: "2024-03-31T18:15Z",
        may: true,
        kind: Kind2::OnTime,
    },
    Call {
        date: "2024-03-31",
        now: "2024-03-31T18:15Z",
        may: true,
        kind: Kind2::Late,
    },
];

fn called(table: &JobTable, call: &Call) -> Option<(bool, Kind2)>
    requires { 0 < length table.now.jobs }
{
    let date = read_date(call.date)?;
    let now = instant_in(table, call.now)?;
    Some((
        table.may_call(0, 0, date, now),
        table.call_kind(0, 0, date, now),
    ))
}

#[test]
fn a_date_is_called_on_its_day(rt: HostRuntime) -> Result<(), Fail> {
    let window = window_of("2024-03-31T18:00Z", "2024-03-31T19:00Z")?;
    let nepal = ZoneSource::Fixed { minutes: 345 };
    let kind = kind_of_period(Period::Days(1), ALL_DAY);
    let table = table_in(rt.alloc(), window, &nepal, kind)?;
    for call in CALLS {
        assert_eq!(rt; called(&table, call), Some((call.may, call.kind)));
    }
    Ok(())
}
