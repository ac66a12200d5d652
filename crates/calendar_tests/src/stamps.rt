//! Stamps and dates, as Python's `datetime` counts them; in the year 0, by the calendar's period of 400 years.
ghost use Rattle.zone_minutes.specs.Civil.{IsCalendarDay, IsCalendarMinute};

use std::alloc::Global;
use std::test::Fail;
use zone_minutes::{
    Minute, Window, day_of, first_of_month, first_of_year, read_basic_stamp, read_date, read_stamp,
    weekday_of, write_basic_stamp, write_date, write_stamp,
};

/// A stamp with its minute, its form without marks, and its weekday from 0 for Sunday.
struct StampRow {
    stamp: &'static str,
    number: i64,
    basic: &'static str,
    weekday: u8,
}

const STAMPS: &[StampRow] = &[
    StampRow {
        stamp: "1970-01-01T00:00Z",
        number: 0,
        basic: "19700101T0000Z",
        weekday: 4,
    },
    StampRow {
        stamp: "1969-12-31T23:59Z",
        number: -1,
        basic: "19691231T2359Z",
        weekday: 3,
    },
    StampRow {
        stamp: "2000-01-01T00:00Z",
        number: 15_778_080,
        basic: "20000101T0000Z",
        weekday: 6,
    },
    StampRow {
        stamp: "2000-02-29T12:34Z",
        number: 15_863_794,
        basic: "20000229T1234Z",
        weekday: 2,
    },
    StampRow {
        stamp: "2024-03-31T01:00Z",
        number: 28_530_780,
        basic: "20240331T0100Z",
        weekday: 0,
    },
    StampRow {
        stamp: "2024-10-27T01:00Z",
        number: 28_833_180,
        basic: "20241027T0100Z",
        weekday: 0,
    },
    StampRow {
        stamp: "1900-02-28T23:59Z",
        number: -36_731_521,
        basic: "19000228T2359Z",
        weekday: 3,
    },
    StampRow {
        stamp: "1900-03-01T00:00Z",
        number: -36_731_520,
        basic: "19000301T0000Z",
        weekday: 4,
    },
    StampRow {
        stamp: "2100-02-28T23:59Z",
        number: 68_459_039,
        basic: "21000228T2359Z",
        weekday: 0,
    },
    StampRow {
        stamp: "2100-03-01T00:00Z",
        number: 68_459_040,
        basic: "21000301T0000Z",
        weekday: 1,
    },
    StampRow {
        stamp: "2199-12-31T23:59Z",
        number: 120_968_639,
        basic: "21991231T2359Z",
        weekday: 2,
    },
    StampRow {
        stamp: "0000-01-01T00:00Z",
        number: -1_036_120_320,
        basic: "00000101T0000Z",
        weekday: 6,
    },
    StampRow {
        stamp: "0000-02-29T00:00Z",
        number: -1_036_035_360,
        basic: "00000229T0000Z",
        weekday: 2,
    },
    StampRow {
        stamp: "0001-01-01T00:00Z",
        number: -1_035_593_280,
        basic: "00010101T0000Z",
        weekday: 1,
    },
    StampRow {
        stamp: "9999-12-31T23:59Z",
        number: 4_223_371_679,
        basic: "99991231T2359Z",
        weekday: 5,
    },
];

// Both stamps of an instant, one behind the other.
fn stamps_of(alloc: Global, at: Minute) -> Result<String, Fail>
    requires { IsCalendarMinute at.0 }
{
    let mut text = String::new(alloc);
    write_stamp(at, &mut text)?;
    write_basic_stamp(at, &mut text)?;
    Ok(text)
}

fn is_as_read(row: &StampRow, at: Minute) -> bool
    requires { IsCalendarMinute at.0 }
{
    at == Minute(row.number)
        && read_basic_stamp(row.basic) == Some(at)
        && weekday_of(day_of(at.0)) == row.weekday
}

#[test]
fn stamps_are_read_and_written(rt: HostRuntime) -> Result<(), Fail> {
    for row in STAMPS {
        let at = read_stamp(row.stamp).ok_or("no stamp")?;
        assert!(rt; is_as_read(row, at), "{}", row.stamp);
        let text = stamps_of(rt.alloc(), at)?;
        assert_eq!(rt; text.strip_prefix(row.stamp), Some(row.basic));
    }
    Ok(())
}

const NO_STAMPS: &[&str] = &[
    "",
    "2024-13-01T00:00Z",
    "2024-00-01T00:00Z",
    "2024-01-00T00:00Z",
    "2024-04-31T00:00Z",
    "2023-02-29T00:00Z",
    "2100-02-29T00:00Z",
    "1900-02-29T00:00Z",
    "2024-03-31T24:00Z",
    "2024-03-31T01:60Z",
    "2024-03-31t01:00Z",
    "2024-03-31T01:00z",
    "2024-03-31 01:00Z",
    "2024-03-31T01:00",
    "2024-03-31T01:00+",
    "2024-03-31T1:00Z",
    "2024-03-31T01:000Z",
    "2024-03-31T01:00Z ",
    " 2024-03-31T01:00",
    "2024/03-31T01:00Z",
    "2024-03/31T01:00Z",
    "2024-03-31T01.00Z",
    "-024-03-31T01:00Z",
    "20240331T0100Z",
    "2024-03-٣T01:00Z",
    "２4-03-31T01:00Z",
];

#[test]
fn other_texts_are_no_stamps(rt: HostRuntime) {
    for text in NO_STAMPS {
        assert_eq!(rt; read_stamp(text), None, "{text}");
    }
    assert_eq!(rt; read_basic_stamp("2024-03-31T01:00Z"), None);
    assert_eq!(rt; read_basic_stamp("20230229T0100Z"), None);
}

/// A date with the day numbers of the day, of the first of its month and of the first of its year.
struct DateRow {
    date: &'static str,
    day: i64,
    month: i64,
    year: i64,
}

const DATES: &[DateRow] = &[
    DateRow {
        date: "1970-01-01",
        day: 0,
        month: 0,
        year: 0,
    },
    DateRow {
        date: "1969-12-31",
        day: -1,
        month: -31,
        year: -365,
    },
    DateRow {
        date: "1970-12-31",
        day: 364,
        month: 334,
        year: 0,
    },
    DateRow {
        date: "2000-02-29",
        day: 11_016,
        month: 10_988,
        year: 10_957,
    },
    DateRow {
        date: "2023-02-28",
        day: 19_416,
        month: 19_389,
        year: 19_358,
    },
    DateRow {
        date: "2024-02-29",
        day: 19_782,
        month: 19_754,
        year: 19_723,
    },
    DateRow {
        date: "2024-03-01",
        day: 19_783,
        month: 19_783,
        year: 19_723,
    },
    DateRow {
        date: "2024-04-30",
        day: 19_843,
        month: 19_814,
        year: 19_723,
    },
    DateRow {
        date: "2024-12-31",
        day: 20_088,
        month: 20_058,
        year: 19_723,
    },
    DateRow {
        date: "2025-01-01",
        day: 20_089,
        month: 20_089,
        year: 20_089,
    },
    DateRow {
        date: "2100-02-28",
        day: 47_540,
        month: 47_513,
        year: 47_482,
    },
    DateRow {
        date: "2199-12-31",
        day: 84_005,
        month: 83_975,
        year: 83_641,
    },
    DateRow {
        date: "9999-12-31",
        day: 2_932_896,
        month: 2_932_866,
        year: 2_932_532,
    },
    DateRow {
        date: "0000-01-01",
        day: -719_528,
        month: -719_528,
        year: -719_528,
    },
    DateRow {
        date: "0000-12-31",
        day: -719_163,
        month: -719_193,
        year: -719_528,
    },
];

fn date_of(alloc: Global, day: i64) -> Result<String, Fail>
    requires { IsCalendarDay day }
{
    let mut text = String::new(alloc);
    write_date(day, &mut text)?;
    Ok(text)
}

#[test]
fn dates_are_read_and_written(rt: HostRuntime) -> Result<(), Fail> {
    for row in DATES {
        let day = read_date(row.date).ok_or("no date")?;
        let known = day == row.day && first_of_month(day) == row.month;
        assert!(rt; known && first_of_year(day) == row.year, "{}", row.date);
        let text = date_of(rt.alloc(), day)?;
        assert_eq!(rt; text.as_str(), row.date);
    }
    Ok(())
}

const NO_DATES: &[&str] = &[
    "",
    "2023-02-29",
    "2100-02-29",
    "2024-02-30",
    "2024-04-31",
    "2024-13-01",
    "2024-00-01",
    "2024-01-00",
    "2024-1-01",
    "2024-01-1",
    "2024-01-011",
    " 2024-01-01",
    "2024/01-01",
    "2024-01/01",
    "20240101",
    "-024-01-01",
    "2024-01-01T00:00Z",
];

#[test]
fn other_texts_are_no_dates(rt: HostRuntime) {
    for text in NO_DATES {
        assert_eq!(rt; read_date(text), None, "{text}");
    }
}

/// A window, and whether it is from 1971 on, up to 2200, not empty and of at most 400 days.
struct WindowRow {
    from: &'static str,
    until: &'static str,
    within: bool,
}

const WINDOWS: &[WindowRow] = &[
    WindowRow {
        from: "1971-01-01T00:00Z",
        until: "1971-01-01T00:01Z",
        within: true,
    },
    WindowRow {
        from: "1970-12-31T23:59Z",
        until: "1971-01-01T00:01Z",
        within: false,
    },
    WindowRow {
        from: "2199-12-31T23:59Z",
        until: "2200-01-01T00:00Z",
        within: true,
    },
    WindowRow {
        from: "2199-12-31T23:59Z",
        until: "2200-01-01T00:01Z",
        within: false,
    },
    WindowRow {
        from: "2024-01-01T00:00Z",
        until: "2025-02-04T00:00Z",
        within: true,
    },
    WindowRow {
        from: "2024-01-01T00:00Z",
        until: "2025-02-04T00:01Z",
        within: false,
    },
    WindowRow {
        from: "2024-03-31T01:00Z",
        until: "2024-03-31T01:00Z",
        within: false,
    },
    WindowRow {
        from: "2024-03-31T01:01Z",
        until: "2024-03-31T01:00Z",
        within: false,
    },
    WindowRow {
        from: "0000-01-01T00:00Z",
        until: "9999-12-31T23:59Z",
        within: false,
    },
];

#[test]
fn windows_have_limits(rt: HostRuntime) -> Result<(), Fail> {
    for row in WINDOWS {
        let from = read_stamp(row.from).ok_or("no stamp")?;
        let until = read_stamp(row.until).ok_or("no stamp")?;
        let window = Window { from, until };
        assert_eq!(rt; window.is_within_limits(), row.within, "{}", row.from);
    }
    Ok(())
}
