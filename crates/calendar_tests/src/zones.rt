//! Local times of zones.
ghost use Rattle.std.specs.Prelude.{◌≡◌, pos, IfOk};
ghost use Rattle.zone_minutes.specs.Civil.{IsCalendarMinute};
ghost use Rattle.zone_minutes.specs.Window.{IsWithinLimits};

use crate::build::{SAMOA, window_of};
use std::alloc::Global;
use std::test::Fail;
use zone_minutes::ZoneSource::{Fixed, Posix, Tzif};
use zone_minutes::{Minute, Window, ZoneFault, ZoneRuns, ZoneSource, read_stamp};

const PARIS: &str = "CET-1CEST,M3.5.0,M10.5.0/3";

const LORD_HOWE: &str = "<+1030>-10:30<+11>-11,M10.1.0,M4.1.0";

const TROLL: &str = "<+00>0<+02>-2,M3.5.0/1,M10.5.0/3";

const NEW_YORK: &str = "EST5EDT,M3.2.0,M11.1.0";

const DUBLIN: &str = "IST-1GMT0,M10.5.0,M3.5.0/1";

const KIRITIMATI: &str = "<+14>-14";

const BAKER_ISLAND: &str = "<-12>12";

/// From the offset -00:44:30 to 0 on 1972-01-07, by `zic`.
const MONROVIA: &[u8] =
    b"TZif2\0\0\0\0\0\0\0\0\0\0\0\0\0\0\0\0\0\0\0\0\0\0\0\0\0\0\0\0\0\0\0\0\0\0\x01\0\0\0\x01\0\0\0\0\
    \0\0\0TZif2\0\0\0\0\0\0\0\0\0\0\0\0\0\0\0\0\0\0\0\0\0\0\0\0\0\0\0\0\0\0\x01\0\0\0\x02\0\0\0\x08\
    \0\0\0\0\x03\xcaZn\x01\xff\xff\xf5\x92\0\0\0\0\0\0\0\x04MMT\0GMT\0\nGMT0\n";

/// A zone, an instant, and what clocks show then.
struct Row {
    zone: ZoneSource<'static>,
    instant: &'static str,
    clocks: &'static str,
}

/// By the offset alone: of Greenwich, India, Newfoundland and Nepal, the westernmost and the easternmost.
const BY_OFFSET: &[Row] = &[
    Row {
        zone: Fixed { minutes: 0 },
        instant: "2024-03-30T21:30Z",
        clocks: "2024-03-30T21:30Z",
    },
    Row {
        zone: Fixed { minutes: 0 },
        instant: "2024-03-31T00:30Z",
        clocks: "2024-03-31T00:30Z",
    },
    Row {
        zone: Fixed { minutes: 0 },
        instant: "2024-03-31T00:59Z",
        clocks: "2024-03-31T00:59Z",
    },
    Row {
        zone: Fixed { minutes: 330 },
        instant: "2024-03-30T21:30Z",
        clocks: "2024-03-31T03:00Z",
    },
    Row {
        zone: Fixed { minutes: 330 },
        instant: "2024-03-31T00:30Z",
        clocks: "2024-03-31T06:00Z",
    },
    Row {
        zone: Fixed { minutes: 330 },
        instant: "2024-03-31T00:59Z",
        clocks: "2024-03-31T06:29Z",
    },
    Row {
        zone: Fixed { minutes: -210 },
        instant: "2024-03-30T21:30Z",
        clocks: "2024-03-30T18:00Z",
    },
    Row {
        zone: Fixed { minutes: -210 },
        instant: "2024-03-31T00:30Z",
        clocks: "2024-03-30T21:00Z",
    },
    Row {
        zone: Fixed { minutes: -210 },
        instant: "2024-03-31T00:59Z",
        clocks: "2024-03-30T21:29Z",
    },
    Row {
        zone: Fixed { minutes: 345 },
        instant: "2024-03-30T21:30Z",
        clocks: "2024-03-31T03:15Z",
    },
    Row {
        zone: Fixed { minutes: 345 },
        instant: "2024-03-31T00:30Z",
        clocks: "2024-03-31T06:15Z",
    },
    Row {
        zone: Fixed { minutes: 345 },
        instant: "2024-03-31T00:59Z",
        clocks: "2024-03-31T06:44Z",
    },
    Row {
        zone: Fixed { minutes: -720 },
        instant: "2024-03-30T21:30Z",
        clocks: "2024-03-30T09:30Z",
    },
    Row {
        zone: Fixed { minutes: -720 },
        instant: "2024-03-31T00:30Z",
        clocks: "2024-03-30T12:30Z",
    },
    Row {
        zone: Fixed { minutes: -720 },
        instant: "2024-03-31T00:59Z",
        clocks: "2024-03-30T12:59Z",
    },
    Row {
        zone: Fixed { minutes: 840 },
        instant: "2024-03-30T21:30Z",
        clocks: "2024-03-31T11:30Z",
    },
    Row {
        zone: Fixed { minutes: 840 },
        instant: "2024-03-31T00:30Z",
        clocks: "2024-03-31T14:30Z",
    },
    Row {
        zone: Fixed { minutes: 840 },
        instant: "2024-03-31T00:59Z",
        clocks: "2024-03-31T14:59Z",
    },
];

/// By a rule or a file, as Python's `zoneinfo` has it.
const BY_ZONE: &[Row] = &[
    Row {
        zone: Posix(PARIS),
        instant: "2024-03-31T00:59Z",
        clocks: "2024-03-31T01:59Z",
    },
    Row {
        zone: Posix(PARIS),
        instant: "2024-03-31T01:00Z",
        clocks: "2024-03-31T03:00Z",
    },
    Row {
        zone: Posix(PARIS),
        instant: "2024-10-27T00:59Z",
        clocks: "2024-10-27T02:59Z",
    },
    Row {
        zone: Posix(PARIS),
        instant: "2024-10-27T01:00Z",
        clocks: "2024-10-27T02:00Z",
    },
    Row {
        zone: Posix(LORD_HOWE),
        instant: "2024-04-06T14:59Z",
        clocks: "2024-04-07T01:59Z",
    },
    Row {
        zone: Posix(LORD_HOWE),
        instant: "2024-04-06T15:00Z",
        clocks: "2024-04-07T01:30Z",
    },
    Row {
        zone: Posix(LORD_HOWE),
        instant: "2024-10-05T15:29Z",
        clocks: "2024-10-06T01:59Z",
    },
    Row {
        zone: Posix(LORD_HOWE),
        instant: "2024-10-05T15:30Z",
        clocks: "2024-10-06T02:30Z",
    },
    Row {
        zone: Posix(TROLL),
        instant: "2024-03-31T00:59Z",
        clocks: "2024-03-31T00:59Z",
    },
    Row {
        zone: Posix(TROLL),
        instant: "2024-03-31T01:00Z",
        clocks: "2024-03-31T03:00Z",
    },
    Row {
        zone: Posix(TROLL),
        instant: "2024-10-27T00:59Z",
        clocks: "2024-10-27T02:59Z",
    },
    Row {
        zone: Posix(TROLL),
        instant: "2024-10-27T01:00Z",
        clocks: "2024-10-27T01:00Z",
    },
    Row {
        zone: Posix(NEW_YORK),
        instant: "2024-03-10T06:59Z",
        clocks: "2024-03-10T01:59Z",
    },
    Row {
        zone: Posix(NEW_YORK),
        instant: "2024-03-10T07:00Z",
        clocks: "2024-03-10T03:00Z",
    },
    Row {
        zone: Posix(NEW_YORK),
        instant: "2024-11-03T05:59Z",
        clocks: "2024-11-03T01:59Z",
    },
    Row {
        zone: Posix(NEW_YORK),
        instant: "2024-11-03T06:00Z",
        clocks: "2024-11-03T01:00Z",
    },
    Row {
        zone: Posix(DUBLIN),
        instant: "2024-03-31T00:59Z",
        clocks: "2024-03-31T00:59Z",
    },
    Row {
        zone: Posix(DUBLIN),
        instant: "2024-03-31T01:00Z",
        clocks: "2024-03-31T02:00Z",
    },
    Row {
        zone: Posix(DUBLIN),
        instant: "2024-10-27T00:59Z",
        clocks: "2024-10-27T01:59Z",
    },
    Row {
        zone: Posix(DUBLIN),
        instant: "2024-10-27T01:00Z",
        clocks: "2024-10-27T01:00Z",
    },
    Row {
        zone: Posix(KIRITIMATI),
        instant: "2024-06-01T10:00Z",
        clocks: "2024-06-02T00:00Z",
    },
    Row {
        zone: Posix(BAKER_ISLAND),
        instant: "2024-06-01T12:00Z",
        clocks: "2024-06-01T00:00Z",
    },
    Row {
        zone: Tzif(SAMOA),
        instant: "2011-12-30T09:59Z",
        clocks: "2011-12-29T23:59Z",
    },
    Row {
        zone: Tzif(SAMOA),
        instant: "2011-12-30T10:00Z",
        clocks: "2011-12-31T00:00Z",
    },
    Row {
        zone: Tzif(MONROVIA),
        instant: "1971-01-01T00:00Z",
        clocks: "1970-12-31T23:15Z",
    },
    Row {
        zone: Tzif(MONROVIA),
        instant: "1971-12-31T23:59Z",
        clocks: "1971-12-31T23:14Z",
    },
    Row {
        zone: Tzif(MONROVIA),
        instant: "1972-01-07T00:00Z",
        clocks: "1972-01-06T23:15Z",
    },
    Row {
        zone: Tzif(MONROVIA),
        instant: "1972-01-07T00:43Z",
        clocks: "1972-01-06T23:58Z",
    },
    Row {
        zone: Tzif(MONROVIA),
        instant: "1972-01-07T00:44Z",
        clocks: "1972-01-06T23:59Z",
    },
    Row {
        zone: Tzif(MONROVIA),
        instant: "1972-01-07T00:45Z",
        clocks: "1972-01-07T00:45Z",
    },
];

/// The window of one minute.
fn minute_from(at: Minute) -> Result<Window, Fail>
    requires { IsCalendarMinute at.0 }
    ensures limits { IfOk result IsWithinLimits }
    ensures from { IfOk result (λ window. window.from.0 ≡ at.0) }
{
    let until = Minute(at.0 + 1);
    let window = Window { from: at, until };
    if window.is_within_limits() {
        Ok(window)
    } else {
        Err(Fail::from("no window"))
    }
}

/// What the zone's clocks show at the instant of a stamp.
fn shown(alloc: Global, source: &ZoneSource<'_>, stamp: &str) -> Result<Minute, Fail> {
    let at = read_stamp(stamp).ok_or("no stamp")?;
    let window = minute_from(at)?;
    if !source.is_in_range() {
        return Err(Fail::from("no offset"));
    }
    let zone = ZoneRuns::build(alloc, source, window)?;
    Ok(Minute(zone.local(at)))
}

#[test]
fn clocks_show_local_time(rt: HostRuntime) -> Result<(), Fail> {
    for row in BY_OFFSET {
        let clocks = shown(rt.alloc(), &row.zone, row.instant)?;
        assert_eq!(rt; Some(clocks), read_stamp(row.clocks), "{}", row.instant);
    }
    for row in BY_ZONE {
        let clocks = shown(rt.alloc(), &row.zone, row.instant)?;
        assert_eq!(rt; Some(clocks), read_stamp(row.clocks), "{}", row.instant);
    }
    Ok(())
}

/// Rules and files that `jiff` refuses.
const REFUSED: &[ZoneSource<'static>] = &[
    Posix(""),
    Posix("no zone"),
    Posix("CET"),
    Posix("CET-1CEST,M3.5.0"),
    Posix("CET-1 "),
    Tzif(b""),
    Tzif(b"T"),
];

fn fault_of(alloc: Global, source: &ZoneSource<'_>) -> Result<Option<ZoneFault>, Fail> {
    let window = window_of("2024-03-31T00:00Z", "2024-03-31T01:00Z")?;
    if !source.is_in_range() {
        return Err(Fail::from("no offset"));
    }
    Ok(ZoneRuns::build(alloc, source, window).err())
}

#[test]
fn refused_sources(rt: HostRuntime) -> Result<(), Fail> {
    for source in REFUSED {
        let fault = fault_of(rt.alloc(), source)?;
        assert_eq!(rt; fault, Some(ZoneFault::BadZone), "{source:?}");
    }
    for length in [44, 85, 151] {
        let file = SAMOA.get(..length).ok_or("no such part")?;
        let fault = fault_of(rt.alloc(), &Tzif(file))?;
        assert_eq!(rt; fault, Some(ZoneFault::BadZone), "{length}");
    }
    Ok(())
}

/// An instant of the 400 days from 2024-01-01T00:00Z on in Paris, and its run: the first instant, the end, and how many
/// minutes clocks are ahead.
struct RunRow {
    at: i64,
    from: i64,
    until: i64,
    ahead: i16,
}

const RUNS: &[RunRow] = &[
    RunRow {
        at: 28_530_779,
        from: 28_400_940,
        until: 28_530_780,
        ahead: 60,
    },
    RunRow {
        at: 28_530_780,
        from: 28_530_780,
        until: 28_833_180,
        ahead: 120,
    },
    RunRow {
        at: 28_977_119,
        from: 28_833_180,
        until: 28_977_120,
        ahead: 60,
    },
];

fn days_in_paris(alloc: Global) -> Result<ZoneRuns, Fail>
    ensures from { IfOk result (λ zone. zone.from ≡ pos 28_401_120) }
    ensures until { IfOk result (λ zone. zone.until ≡ pos 28_977_120) }
{
    let window = Window {
        from: Minute(28_401_120),
        until: Minute(28_977_120),
    };
    Ok(ZoneRuns::build(alloc, &Posix(PARIS), window)?)
}

#[test]
fn runs_of_a_rule(rt: HostRuntime) -> Result<(), Fail> {
    let zone = days_in_paris(rt.alloc())?;
    for row in RUNS {
        if row.at < 28_401_120 || 28_977_120 <= row.at {
            return Err(Fail::from("not in the window"));
        }
        let run = zone.run_at(Minute(row.at));
        let known = run.from.0 == row.from && run.until.0 == row.until;
        assert!(rt; known && run.ahead == row.ahead, "{}", row.at);
    }
    Ok(())
}
