//! The runs of a zone, found from one change of its offset to the next.
ghost use Rattle.std.specs.Prelude.{◌≡◌, ◌≤◌, ◌<◌, ℤ, pos, ◌+ℤ◌, ◌≤ℤ◌, ◌<ℤ◌, IfOk, IfSome};
ghost use Rattle.jiff.specs.Words.{plain_zone, next_at};
ghost use Rattle.zone_minutes.specs.Zone.{local_of, minute_nanos, IsMinutesAhead};
ghost use Rattle.zone_minutes.specs.Run.{AreRuns};
ghost use Rattle.zone_minutes.specs.Steady.{IsSteady};

use crate::minute::Minute;
use crate::run::Run;
use jiff::Timestamp;
use jiff::tz::TimeZone;
use std::alloc::{AllocError, Global};

// The minutes of a day.
const DAY: u32 = 1440;

/// The run from one instant on and before another.
pub(crate) fn make_run(from: u32, until: u32, ahead: i16) -> Run
    requires { IsMinutesAhead ahead }
    ensures from { result.from.0 ≡ pos from }
    ensures until { result.until.0 ≡ pos until }
    ensures ahead { result.ahead ≡ ahead }
{
    Run {
        from: Minute(i64::from(from)),
        until: Minute(i64::from(until)),
        ahead,
    }
}

// How many minutes the local time is ahead of the instant.
fn ahead_at(zone: &TimeZone<'_>, minute: u32) -> i16
    requires { minute ≤ 120_968_640 }
    ensures local { local_of (plain_zone zone.now) (pos minute) ≡ pos minute +ℤ result }
    ensures range { IsMinutesAhead result }
{
    let instant = Timestamp::from_second(i64::from(minute) * 60).unwrap();
    zone.to_offset(instant).seconds().div_euclid(60) as i16
}

// The minute in which an instant lies, or the first of all for one before 1970.
fn minute_of(instant: Timestamp) -> u32
    ensures { (t : ℤ) → pos 0 ≤ℤ t → t <ℤ pos result → minute_nanos t <ℤ instant.nanosecond }
{
    let second = instant.as_second();
    if second < 0 {
        return 0;
    }
    (second as u64 / 60) as u32
}

// The minute of the next change of the offset; none is told that comes behind all windows.
fn change_after(zone: &TimeZone<'_>, minute: u32) -> u32
    requires { minute ≤ 120_968_640 }
    ensures { (t : ℤ) → pos 0 ≤ℤ t → t <ℤ pos result
        → IfSome (next_at (plain_zone zone.now) (minute_nanos (pos minute))) (λ change. minute_nanos t <ℤ change.0) }
{
    let instant = Timestamp::from_second(i64::from(minute) * 60).unwrap();
    match zone.following(instant).next() {
        Some(change) => minute_of(change.timestamp()),
        None => u32::MAX,
    }
}

// The end of the instants from a minute on at which the offset is one, as far as the zone tells it: the next change, or
// the next day, since a rule may put its clocks forward or back as a year begins, without a change that it tells.
fn steady_end(zone: &TimeZone<'_>, minute: u32, until: u32) -> u32
    requires some { minute < until }
    requires range { until ≤ 120_968_640 }
    ensures later { minute < result }
    ensures inside { result ≤ until }
    ensures steady { IsSteady (plain_zone zone.now) (pos minute) (pos result) }
{
    let change = change_after(zone, minute);
    let next_day = (minute / DAY + 1) * DAY;
    change.min(next_day).min(until).max(minute + 1)
}

/// The runs of the instants from one on and before another.
pub(crate) fn list_runs(
    alloc: Global,
    zone: &TimeZone<'_>,
    from: u32,
    until: u32,
) -> Result<Vec<Run>, AllocError>
    requires some { from < until }
    requires range { until ≤ 120_968_640 }
    ensures { IfOk result (λ runs. AreRuns (plain_zone zone.now) (pos from) (pos until) runs.items) }
{
    let mut runs = Vec::new(alloc);
    let mut start = from;
    let mut ahead = ahead_at(zone, from);
    let mut minute = steady_end(zone, from, until);
    'steady: while minute < until {
        let next = ahead_at(zone, minute);
        let end = steady_end(zone, minute, until);
        if next != ahead {
            runs.push(make_run(start, minute, ahead))?;
            start = minute;
            ahead = next;
        }
        minute = end;
    }
    runs.push(make_run(start, until, ahead))?;
    Ok(runs)
}
