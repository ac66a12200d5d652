//! When a launch may be called, and what then comes of it, by the definition alone.
ghost use Rattle.std.specs.Prelude.{◌≡◌, pos, ◌+ℤ◌, ◌≤ℤ◌, ◌<ℤ◌, ◌↔◌, IsTrue};
ghost use Rattle.jiff.specs.Types.{TimeZone};
ghost use Rattle.zone_minutes.specs.Civil.{IsCalendarMinute, day_number};
ghost use Rattle.zone_minutes.specs.Zone.{IsReadAs, local_of};
ghost use Rattle.due_set.specs.Calls.{HasCome, IsOnTime};

use crate::job::JobKind;
use zone_minutes::{Minute, ZoneRuns, day_of};

/// What comes of a launch that is called.
#[derive(Clone, Copy, Debug, PartialEq, Eq)]
pub enum Kind2 {
    /// It is launched.
    OnTime,
    /// The minutes of grace are over, and it is given up.
    Late,
}

// The number of the day that the zone's calendar shows.
fn date_of(zone: &ZoneRuns, now: Minute) -> i64
    requires since { zone.now.from ≤ℤ now.0 }
    requires before { now.0 <ℤ zone.now.until }
    ensures { (z : TimeZone) → IsReadAs zone.now.source z → result ≡ day_number (local_of z now.0) }
{
    day_of(zone.local(now))
}

/// The local time that the zone's clock shows at an instant, in minutes since 1970-01-01T00:00.
pub fn local_at(zone: &ZoneRuns, at: Minute) -> i64
    requires since { zone.now.from ≤ℤ at.0 }
    requires before { at.0 <ℤ zone.now.until }
    ensures local { (z : TimeZone) → IsReadAs zone.now.source z → result ≡ local_of z at.0 }
    ensures calendar { IsCalendarMinute result }
{
    zone.local(at)
}

/// Whether the launch's instant has come; of an anacron job, its date.
pub fn has_come(kind: &JobKind, zone: &ZoneRuns, at: i64, now: Minute) -> bool
    requires since { zone.now.from ≤ℤ now.0 }
    requires before { now.0 <ℤ zone.now.until }
    ensures { (z : TimeZone) → IsReadAs zone.now.source z
        → (IsTrue result ↔ HasCome kind.now z at now.0) }
{
    match kind {
        JobKind::Anacron { .. } => at <= date_of(zone, now),
        JobKind::Crontab { .. } | JobKind::Never => at <= now.0,
    }
}

// Whether it is at most the minutes of grace after an instant.
fn is_within_grace(grace: u32, at: i64, now: Minute) -> bool
    requires { IsCalendarMinute now.0 }
    ensures { IsTrue result ↔ (now.0 ≤ℤ (at +ℤ pos grace)) }
{
    // `at` may be any number, so nothing is added to it.
    now.0 - i64::from(grace) <= at
}

/// Whether it is at most the minutes of grace after the launch's instant; of an anacron job, its date.
pub fn is_on_time(kind: &JobKind, zone: &ZoneRuns, grace: u32, at: i64, now: Minute) -> bool
    requires calendar { IsCalendarMinute now.0 }
    requires since { zone.now.from ≤ℤ now.0 }
    requires before { now.0 <ℤ zone.now.until }
    ensures { (z : TimeZone) → IsReadAs zone.now.source z
        → (IsTrue result ↔ IsOnTime kind.now z grace at now.0) }
{
    match kind {
        JobKind::Anacron { .. } => date_of(zone, now) == at,
        JobKind::Crontab { .. } | JobKind::Never => is_within_grace(grace, at, now),
    }
}
