//! When an entry of a crontab is due, by the definition alone.
ghost use Rattle.std.specs.Prelude.{◌≡◌, ◌↔◌, ℤ, pos, ◌+ℤ◌, ◌-ℤ◌, ◌≤ℤ◌, ◌<ℤ◌, IsTrue};
ghost use Rattle.jiff.specs.Types.{TimeZone};
ghost use Rattle.zone_minutes.specs.Civil.{IsCalendarMinute};
ghost use Rattle.zone_minutes.specs.Zone.{IsReadAs, IsReadable, local_of};
ghost use Rattle.due_set.specs.Due.{Matches, MatchesDateAt, IsFirstShown, IsSkipped, IsDueOnce, IsDueIn};

use cron_fields::Fields;
use zone_minutes::{Minute, ZoneRuns, civil_of, day_of, weekday_of};

/// Whether the fields match a civil minute.
pub fn matches(fields: &Fields, minute: i64) -> bool
    requires { IsCalendarMinute minute }
    ensures { IsTrue result ↔ Matches fields.now minute }
{
    let civil = civil_of(minute);
    fields.matches_date(civil.month, civil.day, weekday_of(day_of(minute)))
        && fields.matches_time(civil.hour, civil.minute)
}

/// Whether the fields match a civil minute's date.
pub fn matches_date(fields: &Fields, minute: i64) -> bool
    requires { IsCalendarMinute minute }
    ensures { IsTrue result ↔ MatchesDateAt fields.now minute }
{
    let civil = civil_of(minute);
    fields.matches_date(civil.month, civil.day, weekday_of(day_of(minute)))
}

// The instant some minutes before another.
fn earlier(at: Minute, back: u8) -> Minute
    requires { IsCalendarMinute at.0 }
    ensures { result.0 ≡ (at.0 -ℤ pos back) }
{
    Minute(at.0 - i64::from(back))
}

// The civil minute some minutes after another.
fn later(minute: i64, step: u8) -> i64
    requires { IsCalendarMinute minute }
    ensures value { result ≡ (minute +ℤ pos step) }
{
    minute + i64::from(step)
}

/// Whether the zone's clock showed the instant's local time at none of the 179 instants before.
pub fn is_first_shown(zone: &ZoneRuns, at: Minute) -> bool
    requires calendar { IsCalendarMinute at.0 }
    requires since { zone.now.from ≤ℤ at.0 }
    requires before { at.0 <ℤ zone.now.until }
    ensures { (z : TimeZone) → IsReadAs zone.now.source z → (IsTrue result ↔ IsFirstShown z at.0) }
{
    let shown = zone.local(at);
    for back in 1..180u8 {
        let before = zone.local(earlier(at, back));
        if before == shown {
            return false;
        }
    }
    true
}

// Whether the clock passed over a civil minute, and over fewer than 180, from one to the next that it showed.
fn skips_few(before: i64, shown: i64) -> bool
    requires before { IsCalendarMinute before }
    requires shown { IsCalendarMinute shown }
    ensures { IsTrue result
        ↔ ((pos 1 <ℤ (shown -ℤ before)) × ((shown -ℤ before -ℤ pos 1) <ℤ pos 180)) }
{
    let gap = shown - before;
    1 < gap && gap <= 180
}

// Whether the civil minute some minutes after one that the clock showed is before the next that it showed, and the
// fields match it.
fn is_passed_match(fields: &Fields, before: i64, step: u8, shown: i64) -> bool
    requires before { IsCalendarMinute before }
    requires shown { IsCalendarMinute shown }
    ensures { IsTrue result
        ↔ (((before +ℤ pos step) <ℤ shown) × Matches fields.now (before +ℤ pos step)) }
{
    let minute = later(before, step);
    minute < shown && matches(fields, minute)
}

/// Whether the zone's clock skipped a civil minute just before the instant that the fields match.
pub fn skips_match(fields: &Fields, zone: &ZoneRuns, at: Minute) -> bool
    requires calendar { IsCalendarMinute at.0 }
    requires since { zone.now.from ≤ℤ at.0 }
    requires before { at.0 <ℤ zone.now.until }
    ensures { (z : TimeZone) → IsReadAs zone.now.source z
        → (IsTrue result ↔ ((minute : ℤ) × IsSkipped z at.0 minute × Matches fields.now minute)) }
{
    let before = zone.local(earlier(at, 1));
    let shown = zone.local(at);
    if !skips_few(before, shown) {
        return false;
    }
    for step in 1..180u8 {
        if is_passed_match(fields, before, step, shown) {
            return true;
        }
    }
    false
}

/// Whether the fields match the local time of the instant.
pub fn matches_shown(fields: &Fields, zone: &ZoneRuns, at: Minute) -> bool
    requires since { zone.now.from ≤ℤ at.0 }
    requires before { at.0 <ℤ zone.now.until }
    ensures read { IsReadable zone.now.source }
    ensures matches { (z : TimeZone) → IsReadAs zone.now.source z → (IsTrue result ↔ Matches fields.now (local_of z at.0)) }
{
    matches(fields, zone.local(at))
}

// Whether the fields match the local time of the instant, and the zone's clock shows it for the first time.
fn matches_first_shown(fields: &Fields, zone: &ZoneRuns, at: Minute) -> bool
    requires calendar { IsCalendarMinute at.0 }
    requires since { zone.now.from ≤ℤ at.0 }
    requires before { at.0 <ℤ zone.now.until }
    ensures read { IsReadable zone.now.source }
    ensures matches { (z : TimeZone) → IsReadAs zone.now.source z
        → (IsTrue result ↔ (Matches fields.now (local_of z at.0) × IsFirstShown z at.0)) }
{
    matches_shown(fields, zone, at) && is_first_shown(zone, at)
}

// Whether an entry with a fixed time is due at the instant.
fn is_due_once(fields: &Fields, zone: &ZoneRuns, at: Minute) -> bool
    requires calendar { IsCalendarMinute at.0 }
    requires since { zone.now.from ≤ℤ at.0 }
    requires before { at.0 <ℤ zone.now.until }
    ensures read { IsReadable zone.now.source }
    ensures due { (z : TimeZone) → IsReadAs zone.now.source z → (IsTrue result ↔ IsDueOnce fields.now z at.0) }
{
    matches_first_shown(fields, zone, at) || skips_match(fields, zone, at)
}

/// Whether the entry is due at the instant.
pub fn is_due(fields: &Fields, zone: &ZoneRuns, at: Minute) -> bool
    requires calendar { IsCalendarMinute at.0 }
    requires since { zone.now.from ≤ℤ at.0 }
    requires before { at.0 <ℤ zone.now.until }
    ensures { IsTrue result ↔ IsDueIn fields.now zone.now.source at.0 }
{
    if fields.is_frequent() {
        matches_shown(fields, zone, at)
    } else {
        is_due_once(fields, zone, at)
    }
}
