//! The next civil minute that an entry's fields match: a month that doesn't match is passed over as a whole, and so is a
//! day, and in a day that does the hour and the minute are the lowest bits that are left of their fields.
ghost use Rattle.std.specs.Prelude.{◌≡◌, ◌<◌, ◌≤◌, ◌+◌, ◌*◌, ℕ, ℤ, pos, negsuc, ◌+ℤ◌, ◌≤ℤ◌, IfSome, IfNone};
ghost use Rattle.jiff_core.specs.Calendar.{IsCivilDate, days_in_month};
ghost use Rattle.zone_minutes.specs.Civil.{IsCalendarMinute};
ghost use Rattle.due_set.specs.Matching.{HasNoneBetween, IsNextValue, IsNextTime, MatchNoTimeBetween, IsFirstMatch, MatchNoneOf, MatchNoneOfDays, rest_of_day};

use crate::due::matches_date;
use cron_fields::{FieldSet, Fields};
use jiff_core::civil::days_in_month;
use zone_minutes::{Civil, civil_of, day_of, weekday_of};

/// How many minutes after a civil minute the first one comes that the fields match, if fewer than so many.
pub fn minutes_to_match(fields: &Fields, from: i64, count: u32) -> Option<u32>
    requires since { negsuc 1559 ≤ℤ from }
    requires until { (from +ℤ pos count) ≤ℤ pos 121_000_000 }
    requires range { count ≤ 120_968_640 }
    ensures found { IfSome result (IsFirstMatch fields.now from) }
    ensures before { IfSome result (λ steps. steps < count) }
    ensures none { IfNone result (MatchNoneOf fields.now from count) }
{
    let mut passed = 0;
    while passed < count {
        let minute = later(from, passed);
        if let Some(steps) = minutes_in_day(fields, minute) {
            return below(passed + steps, count);
        }
        passed += minutes_passed_over(fields, minute);
    }
    None
}

// The civil minute so many minutes after another.
fn later(minute: i64, steps: u32) -> i64
    requires since { negsuc 1559 ≤ℤ minute }
    requires until { (minute +ℤ pos steps) ≤ℤ pos 121_000_000 }
    ensures value { result ≡ (minute +ℤ pos steps) }
    ensures calendar { IsCalendarMinute result }
{
    minute + i64::from(steps)
}

/// The number, if it is below another.
pub fn below(number: u32, end: u32) -> Option<u32>
    ensures some { IfSome result (λ same. (same ≡ number) × (same < end)) }
    ensures none { IfNone result (end ≤ number) }
{
    if number < end { Some(number) } else { None }
}

// How many minutes after a civil minute the first one of the same day comes that the fields match.
fn minutes_in_day(fields: &Fields, minute: i64) -> Option<u32>
    requires { IsCalendarMinute minute }
    ensures found { IfSome result (IsFirstMatch fields.now minute) }
    ensures day { IfSome result (λ steps. steps < 1440) }
    ensures none { IfNone result (MatchNoneOf fields.now minute (rest_of_day minute)) }
{
    if !matches_date(fields, minute) {
        return None;
    }
    let from = minute.rem_euclid(1440) as u16;
    let time = next_time(fields, from)?;
    Some(u32::from(time - from))
}

// The first time of day from one on that the fields match, in minutes.
fn next_time(fields: &Fields, from: u16) -> Option<u16>
    requires { from < 1440 }
    ensures found { IfSome result (IsNextTime fields.now from) }
    ensures day { IfSome result (λ time. time < 1440) }
    ensures none { IfNone result (MatchNoTimeBetween fields.now from 1440) }
{
    let hour = (from / 60) as u8;
    if let Some(time) = next_of_hour(fields, hour, (from % 60) as u8) {
        return Some(time);
    }
    let later = next_value(fields.hour, hour + 1, 24)?;
    next_of_hour(fields, later, 0)
}

// The first time of day that the fields match from a minute of an hour on, in that hour.
fn next_of_hour(fields: &Fields, hour: u8, from: u8) -> Option<u16>
    requires hour { hour < 24 }
    requires from { from < 60 }
    ensures found { IfSome result (IsNextTime fields.now (hour * 60 + from)) }
    ensures hour { IfSome result (λ time. time < hour * 60 + 60) }
    ensures none { IfNone result (MatchNoTimeBetween fields.now (hour * 60 + from) (hour * 60 + 60)) }
{
    if !fields.hour.has(hour) {
        return None;
    }
    let minute = next_value(fields.minute, from, 60)?;
    Some(u16::from(hour) * 60 + u16::from(minute))
}

// The least value of a field from one on, below another.
fn next_value(field: FieldSet, from: u8, end: u8) -> Option<u8>
    requires { from < 64 }
    ensures found { IfSome result (IsNextValue field from) }
    ensures before { IfSome result (λ value. value < end) }
    ensures none { IfNone result (HasNoneBetween field from end) }
{
    let rest = field.bits >> from;
    if rest == 0 {
        return None;
    }
    let value = from + rest.trailing_zeros() as u8;
    if value < end { Some(value) } else { None }
}

// Of how many minutes from a civil minute on the fields match none, where they match none of what is left of its day: up to
// the next day of its month whose date they match, or to the month's end.
fn minutes_passed_over(fields: &Fields, minute: i64) -> u32
    requires calendar { IsCalendarMinute minute }
    requires none { MatchNoneOf fields.now minute (rest_of_day minute) }
    ensures some { 0 < result }
    ensures month { result ≤ 44_640 }
    ensures none { MatchNoneOf fields.now minute result }
{
    let days = days_passed_over(fields, civil_of(minute), weekday_of(day_of(minute)));
    u32::from(days) * 1440 + minutes_of_day(minute)
}

// How many days of its month follow a date at once that the fields don't match.
fn days_passed_over(fields: &Fields, date: Civil, weekday: u8) -> u8
    requires date { IsCivilDate date.year date.month date.day }
    requires weekday { weekday < 7 }
    ensures month { date.day + result ≤ days_in_month date.year date.month }
    ensures none { MatchNoneOfDays fields.now date weekday result }
{
    let left = days_in_month(date.year, date.month) - date.day;
    if !fields.month.has(date.month) {
        return left;
    }
    for days in 0..left {
        let weekday_then = (weekday + days + 1) % 7;
        if fields.matches_date(date.month, date.day + days + 1, weekday_then) {
            return days;
        }
    }
    left
}

/// How many minutes are left of a civil minute's day, with the minute itself.
pub fn minutes_of_day(minute: i64) -> u32
    ensures rest { result ≡ rest_of_day minute }
    ensures some { 0 < result }
    ensures day { result ≤ 1440 }
{
    1440 - minute.rem_euclid(1440) as u32
}
