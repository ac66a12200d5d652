ghost use Rattle.std.specs.Prelude.{◌≡◌, ◌≢◌, ◌↔◌, ◌<◌, ◌<ℤ◌, ◌≤ℤ◌, ℤ, IfSome, IfNone};
ghost use Rattle.jiff_core.specs.Calendar.{days_from_civil, IsCivilDate, IsEpochDay};
ghost use Rattle.zone_minutes.specs.Calendar.{date_of_day, IsInLaterMonth};
ghost use Rattle.zone_minutes.specs.Civil.{civil_at, day_number, first_of_month, first_of_year, weekday_of, IsCalendarMinute, IsCalendarDay};

use jiff_core::civil::Date;

/// A date of the proleptic Gregorian calendar and a time of day.
#[derive(Clone, Copy, Debug, PartialEq, Eq)]
pub struct Civil {
    pub year: i16,
    /// From 1 to 12.
    pub month: u8,
    /// From 1 to 31.
    pub day: u8,
    /// From 0 to 23.
    pub hour: u8,
    /// From 0 to 59.
    pub minute: u8,
}

/// The date and the time of day of a civil minute: minutes since 1970-01-01 00:00.
pub fn civil_of(number: i64) -> Civil
    requires { IsCalendarMinute number }
    ensures civil { result ≡ civil_at number }
    ensures day { days_from_civil result.year result.month result.day ≡ day_number number }
    ensures date { IsCivilDate result.year result.month result.day }
    ensures hour { result.hour < 24 }
    ensures minute { result.minute < 60 }
{
    let date = Date::from_unix_epoch_day(day_of(number)).unwrap();
    // Unsigned before it is divided: it is never negative.
    let minute = number.rem_euclid(1440) as u32;
    Civil {
        year: date.year,
        month: date.month,
        day: date.day,
        hour: (minute / 60) as u8,
        minute: (minute % 60) as u8,
    }
}

/// The civil minute of a date and a time of day, if they exist in the years 0000 to 9999.
pub fn number_of(civil: Civil) -> Option<i64>
    ensures number { IfSome result (λ at. IsCalendarMinute at × (civil_at at ≡ civil)) }
    ensures none { IfNone result ((at : ℤ) → IsCalendarMinute at → civil_at at ≢ civil) }
{
    let Civil {
        year,
        month,
        day,
        hour,
        minute,
    } = civil;
    if year < 0 || month > 12 || day > 31 || hour > 23 || minute > 59 {
        return None;
    }
    let date = Date::new(year, month as i8, day as i8).ok()?;
    let minute = u32::from(hour) * 60 + u32::from(minute);
    Some(i64::from(date.to_unix_epoch_day()) * 1440 + i64::from(minute))
}

/// The number of a civil minute's day: 0 for 1970-01-01, and negative before it.
pub fn day_of(number: i64) -> i64
    ensures day { result ≡ day_number number }
    ensures range { IsCalendarMinute number → IsCalendarDay result }
{
    number.div_euclid(1440)
}

/// The weekday of a day number, from 0 for Sunday to 6 for Saturday.
pub fn weekday_of(day: i64) -> u8
    requires { IsEpochDay day }
    ensures weekday { result ≡ weekday_of day }
    ensures range { result < 7 }
{
    // Day 0, 1970-01-01, was a Thursday.
    (day + 4).rem_euclid(7) as u8
}

/// The day number of the first day of a day's month.
pub fn first_of_month(day: i64) -> i64
    requires { IsCalendarDay day }
    ensures first { result ≡ first_of_month day }
    ensures range { IsCalendarDay result }
    ensures before { result ≤ℤ day }
{
    let date = Date::from_unix_epoch_day(day).unwrap();
    day - i64::from(date.day - 1)
}

/// The day number of the first day of a day's year.
pub fn first_of_year(day: i64) -> i64
    requires { IsCalendarDay day }
    ensures first { result ≡ first_of_year day }
    ensures range { IsCalendarDay result }
    ensures before { result ≤ℤ day }
{
    let date = Date::from_unix_epoch_day(day).unwrap();
    day - i64::from(date.day_of_year() - 1)
}

/// A day lies before the first day of another's month just where that month is later than its own, and before the first
/// day of another's year just where that year is later than its own.
pub fn a_later_month_begins_later()
    ensures month { (a b : ℤ) → IsCalendarDay a → IsCalendarDay b
        → (a <ℤ first_of_month b) ↔ IsInLaterMonth (date_of_day a) (date_of_day b) }
    ensures year { (a b : ℤ) → IsCalendarDay a → IsCalendarDay b
        → (a <ℤ first_of_year b) ↔ ((date_of_day a).year < (date_of_day b).year) }
{}
