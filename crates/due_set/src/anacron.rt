//! When a job of an anacrontab may open: from one minute of its zone's day to another, on a date that is later than the one
//! last opened, once its period is over.
ghost use Rattle.std.specs.Prelude.{◌≡◌, ◌<◌, ◌≤◌, ◌+◌, ℤ, pos, negsuc, ◌+ℤ◌, ◌≤ℤ◌, ◌<ℤ◌, ◌↔◌, IsTrue, IfSome, IfNone};
ghost use Rattle.jiff.specs.Types.{TimeZone};
ghost use Rattle.zone_minutes.specs.Civil.{IsCalendarDay, IsCalendarMinute, day_number, minute_of_day};
ghost use Rattle.zone_minutes.specs.Window.{IsWithinLimits};
ghost use Rattle.zone_minutes.specs.Zone.{IsLocal, IsReadAs, local_of};
ghost use Rattle.due_set.specs.Anacron.{IsPeriodOver, IsOverSince};
ghost use Rattle.due_set.specs.Day.{IsShownFrom, Opens, OpensAfter, OpensAtNone, OpensAtNoneOf, OpensFirst, OpensOn};
ghost use Rattle.due_set.specs.Table.{IsAfter, IsAnacron};
ghost use Rattle.due_set.specs.declared.job.JobKind.TheVariants.{Anacron};

use crate::job::{JobKind, Period};
use crate::matching::{below, minutes_of_day};
use crate::scan::{end_of, first_minute, local_of};
use zone_minutes::{Minute, Window, ZoneRuns, day_of, first_of_month, first_of_year};

/// What decides when a job of an anacrontab may open.
#[derive(Clone, Copy, Debug, PartialEq, Eq)]
pub struct Opening {
    pub period: Period,
    /// A minute of the local day: from this one on the job may open.
    pub first_minute: u16,
    /// From this one on it may not.
    pub last_minute: u16,
    /// The date of its last launch, in days.
    pub last: Option<i64>,
    /// The date that was last opened.
    pub cursor: Option<i64>,
}

impl Opening {
    /// That of a job with these dates, if it runs by its period.
    pub fn of(kind: &JobKind, last: Option<i64>, cursor: Option<i64>) -> Option<Opening>
        ensures kind { IfSome result (λ it. kind.now ≡ Anacron it.period it.first_minute it.last_minute) }
        ensures last { IfSome result (λ it. it.last ≡ last) }
        ensures cursor { IfSome result (λ it. it.cursor ≡ cursor) }
        ensures none { IfNone result (IsAnacron kind.now → ⊥) }
    {
        match *kind {
            JobKind::Anacron {
                period,
                first_minute,
                last_minute,
            } => Some(Opening {
                period,
                first_minute,
                last_minute,
                last,
                cursor,
            }),
            JobKind::Crontab { .. } | JobKind::Never => None,
        }
    }
}

/// The date on which the job opens at the instant, if it may.
pub fn open_date(opening: &Opening, zone: &ZoneRuns, now: Minute) -> Option<i64>
    requires since { zone.now.from ≤ℤ now.0 }
    requires before { now.0 <ℤ zone.now.until }
    ensures found { IfSome result (λ date. (z : TimeZone) → IsReadAs zone.now.source z
        → Opens opening.now (local_of z now.0) × (date ≡ day_number (local_of z now.0))) }
    ensures none { IfNone result ((z : TimeZone) → IsReadAs zone.now.source z → Opens opening.now (local_of z now.0) → ⊥) }
{
    let shown = zone.local(now);
    if opens(opening, shown) {
        Some(day_of(shown))
    } else {
        None
    }
}

/// The first instant of the window at which the job may open.
pub fn first_opening(opening: &Opening, zone: &ZoneRuns, window: Window) -> Option<Minute>
    requires limits { IsWithinLimits window }
    requires from { zone.now.from ≡ window.from.0 }
    requires until { zone.now.until ≡ window.until.0 }
    ensures found { IfSome result (λ t. OpensFirst opening.now zone.now.source window.from.0 t.0) }
    ensures since { IfSome result (λ t. window.from.0 ≤ℤ t.0) }
    ensures before { IfSome result (λ t. t.0 <ℤ window.until.0) }
    ensures none { IfNone result (OpensAtNone opening.now zone.now.source window.from.0 window.until.0) }
{
    let end = end_of(window);
    let mut minute = first_minute(window, None);
    while minute < end {
        let shown = local_of(zone, minute);
        let count = minutes_of_date(zone, minute, end);
        if let Some(steps) = first_of_date(opening, shown, count) {
            return Some(Minute(i64::from(minute + steps)));
        }
        minute += count;
    }
    None
}

// For how many minutes from an instant on, and before another, the zone's clock goes on by the minutes and shows one date.
fn minutes_of_date(zone: &ZoneRuns, from: u32, end: u32) -> u32
    requires range { end ≤ 120_968_640 }
    requires since { zone.now.from ≤ℤ pos from }
    requires before { from < end }
    requires until { pos end ≤ℤ zone.now.until }
    ensures some { 0 < result }
    ensures end { from + result ≤ end }
    ensures shown { (shown : ℤ) → IsLocal zone.now.source (pos from) shown
        → IsShownFrom zone.now.source (pos from) result shown }
{
    let run = zone.run_at(Minute(i64::from(from)));
    let until = end.min(run.until.0 as u32);
    let shown = i64::from(from) + i64::from(run.ahead);
    minutes_of_day(shown).min(until - from)
}

// How many minutes after a civil minute the first one comes at which the job may open, of so many of one date.
fn first_of_date(opening: &Opening, shown: i64, count: u32) -> Option<u32>
    requires calendar { IsCalendarMinute shown }
    requires of_day { minute_of_day shown + count ≤ 1440 }
    ensures found { IfSome result (OpensAfter opening.now shown) }
    ensures before { IfSome result (λ steps. steps < count) }
    ensures none { IfNone result (OpensAtNoneOf opening.now shown count) }
{
    if !opens_on(opening, day_of(shown)) {
        return None;
    }
    let from = time_of(shown);
    let time = from.max(opening.first_minute);
    if time < opening.last_minute {
        below(u32::from(time - from), count)
    } else {
        None
    }
}

// Whether the job may open at a civil minute.
fn opens(opening: &Opening, shown: i64) -> bool
    requires { IsCalendarMinute shown }
    ensures { IsTrue result ↔ Opens opening.now shown }
{
    let time = time_of(shown);
    opening.first_minute <= time && time < opening.last_minute && opens_on(opening, day_of(shown))
}

// A civil minute's time of day, in minutes.
fn time_of(shown: i64) -> u16
    requires { IsCalendarMinute shown }
    ensures time { result ≡ minute_of_day shown }
    ensures day { result < 1440 }
{
    shown.rem_euclid(1440) as u16
}

// Whether the job may open on a date.
fn opens_on(opening: &Opening, date: i64) -> bool
    requires { IsCalendarDay date }
    ensures { IsTrue result ↔ OpensOn opening.now date }
{
    is_after(opening.cursor, date) && is_over_since(opening.period, opening.last, date)
}

// Whether a date is later than another, where there is one.
fn is_after(cursor: Option<i64>, date: i64) -> bool
    ensures { IsTrue result ↔ IsAfter cursor date }
{
    match cursor {
        Some(cursor) => cursor < date,
        None => true,
    }
}

// Whether the period is over since the last launch, where there was one.
fn is_over_since(period: Period, last: Option<i64>, date: i64) -> bool
    requires { IsCalendarDay date }
    ensures { IsTrue result ↔ IsOverSince period last date }
{
    match last {
        Some(last) => is_over(period, last, date),
        None => true,
    }
}

// Whether the period is over on a date, by that of the last launch.
fn is_over(period: Period, last: i64, date: i64) -> bool
    requires { IsCalendarDay date }
    ensures { IsTrue result ↔ IsPeriodOver period last date }
{
    match period {
        // `last` may be any number, so nothing is added to it.
        Period::Days(days) => last <= date - i64::from(days),
        Period::Monthly => last < first_of_month(date),
        Period::Yearly => last < first_of_year(date),
    }
}
