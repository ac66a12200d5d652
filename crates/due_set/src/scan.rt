//! The due instants of an entry, found stretch by stretch. Where the clocks are steady the next one is found on the calendar;
//! where they were put forward or back less than 180 minutes before, each minute is looked at.
ghost use Rattle.std.specs.Prelude.{◌≡◌, ◌<◌, ◌≤◌, List, length, ℤ, pos, negsuc, ◌+ℤ◌, ◌≤ℤ◌, ◌<ℤ◌, IfSome, IfNone, IsTrue, ◌↔◌};
ghost use Rattle.zone_minutes.specs.Window.{IsInWindow, IsWithinLimits};
ghost use Rattle.zone_minutes.specs.Zone.{IsLocal};
ghost use Rattle.due_set.specs.Due.{IsFirstDue, IsNotDueIn};
ghost use Rattle.due_set.specs.Steady.{AreSteady};
ghost use Rattle.due_set.specs.Table.{IsAfter, IsDueList, instant_of};

use crate::due::is_due;
use crate::matching::minutes_to_match;
use cron_fields::Fields;
use zone_minutes::{Minute, Run, Window, ZoneRuns};

// How many minutes after a change of the clocks a local time may be one that was shown or skipped.
const UNSETTLED: i64 = 179;

/// The first minute of the window that is later than the instant, where there is one; its end, where all are earlier.
pub fn first_minute(window: Window, after: Option<Minute>) -> u32
    requires { IsWithinLimits window }
    ensures since { window.from.0 ≤ℤ pos result }
    ensures first { (t : ℤ) → IsInWindow window t → (IsAfter (instant_of after) t ↔ pos result ≤ℤ t) }
{
    let first = match after {
        None => window.from.0,
        Some(after) if after.0 < window.from.0 => window.from.0,
        Some(after) if after.0 >= window.until.0 => window.until.0,
        Some(after) => after.0 + 1,
    };
    first as u32
}

/// The first instant from the minute on at which the entry is due, before the window's end.
pub fn next_due(fields: &Fields, zone: &ZoneRuns, first: u32, window: Window) -> Option<Minute>
    requires limits { IsWithinLimits window }
    requires from { zone.now.from ≡ window.from.0 }
    requires until { zone.now.until ≡ window.until.0 }
    requires since { window.from.0 ≤ℤ pos first }
    ensures found { IfSome result (λ t. IsFirstDue fields.now zone.now.source (pos first) t.0) }
    ensures before { IfSome result (λ t. t.0 <ℤ window.until.0) }
    ensures none { IfNone result (IsNotDueIn fields.now zone.now.source (pos first) window.until.0) }
{
    let end = end_of(window);
    let mut minute = first;
    while minute < end {
        let until = stretch_end(zone, minute, end);
        if let Some(at) = first_due_of_stretch(fields, zone, minute, until) {
            return Some(at);
        }
        minute = until;
    }
    None
}

/// At how many instants of the window the entry is due.
pub fn count_due(fields: &Fields, zone: &ZoneRuns, window: Window) -> u32
    requires limits { IsWithinLimits window }
    requires from { zone.now.from ≡ window.from.0 }
    requires until { zone.now.until ≡ window.until.0 }
    ensures { (instants : List ℤ)
        × IsDueList fields.now zone.now.source window.from.0 window.until.0 instants
        × (result ≡ length instants) }
{
    let mut count = 0;
    let mut minute = first_minute(window, None);
    while let Some(at) = next_due(fields, zone, minute, window) {
        count += 1;
        minute = at.0 as u32 + 1;
    }
    count
}

/// The number of the window's end.
pub fn end_of(window: Window) -> u32
    requires { IsWithinLimits window }
    ensures end { pos result ≡ window.until.0 }
    ensures range { result ≤ 120_968_640 }
{
    window.until.0 as u32
}

// The end of the stretch that an instant of a run begins, or another end that is sooner.
fn stretch_end(zone: &ZoneRuns, minute: u32, end: u32) -> u32
    requires range { end ≤ 120_968_640 }
    requires since { zone.now.from ≤ℤ pos minute }
    requires before { minute < end }
    requires until { pos end ≤ℤ zone.now.until }
    ensures later { minute < result }
    ensures end { result ≤ end }
{
    let run = zone.run_at(Minute(i64::from(minute)));
    end.min(settled_end(&run, i64::from(minute)) as u32)
}

// The end of the run, or of its first 179 minutes, where the instant is one of these.
fn settled_end(run: &Run, minute: i64) -> i64
    requires known { pos 0 ≤ℤ run.now.from.0 }
    requires inside { run.now.until.0 ≤ℤ pos 120_968_640 }
    requires since { run.now.from.0 ≤ℤ minute }
    requires before { minute <ℤ run.now.until.0 }
    ensures later { minute <ℤ result }
    ensures inside { result ≤ℤ run.now.until.0 }
{
    let settled = run.from.0 + UNSETTLED;
    if minute < settled && settled < run.until.0 {
        return settled;
    }
    run.until.0
}

// Whether the clocks were neither put forward nor back from 179 minutes before an instant up to another.
fn are_steady(zone: &ZoneRuns, first: u32, until: u32) -> bool
    requires since { zone.now.from ≤ℤ pos first }
    requires before { pos first <ℤ zone.now.until }
    ensures { IsTrue result → AreSteady zone.now.source (pos first) (pos until) }
{
    let run = zone.run_at(Minute(i64::from(first)));
    run.from.0 + UNSETTLED <= i64::from(first) && i64::from(until) <= run.until.0
}

// The first instant from one on and before another at which the entry is due.
fn first_due_of_stretch(fields: &Fields, zone: &ZoneRuns, first: u32, until: u32) -> Option<Minute>
    requires range { until ≤ 120_968_640 }
    requires since { zone.now.from ≤ℤ pos first }
    requires some { first < until }
    requires until { pos until ≤ℤ zone.now.until }
    ensures found { IfSome result (λ t. IsFirstDue fields.now zone.now.source (pos first) t.0) }
    ensures before { IfSome result (λ t. t.0 <ℤ pos until) }
    ensures none { IfNone result (IsNotDueIn fields.now zone.now.source (pos first) (pos until)) }
{
    if are_steady(zone, first, until) {
        first_match(fields, zone, first, until)
    } else {
        first_due_by_minute(fields, zone, first, until)
    }
}

// The first instant from one on and before another at which the entry is due, each looked at for itself.
fn first_due_by_minute(fields: &Fields, zone: &ZoneRuns, first: u32, until: u32) -> Option<Minute>
    requires range { until ≤ 120_968_640 }
    requires since { zone.now.from ≤ℤ pos first }
    requires some { first < until }
    requires until { pos until ≤ℤ zone.now.until }
    ensures found { IfSome result (λ t. IsFirstDue fields.now zone.now.source (pos first) t.0) }
    ensures before { IfSome result (λ t. t.0 <ℤ pos until) }
    ensures none { IfNone result (IsNotDueIn fields.now zone.now.source (pos first) (pos until)) }
{
    for minute in first..until {
        let at = Minute(i64::from(minute));
        if is_due(fields, zone, at) {
            return Some(at);
        }
    }
    None
}

// The same where the clocks are steady: the first instant whose local time the fields match.
fn first_match(fields: &Fields, zone: &ZoneRuns, first: u32, until: u32) -> Option<Minute>
    requires range { until ≤ 120_968_640 }
    requires since { zone.now.from ≤ℤ pos first }
    requires some { first < until }
    requires until { pos until ≤ℤ zone.now.until }
    requires steady { AreSteady zone.now.source (pos first) (pos until) }
    ensures found { IfSome result (λ t. IsFirstDue fields.now zone.now.source (pos first) t.0) }
    ensures before { IfSome result (λ t. t.0 <ℤ pos until) }
    ensures none { IfNone result (IsNotDueIn fields.now zone.now.source (pos first) (pos until)) }
{
    let shown = local_of(zone, first);
    let steps = minutes_to_match(fields, shown, until - first)?;
    Some(Minute(i64::from(first + steps)))
}

/// The civil minute of an instant.
pub fn local_of(zone: &ZoneRuns, at: u32) -> i64
    requires range { at < 120_968_640 }
    requires since { zone.now.from ≤ℤ pos at }
    requires before { pos at <ℤ zone.now.until }
    ensures local { IsLocal zone.now.source (pos at) result }
    ensures low { negsuc 1559 ≤ℤ result }
    ensures high { result ≤ℤ (pos at +ℤ pos 1559) }
{
    let run = zone.run_at(Minute(i64::from(at)));
    i64::from(at) + i64::from(run.ahead)
}
