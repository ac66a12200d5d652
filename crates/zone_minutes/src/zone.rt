ghost use Rattle.std.specs.Prelude.{◌≡◌, ◌<◌, ◌≤◌, ℤ, pos, ◌+ℤ◌, ◌-ℤ◌, ◌≤ℤ◌, ◌<ℤ◌, int_le, IfOk, OnOk, IsErrOf};
ghost use Rattle.jiff.specs.Types.{TimeZone, UTC};
ghost use Rattle.zone_minutes.specs.Civil.{IsCalendarMinute};
ghost use Rattle.zone_minutes.specs.Run.{AreRunsOver, IsRunAt, first_known};
ghost use Rattle.zone_minutes.specs.Window.{IsWithinLimits};
ghost use Rattle.zone_minutes.specs.Zone.{Source, FixedOffset, source_of, local_of, IsLocal, IsReadable, IsReadAs, IsOffsetInRange, IsSourceRefused, IsUnread};

use crate::listing::{list_runs, make_run};
use crate::minute::{Minute, Window};
use crate::run::Run;
use crate::source::{KeptSource, ZoneFault, ZoneSource, read_rule, read_table};
use jiff::tz::TimeZone as JiffZone;
use std::alloc::Global;
use std::marker::Model;

// How many minutes before a window a zone's offsets are known.
const BEFORE: i64 = 180;

/// A zone's offsets over a window of instants, and over the 180 minutes before it.
#[derive(Debug, Drop)]
pub struct ZoneRuns {
    source: KeptSource,
    window: Window,
    runs: Vec<Run>,
}

impl Model for ZoneRuns {
    ghost use Rattle.zone_minutes.specs.Run.{AreRunsOver};
    ghost use Rattle.zone_minutes.specs.Window.{IsWithinLimits};
    ghost use Rattle.zone_minutes.specs.Zone.{Zone, kept_source, zone_over};

    ghost Value = { Zone };

    ghost view = { λ zone. zone_over (kept_source zone.source) zone.window };

    ghost invariant = { λ zone. IsWithinLimits zone.window × AreRunsOver (kept_source zone.source) zone.window zone.runs.items };
}

impl ZoneRuns {
    /// The zone's offsets over the window.
    ///
    /// # Errors
    ///
    /// `BadZone` where `jiff` refuses the rule or the file, and `OutOfMemory`. A rule or a file that `jiff` can't read is told
    /// as `BadZone` whatever memory there is; a file that it reads, and whose rule disagrees with its table, may be told as
    /// either.
    pub fn build(
        alloc: Global,
        zone: &ZoneSource<'_>,
        window: Window,
    ) -> Result<ZoneRuns, ZoneFault>
        requires window { IsWithinLimits window }
        requires offset { IsOffsetInRange zone.now }
        ensures read { OnOk result (IsReadable (source_of zone.now)) }
        ensures built { IfOk result (λ runs. runs
            ≡ record { source = source_of zone.now; from = window.from.0; until = window.until.0 }) }
        ensures refused { IsErrOf result ZoneFault.BadZone → IsSourceRefused (source_of zone.now) }
        ensures unread { IsUnread (source_of zone.now) → IsErrOf result ZoneFault.BadZone }
    {
        // It is read before memory is wanted.
        let runs = runs_over(alloc, zone, window)?;
        let source = KeptSource::new(alloc, zone)?;
        Ok(ZoneRuns {
            source,
            window,
            runs,
        })
    }

    /// The civil minute of an instant: minutes since 1970-01-01 00:00 on the zone's clocks.
    pub fn local(&self, t: Minute) -> i64
        requires since { (self.now.from -ℤ pos 180) ≤ℤ t.0 }
        requires before { t.0 <ℤ self.now.until }
        ensures local { IsLocal self.now.source t.0 result }
        ensures range { IsCalendarMinute result }
    {
        t.0 + i64::from(self.run_at(t).ahead)
    }

    /// The run that the instant lies in: from the last change of the clocks up to the instant, or from 180 minutes before
    /// the window, to the next change or the window's end.
    pub fn run_at(&self, t: Minute) -> Run
        requires since { (self.now.from -ℤ pos 180) ≤ℤ t.0 }
        requires before { t.0 <ℤ self.now.until }
        ensures run { IsRunAt self.now t.0 result }
        ensures read { IsReadable self.now.source }
        ensures limits { (pos 525_600 ≤ℤ self.now.from) × (self.now.until ≤ℤ pos 120_968_640) }
    {
        let at = self.runs.as_slice().partition_point(
            |run: &Run| -> bool
                ensures { result ≡ int_le run.now.until.0 t.0 }
            { run.until.0 <= t.0 },
        );
        self.runs[at]
    }
}

// The source's runs over the window and the 180 minutes before it.
fn runs_over(alloc: Global, zone: &ZoneSource<'_>, window: Window) -> Result<Vec<Run>, ZoneFault>
    requires window { IsWithinLimits window }
    requires offset { IsOffsetInRange zone.now }
    ensures built { IfOk result (λ runs. AreRunsOver (source_of zone.now) window runs.items) }
    ensures refused { IsErrOf result ZoneFault.BadZone → IsSourceRefused (source_of zone.now) }
    ensures unread { IsUnread (source_of zone.now) → IsErrOf result ZoneFault.BadZone }
{
    let from = first_known(window);
    let until = end_of(window);
    match *zone {
        ZoneSource::Fixed { minutes } => Ok(vec![in alloc; make_run(from, until, minutes)]?),
        ZoneSource::Posix(text) => Ok(list_runs(alloc, &read_rule(text)?, from, until)?),
        ZoneSource::Tzif(bytes) => {
            let table = read_table(alloc, bytes)?;
            Ok(list_runs(alloc, &JiffZone::tzif(&table), from, until)?)
        }
    }
}

// The number of the first instant at which the offsets are known.
fn first_known(window: Window) -> u32
    requires { IsWithinLimits window }
    ensures first { pos result ≡ first_known window }
    ensures range { result < 120_968_640 }
{
    (window.from.0 - BEFORE) as u32
}

// The number of the window's end.
fn end_of(window: Window) -> u32
    requires { IsWithinLimits window }
    ensures end { pos result ≡ window.until.0 }
    ensures range { result ≤ 120_968_640 }
{
    window.until.0 as u32
}

/// Zones that a source may be read as have the same local time at each instant.
pub fn zones_read_alike()
    ensures { (source : Source) (a b : TimeZone) (t : ℤ) → IsReadAs source a → IsReadAs source b
        → local_of a t ≡ local_of b t }
{}

/// At a fixed offset the local time is the instant and the offset.
pub fn fixed_offset_is_added()
    ensures { (minutes t : ℤ) (zone : TimeZone) → IsReadAs (FixedOffset minutes) zone
        → local_of zone t ≡ t +ℤ minutes }
{}

/// In UTC the local time is the instant.
pub fn utc_is_its_own_local_time()
    ensures { (t : ℤ) → local_of UTC t ≡ t }
{}

/// No source is one that `jiff` reads and also one that it refuses.
pub fn no_source_is_read_and_refused()
    ensures { (source : Source) → IsReadable source → IsSourceRefused source → ⊥ }
{}
