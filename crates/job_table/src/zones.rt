//! The zones that a run names: their numbers, and their offsets over its window.
ghost use Rattle.std.specs.Prelude.{◌≡◌, ◌<◌, ◌≤◌, All, map, length, position, bytes_eq, Ok, IsOk, IfOk, IfErr, IfSome, IfNone, OnOk};
ghost use Rattle.due_set.specs.Table.{IsBuiltFor};
ghost use Rattle.hex.specs.Hex.{decode_of};
ghost use Rattle.run_text.specs.Reading.{IsReadRun, HasDigits};
ghost use Rattle.run_text.specs.Run.{zone_of, run_of, source_of_zone};
ghost use Rattle.run_text.specs.Sound.{IsSoundSource};
ghost use Rattle.run_text.specs.Steps.{IfRefused};
ghost use Rattle.zone_minutes.specs.Window.{IsWithinLimits};
ghost use Rattle.zone_minutes.specs.Zone.{zone_over, IsReadable, IsSourceRefused, IsOffsetInRange, source_of as zone_source};
ghost use Rattle.job_table.specs.Collect.{NamesNoZone};
ghost use Rattle.job_table.specs.Table.{at_line, HasBadZone};
ghost use Rattle.job_table.specs.Zones.{AreReadable, NamesZone, zone_number, zones_over};

use cron_fields::Cause;
use cron_io::OutOfMemory;
use hex::FromHexError;
use run_text::{Refusal, RunFault, RunFile, ZoneLine, ZoneText};
use std::alloc::Global;
use zone_minutes::{Window, ZoneFault, ZoneRuns, ZoneSource};

const UTC: ZoneSource<'static> = ZoneSource::Fixed { minutes: 0 };

/// The number of the zone of a name in the run's table; `None` for a name of no zone.
pub fn zone_number(zones: &[ZoneLine<'_>], name: &str) -> Option<u16>
    requires { length zones.now ≤ 32 }
    ensures number { IfSome result (λ number. number ≡ zone_number name.now (map zone_of zones.now)) }
    ensures named { IfSome result (λ number. NamesZone name.now (map zone_of zones.now)) }
    ensures none { IfNone result (NamesZone name.now (map zone_of zones.now) → ⊥) }
{
    if name == "UTC" {
        return Some(0);
    }
    let place = place_of(zones, name)?;
    Some(place as u16 + 1)
}

// The place of the first zone of a name.
fn place_of(zones: &[ZoneLine<'_>], name: &str) -> Option<usize>
    ensures place { result ≡ position (λ zone. bytes_eq zone.name.now name.now) zones.now }
    ensures inside { IfSome result (λ place. place < length zones.now) }
{
    zones.iter().position(|zone| zone.name == name)
}

/// The number of the zone of a name, which the line names.
///
/// # Errors
///
/// The name is no zone's, which is the line's fault.
pub fn find_zone(zones: &[ZoneLine<'_>], name: &str, line: u32) -> Result<u16, Refusal>
    requires { length zones.now ≤ 32 }
    ensures number { IfOk result (λ number. number ≡ zone_number name.now (map zone_of zones.now)) }
    ensures named { OnOk result (NamesZone name.now (map zone_of zones.now)) }
    ensures refused { IfErr result (NamesNoZone (map zone_of zones.now) name.now line) }
{
    match zone_number(zones, name) {
        Some(number) => Ok(number),
        None => Err(Refusal::of_line(line, Cause::UnknownZone)),
    }
}

// A zone over the window, from a line of that number, which is refused if the zone is.
fn build_source(
    alloc: Global,
    source: &ZoneSource<'_>,
    line: u32,
    window: Window,
) -> Result<ZoneRuns, RunFault>
    requires limits { IsWithinLimits window }
    requires offset { IsOffsetInRange source.now }
    ensures zone { IfOk result (λ zone. zone ≡ zone_over (zone_source source.now) window) }
    ensures readable { OnOk result (IsReadable (zone_source source.now)) }
    ensures refused { IfErr result (λ fault. IfRefused fault (λ refusal.
        IsSourceRefused (zone_source source.now) × (refusal ≡ at_line line Cause.BadZone))) }
{
    match ZoneRuns::build(alloc, source, window) {
        Ok(zone) => Ok(zone),
        Err(ZoneFault::OutOfMemory) => Err(RunFault::OutOfMemory),
        Err(ZoneFault::BadZone) => Err(RunFault::Refused(Refusal::of_line(line, Cause::BadZone))),
    }
}

// The bytes that hexadecimal digits stand for.
fn bytes_of(alloc: Global, digits: &str) -> Result<Vec<u8>, OutOfMemory>
    requires { IsOk (decode_of digits.now) }
    ensures { IfOk result (λ bytes. decode_of digits.now ≡ Ok bytes.items) }
{
    match hex::decode(alloc, digits) {
        Ok(bytes) => Ok(bytes),
        Err(FromHexError::OutOfMemory) => Err(OutOfMemory),
        Err(_) => unreachable!(),
    }
}

// The zone of a line, over the window.
fn build_zone(alloc: Global, zone: &ZoneLine<'_>, window: Window) -> Result<ZoneRuns, RunFault>
    requires limits { IsWithinLimits window }
    requires offset { IsSoundSource (source_of_zone zone.now.source) }
    requires digits { HasDigits zone.now }
    ensures zone { IfOk result (λ runs. runs ≡ zone_over (source_of_zone zone.now.source) window) }
    ensures readable { OnOk result (IsReadable (source_of_zone zone.now.source)) }
    ensures refused { IfErr result (λ fault. IfRefused fault (λ refusal.
        IsSourceRefused (source_of_zone zone.now.source) × (refusal ≡ at_line zone.now.line Cause.BadZone))) }
{
    match zone.source {
        ZoneText::Fixed { minutes } => {
            build_source(alloc, &ZoneSource::Fixed { minutes }, zone.line, window)
        }
        ZoneText::Posix(text) => build_source(alloc, &ZoneSource::Posix(text), zone.line, window),
        ZoneText::Hex(digits) => {
            let bytes = bytes_of(alloc, digits)?;
            build_source(
                alloc,
                &ZoneSource::Tzif(bytes.as_slice()),
                zone.line,
                window,
            )
        }
    }
}

/// Builds the zones of the run's table: UTC, and each zone that the run names, whether a job runs by it or not.
///
/// # Errors
///
/// The first zone line that `jiff` refuses (cause 32); or want of memory.
pub fn build_zones(alloc: Global, run: &RunFile<'_>) -> Result<Vec<ZoneRuns>, RunFault>
    requires { IsReadRun run.now }
    ensures zones { IfOk result (λ zones. zones.items ≡ zones_over run.now.window (run_of run.now).zones) }
    ensures built { IfOk result (λ zones. All (IsBuiltFor run.now.window) zones.items) }
    ensures readable { OnOk result (AreReadable (run_of run.now).zones) }
    ensures refused { IfErr result (λ fault. IfRefused fault (HasBadZone (run_of run.now).zones)) }
{
    let mut zones = Vec::new(alloc);
    zones.push(build_source(alloc, &UTC, 0, run.window)?)?;
    for zone in &run.zones {
        zones.push(build_zone(alloc, zone, run.window)?)?;
    }
    Ok(zones)
}
