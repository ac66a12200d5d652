//! The jobs of a run, collected section by section.
ghost use Rattle.std.specs.Prelude.{◌≡◌, ◌+◌, ◌<◌, ◌≤◌, ◌^◌, length, map, IfErr, OnOk, IfOk};
ghost use Rattle.crontab_text.specs.Lines.{lines_of};
ghost use Rattle.run_text.specs.Follow.{style_of};
ghost use Rattle.run_text.specs.Reading.{IsReadRun};
ghost use Rattle.run_text.specs.Run.{section_of, run_of, zone_of};
ghost use Rattle.run_text.specs.Steps.{IfRefused};
ghost use Rattle.run_text.specs.Table.{AreSaid};
ghost use Rattle.job_table.specs.Collect.{AddsSection, RefusesSection, HasMarkedJobs, HasFaultyMarks, HaveMarkedJobs, HasFaultyVersion};
ghost use Rattle.job_table.specs.Versions.{first_section};

use crate::anacrontab::add_anacrontab;
use crate::crontab::add_crontab;
use crate::jobs::Jobs;
use crate::zones::find_zone;
use run_text::{RunFault, RunFile, Section, ZoneLine};
use std::alloc::Global;

/// Adds the jobs of a section, line by line. Each line of it says something.
///
/// # Errors
///
/// The first line that names no zone of the run, or brings a job whose name is there; or want of memory.
pub fn add_section(
    alloc: Global,
    zones: &[ZoneLine<'_>],
    jobs: &mut Jobs,
    section: &Section<'_>,
) -> Result<(), RunFault>
    requires zones { length zones.now ≤ 32 }
    requires said { AreSaid (style_of section.now.kind) section.now.label.now (lines_of section.now.text.now) }
    requires text { length section.now.text.now < 2 ^ 32 }
    requires lines { section.now.line + length (lines_of section.now.text.now) < 2 ^ 32 }
    ensures added { OnOk result (AddsSection (map zone_of zones.now) jobs.old jobs.new (section_of section.now)) }
    ensures refused { IfErr result (λ fault. IfRefused fault (RefusesSection (map zone_of zones.now) jobs.old (section_of section.now))) }
{
    let zone = find_zone(zones, section.zone, section.line)?;
    match section.kind.style() {
        Some(style) => add_crontab(alloc, zones, jobs, section, style, zone),
        None => add_anacrontab(alloc, zones, jobs, section, zone),
    }
}

/// Collects the jobs of a version's sections, one section after another.
///
/// # Errors
///
/// The first line that names no zone of the run, or brings a job whose name is there; or want of memory.
fn collect(alloc: Global, run: &RunFile<'_>, version: usize) -> Result<Jobs, RunFault>
    requires run { IsReadRun run.now }
    requires version { version ≤ length run.now.versions.items }
    ensures jobs { IfOk result (HasMarkedJobs (run_of run.now) version) }
    ensures refused { IfErr result (λ fault. IfRefused fault (HasFaultyMarks (run_of run.now) version)) }
{
    let mut jobs = Jobs::new(alloc);
    for place in first_section(run, version)..first_section(run, version + 1) {
        add_section(alloc, run.zones.as_slice(), &mut jobs, &run.sections[place])?;
    }
    Ok(jobs)
}

// How many sections stand above a version; behind the last version, all of them.
fn first_section(run: &RunFile<'_>, version: usize) -> usize
    requires { IsReadRun run.now }
    ensures number { result ≡ first_section (run_of run.now) version }
    ensures within { result ≤ length run.now.sections.items }
{
    if version == 0 {
        return 0;
    }
    match run.versions.get(version - 1) {
        Some(version) => version.first_section as usize,
        None => run.sections.len(),
    }
}

/// Collects the jobs of a run, of one version after another.
///
/// # Errors
///
/// The first line that names no zone of the run, or brings a job whose name is there in its version; or want of memory.
pub fn collect_versions(alloc: Global, run: &RunFile<'_>) -> Result<Vec<Jobs>, RunFault>
    requires { IsReadRun run.now }
    ensures jobs { IfOk result (λ versions. HaveMarkedJobs (run_of run.now) versions.items) }
    ensures refused { IfErr result (λ fault. IfRefused fault (HasFaultyVersion (run_of run.now))) }
{
    let mut versions = Vec::new(alloc);
    for version in 0..run.versions.len() + 1 {
        versions.push(collect(alloc, run, version)?)?;
    }
    Ok(versions)
}
