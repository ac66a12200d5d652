//! The jobs of a crontab, collected line by line.
ghost use Rattle.std.specs.Prelude.{◌≡◌, ◌∷◌, [], ◌++◌, ◌+◌, ◌<◌, ◌≤◌, ◌^◌, ℕ, List, length, map, Ok, Some, IfErr, OnOk, IfOk, IsOk};
ghost use Rattle.std.specs.List.{AllByRecursion};
ghost use Rattle.crontab_text.specs.LineBody.{AssignBody, body_of};
ghost use Rattle.crontab_text.specs.Lines.{lines_of};
ghost use Rattle.due_set.specs.Table.{Job};
ghost use Rattle.run_text.specs.Follow.{style_of};
ghost use Rattle.run_text.specs.Run.{section_of, zone_of};
ghost use Rattle.run_text.specs.Steps.{IfRefused};
ghost use Rattle.run_text.specs.Table.{Says};
ghost use Rattle.job_table.specs.Collect.{AddsMarks, RefusesMarks, AddsSection, RefusesSection, IsBelow, line_marks, zone_below};
ghost use Rattle.job_table.specs.Jobs.{named_job, HasJob};
ghost use Rattle.job_table.specs.Marks.{kind_of, crontab_job_name};
ghost use Rattle.job_table.specs.Table.{at_line};
ghost use Rattle.job_table.specs.Zones.{NamesZone, zone_number};

use crate::jobs::{Jobs, Timing, add_job};
use crate::zones::find_zone;
use cron_fields::{Cause, Fields};
use crontab_text::{Body, Line, LineFault, Lines, Style};
use due_set::JobKind;
use run_text::{Refusal, RunFault, Section, ZoneLine};
use std::alloc::Global;

// What stands above a line in its section.
#[derive(Clone, Copy, Debug, PartialEq, Eq)]
pub struct Above {
    /// How many entries.
    pub entries: u32,
    /// The number of the zone in force.
    pub zone: u16,
}

// The number of the zone in force below a variable that is set: `CRON_TZ` names a zone.
fn set_variable(
    zones: &[ZoneLine<'_>],
    zone: u16,
    name: &str,
    value: &str,
    line: u32,
) -> Result<u16, Refusal>
    requires { length zones.now ≤ 32 }
    ensures below { IfOk result (λ below. below ≡ zone_below (map zone_of zones.now) zone (AssignBody name.now value.now)) }
    ensures ok { OnOk result ((label : List ℕ) (number : ℕ) (jobs : List Job)
        → AddsMarks (map zone_of zones.now) jobs jobs (line_marks (map zone_of zones.now) label zone line number (AssignBody name.now value.now))) }
    ensures refused { IfErr result (λ refusal. (label : List ℕ) (number : ℕ) (jobs : List Job)
        → RefusesMarks (map zone_of zones.now) jobs (line_marks (map zone_of zones.now) label zone line number (AssignBody name.now value.now)) refusal) }
{
    if name == "CRON_TZ" {
        return find_zone(zones, value, line);
    }
    Ok(zone)
}

// When an entry under a nickname runs.
fn kind_of(fields: Option<Fields>) -> JobKind
    ensures { result ≡ kind_of fields }
{
    match fields {
        Some(fields) => JobKind::Crontab { fields },
        None => JobKind::Never,
    }
}

// Adds the job of a line below some others, and tells what stands above the next line.
fn add_entry(
    alloc: Global,
    jobs: &mut Jobs,
    label: &str,
    above: Above,
    kind: JobKind,
    line: u32,
) -> Result<Above, RunFault>
    requires { above.entries + 1 < 2 ^ 32 }
    ensures below { IfOk result (λ below. (below.entries ≡ above.entries + 1) × (below.zone ≡ above.zone)) }
    ensures added { OnOk result (jobs.new ≡ jobs.old ++ named_job (crontab_job_name label.now (above.entries + 1)) above.zone kind ∷ []) }
    ensures new { OnOk result (HasJob (crontab_job_name label.now (above.entries + 1)) jobs.old → ⊥) }
    ensures refused { IfErr result (λ fault. IfRefused fault (λ refusal.
        HasJob (crontab_job_name label.now (above.entries + 1)) jobs.old × (refusal ≡ at_line line Cause.DuplicateJob))) }
{
    let entries = above.entries + 1;
    let zone = above.zone;
    let name = format!(in alloc; "{label}:{entries}")?;
    add_job(jobs, name, Timing { zone, kind }, line)?;
    Ok(Above { entries, zone })
}

// Takes over what a line says, and tells what stands above the next one.
fn add_line(
    alloc: Global,
    zones: &[ZoneLine<'_>],
    jobs: &mut Jobs,
    label: &str,
    above: Above,
    at: u32,
    body: Body<'_>,
) -> Result<Above, RunFault>
    requires zones { length zones.now ≤ 32 }
    requires entries { above.entries + 1 < 2 ^ 32 }
    ensures below { IfOk result (IsBelow (map zone_of zones.now) above (body_of body.entry)) }
    ensures added { OnOk result (AddsMarks (map zone_of zones.now) jobs.old jobs.new
        (line_marks (map zone_of zones.now) label.now above.zone at (above.entries + 1) (body_of body.entry))) }
    ensures refused { IfErr result (λ fault. IfRefused fault (RefusesMarks (map zone_of zones.now) jobs.old
        (line_marks (map zone_of zones.now) label.now above.zone at (above.entries + 1) (body_of body.entry)))) }
{
    match body {
        Body::Blank | Body::Comment => Ok(above),
        Body::Assign { name, value } => {
            let zone = set_variable(zones, above.zone, name, value, at)?;
            Ok(Above { zone, ..above })
        }
        Body::Entry { fields, .. } => {
            add_entry(alloc, jobs, label, above, JobKind::Crontab { fields }, at)
        }
        Body::Nick { fields, .. } => add_entry(alloc, jobs, label, above, kind_of(fields), at),
    }
}

/// Adds the jobs of a crontab, line by line. Each line of it says something, and its first entries run by the zone of that number.
///
/// # Errors
///
/// The first line that names no zone of the run, or brings a job whose name is there; or want of memory.
pub fn add_crontab(
    alloc: Global,
    zones: &[ZoneLine<'_>],
    jobs: &mut Jobs,
    section: &Section<'_>,
    style: Style,
    zone: u16,
) -> Result<(), RunFault>
    requires zones { length zones.now ≤ 32 }
    requires style { style_of section.now.kind ≡ Some style }
    requires named { NamesZone section.now.zone.now (map zone_of zones.now) }
    requires number { zone ≡ zone_number section.now.zone.now (map zone_of zones.now) }
    requires said { AllByRecursion (Says style section.now.label.now) (lines_of section.now.text.now) }
    requires text { length section.now.text.now < 2 ^ 32 }
    requires lines { section.now.line + length (lines_of section.now.text.now) < 2 ^ 32 }
    ensures added { OnOk result (AddsSection (map zone_of zones.now) jobs.old jobs.new (section_of section.now)) }
    ensures refused { IfErr result (λ fault. IfRefused fault (RefusesSection (map zone_of zones.now) jobs.old (section_of section.now))) }
{
    let mut lines = Lines::new(section.text, style, section.label);
    let mut above = Above { entries: 0, zone };
    'lines: while let Some(read) = lines.next() {
        let line = said(read);
        let at = section.line + line.number;
        above = add_line(alloc, zones, jobs, section.label, above, at, line.body)?;
    }
    Ok(())
}

// The line of an answer that is no fault.
fn said(read: Result<Line<'_>, LineFault>) -> Line<'_>
    requires { IsOk read }
    ensures { read.entry ≡ Ok result }
{
    match read {
        Ok(line) => line,
        Err(_) => unreachable!(),
    }
}
