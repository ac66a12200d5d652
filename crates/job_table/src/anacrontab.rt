//! The jobs of an anacrontab, collected line by line.
ghost use Rattle.std.specs.Prelude.{◌≡◌, ◌∷◌, [], ◌++◌, ◌+◌, ◌*◌, ◌<◌, ◌≤◌, ◌^◌, List, length, map, None, Ok, IfErr, OnOk, IsOk};
ghost use Rattle.anacron_text.specs.Limits.{IsBodyWithin, IsJobWithin};
ghost use Rattle.anacron_text.specs.LineBody.{anacron_body_of};
ghost use Rattle.anacron_text.specs.LogicalLines.{joined};
ghost use Rattle.anacron_text.specs.Settings.{no_settings};
ghost use Rattle.crontab_text.specs.Lines.{lines_of};
ghost use Rattle.due_set.specs.declared.job.JobKind.TheVariants.{Anacron};
ghost use Rattle.run_text.specs.Anacrontab.{SayAll};
ghost use Rattle.run_text.specs.Follow.{style_of};
ghost use Rattle.run_text.specs.Run.{NamedZone, section_of, zone_of};
ghost use Rattle.run_text.specs.Steps.{IfRefused};
ghost use Rattle.job_table.specs.Collect.{AddsMarks, RefusesMarks, AddsSection, RefusesSection};
ghost use Rattle.job_table.specs.Jobs.{named_job, HasJob};
ghost use Rattle.job_table.specs.Marks.{anacron_mark, anacron_name, period_of};
ghost use Rattle.job_table.specs.Table.{at_line};
ghost use Rattle.job_table.specs.Zones.{NamesZone, zone_number};

use crate::jobs::{Jobs, Timing, add_job};
use anacron_text::{AnaBody, AnaLine, AnaLines, PeriodWord};
use cron_fields::Cause;
use crontab_text::LineFault;
use due_set::{JobKind, Period};
use run_text::{RunFault, Section, ZoneLine};
use std::alloc::Global;

// The period that a word names.
fn period_of(word: PeriodWord) -> Period
    ensures { result ≡ period_of word }
{
    match word {
        PeriodWord::Days(days) => Period::Days(days),
        PeriodWord::Monthly => Period::Monthly,
        PeriodWord::Yearly => Period::Yearly,
    }
}

// When a job runs: from its first hour on, and so many minutes later, and before its last hour.
fn kind_of(period: PeriodWord, first_hour: u8, last_hour: u8, delay: u16, added: u16) -> JobKind
    requires { IsJobWithin period delay added first_hour last_hour }
    ensures { result ≡ Anacron (period_of period) (60 * first_hour + delay + added) (60 * last_hour) }
{
    JobKind::Anacron {
        period: period_of(period),
        first_minute: 60 * u16::from(first_hour) + delay + added,
        last_minute: 60 * u16::from(last_hour),
    }
}

// Adds the job of an identifier, whose name must be new.
fn add_named(
    alloc: Global,
    jobs: &mut Jobs,
    label: &str,
    identifier: &str,
    timing: Timing,
    line: u32,
) -> Result<(), RunFault>
    ensures added { OnOk result (jobs.new ≡ jobs.old ++ named_job (anacron_name label.now identifier.now) timing.zone timing.kind ∷ []) }
    ensures new { OnOk result (HasJob (anacron_name label.now identifier.now) jobs.old → ⊥) }
    ensures refused { IfErr result (λ fault. IfRefused fault (λ refusal.
        HasJob (anacron_name label.now identifier.now) jobs.old × (refusal ≡ at_line line Cause.DuplicateJob))) }
{
    let name = format!(in alloc; "{label}/{identifier}")?;
    add_job(jobs, name, timing, line)
}

// Takes over what a line says.
fn add_line(
    alloc: Global,
    jobs: &mut Jobs,
    label: &str,
    zone: u16,
    at: u32,
    body: AnaBody<'_>,
) -> Result<(), RunFault>
    requires { IsBodyWithin body }
    ensures added { OnOk result ((zones : List NamedZone)
        → AddsMarks zones jobs.old jobs.new (anacron_mark label.now zone at (anacron_body_of body.entry))) }
    ensures refused { IfErr result (λ fault. IfRefused fault (λ refusal. (zones : List NamedZone)
        → RefusesMarks zones jobs.old (anacron_mark label.now zone at (anacron_body_of body.entry)) refusal)) }
{
    match body {
        AnaBody::Blank | AnaBody::Comment | AnaBody::Assign { .. } => Ok(()),
        AnaBody::Job {
            period,
            delay,
            added,
            first_hour,
            last_hour,
            identifier,
            ..
        } => {
            let kind = kind_of(period, first_hour, last_hour, delay, added);
            add_named(alloc, jobs, label, identifier, Timing { zone, kind }, at)
        }
    }
}

/// Adds the jobs of an anacrontab, line by line. Each line of it says something, and its jobs run by the zone of that number.
///
/// # Errors
///
/// The first line that brings a job whose name is there; or want of memory.
pub fn add_anacrontab(
    alloc: Global,
    zones: &[ZoneLine<'_>],
    jobs: &mut Jobs,
    section: &Section<'_>,
    zone: u16,
) -> Result<(), RunFault>
    requires style { style_of section.now.kind ≡ None }
    requires named { NamesZone section.now.zone.now (map zone_of zones.now) }
    requires number { zone ≡ zone_number section.now.zone.now (map zone_of zones.now) }
    requires said { SayAll no_settings (joined (lines_of section.now.text.now)) }
    requires text { length section.now.text.now < 2 ^ 32 }
    requires lines { section.now.line + length (lines_of section.now.text.now) < 2 ^ 32 }
    ensures added { OnOk result (AddsSection (map zone_of zones.now) jobs.old jobs.new (section_of section.now)) }
    ensures refused { IfErr result (λ fault. IfRefused fault (RefusesSection (map zone_of zones.now) jobs.old (section_of section.now))) }
{
    let mut lines = AnaLines::new(section.text);
    'lines: while let Some(read) = lines.next() {
        let line = said(read);
        let at = section.line + line.number;
        add_line(alloc, jobs, section.label, zone, at, line.body)?;
    }
    Ok(())
}

// The line of an answer that is no fault.
fn said(read: Result<AnaLine<'_>, LineFault>) -> AnaLine<'_>
    requires { IsOk read }
    ensures { read.entry ≡ Ok result }
{
    match read {
        Ok(line) => line,
        Err(_) => unreachable!(),
    }
}
