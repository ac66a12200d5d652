//! The finding of an audit on an input.
ghost use Rattle.std.specs.Prelude.{◌≤◌, length, IfOk, IfErr};
ghost use Rattle.due_set.specs.Table.{Table};
ghost use Rattle.job_table.specs.Table.{IsTableOf};
ghost use Rattle.run_text.specs.Reading.{IsReadRun};
ghost use Rattle.run_text.specs.Run.{run_of};
ghost use Rattle.run_text.specs.Steps.{IfRefused};
ghost use Rattle.run_input.specs.Input.{IsRunWithTable};
ghost use Rattle.audit_finding.specs.Finding.{IsFindingOf, IsFoundOf, IsRefusedPart, IsRefusedToAudit};

use crate::finding::{Fault, Finding};
use crate::report::compare_report;
use audit_text::{lines_in, read_text, split_input};
use cron_fields::Cause;
use cron_io::OutOfMemory;
use due_set::JobTable;
use run_audit::{Verdict, audit};
use run_input::take_table;
use run_text::{Refusal, RunFault, RunFile};
use std::alloc::Global;

/// The most bytes of the run in an input.
const MAX_RUN: usize = 1_048_576;

/// Audits an input: a run, the report of it, and its journal.
///
/// # Errors
///
/// What the run is refused for, or want of memory.
pub fn judge_input(alloc: Global, input: &[u8]) -> Result<Finding, RunFault>
    requires short { length input.now ≤ 67_108_864 }
    ensures found { IfOk result (IsFindingOf input.now) }
    ensures refused { IfErr result (λ fault. IfRefused fault (IsRefusedToAudit input.now)) }
{
    let parts = split_input(input);
    let (run, table) = take_run(alloc, parts.run)?;
    let report = read_text(alloc, parts.report)?;
    let journal = read_text(alloc, parts.journal)?;
    let finding = judge_texts(alloc, &run, &table, &report, &journal)?;
    Ok(finding)
}

// The run of these bytes with the table of its jobs, where they are within its limit.
fn take_run(alloc: Global, bytes: &[u8]) -> Result<(RunFile<'_>, JobTable), RunFault>
    ensures taken { IfOk result (λ both. IsRunWithTable bytes.now (run_of both.0) both.1) }
    ensures run { IfOk result (λ both. IsReadRun both.0) }
    ensures refused { IfErr result (λ fault. IfRefused fault (IsRefusedPart bytes.now)) }
{
    if bytes.len() > MAX_RUN {
        return Err(RunFault::Refused(Refusal::of_line(0, Cause::TooLarge)));
    }
    take_table(alloc, bytes)
}

// Judges the journal, and where it is one of the run, the report.
fn judge_texts(
    alloc: Global,
    run: &RunFile<'_>,
    table: &JobTable,
    report: &str,
    journal: &str,
) -> Result<Finding, OutOfMemory>
    requires run { IsReadRun run.now }
    requires table { IsTableOf (run_of run.now) table.now }
    requires report { length report.now ≤ 67_108_864 }
    requires journal { length journal.now ≤ 67_108_864 }
    ensures { IfOk result (IsFoundOf (run_of run.now) table.now report.now journal.now) }
{
    match audit(alloc, run, table, journal)? {
        Verdict::Yes { book } => compare_report(alloc, run, table, report, book),
        Verdict::No { line, why } => Ok(Finding::Fails {
            line: lines_in(report.as_bytes()) + line,
            fault: Fault::Journal(why),
        }),
    }
}
