ghost use Rattle.std.specs.Prelude.{IfOk, IfErr};
ghost use Rattle.run_text.specs.Reading.{IsReadRun};
ghost use Rattle.run_text.specs.Run.{run_of};
ghost use Rattle.run_text.specs.Steps.{IfRefused};
ghost use Rattle.job_table.specs.Table.{IsTableOf, IsRefusedRun};

use crate::collect::collect_versions;
use crate::due::count_due;
use crate::versions::{add_names, specs_of_versions};
use crate::zones::build_zones;
use cron_fields::Cause;
use due_set::JobTable;
use run_text::{Refusal, RunFault, RunFile};
use std::alloc::Global;

// The most names of jobs of a run.
const MOST_JOBS: usize = 1000;

/// Builds the table of a run's jobs.
///
/// # Errors
///
/// The first zone line that `jiff` refuses (cause 32); or else the first line that names no zone of the run (21), or brings
/// a job whose name is there in its version (22); more than 1,000 names of jobs over all versions (23), or more than 20,000 due
/// instants (24), where an anacrontab's job counts as the days of the window and three more, for which no line is to blame; or
/// want of memory.
pub fn build_table(alloc: Global, run: &RunFile<'_>) -> Result<JobTable, RunFault>
    requires { IsReadRun run.now }
    ensures table { IfOk result (IsTableOf (run_of run.now)) }
    ensures refused { IfErr result (λ fault. IfRefused fault (IsRefusedRun (run_of run.now))) }
{
    let zones = build_zones(alloc, run)?;
    let mut later = collect_versions(alloc, run)?;
    let mut first = later.remove(0);
    add_names(alloc, &mut first, &later)?;
    if first.len() > MOST_JOBS {
        return Err(RunFault::Refused(Refusal::of_line(0, Cause::TooManyJobs)));
    }
    let versions = specs_of_versions(alloc, run, &first, &later)?;
    let table = JobTable::assemble_versions(run.window, run.grace, zones, versions);
    match count_due(&table) {
        Some(_) => Ok(table),
        None => Err(RunFault::Refused(Refusal::of_line(0, Cause::TooManyDue))),
    }
}
