ghost use Rattle.std.specs.Prelude.{◌≤◌, length, IfOk, IfErr};
ghost use Rattle.run_text.specs.Run.{run_of};
ghost use Rattle.run_text.specs.Reading.{IsReadFrame, IsReadRun};
ghost use Rattle.run_text.specs.Steps.{IfRefused};
ghost use Rattle.run_input.specs.Input.{IsRunWithTable, IsTakenFrame, IsRefusedAsRun, IsRefusedAsFrame};

use crate::text::as_text;
use due_set::JobTable;
use job_table::build_table;
use run_text::{RunFault, RunFile, read_frame, read_run};
use std::alloc::Global;

/// The run of an input that was read, and the table of its jobs.
///
/// # Errors
///
/// What the input is refused for: a line that is no text, else what is at fault in the run file, else in its tables. Or want
/// of memory.
pub fn take_table(alloc: Global, bytes: &[u8]) -> Result<(RunFile<'_>, JobTable), RunFault>
    requires { length bytes.now ≤ 1_048_576 }
    ensures taken { IfOk result (λ both. IsRunWithTable bytes.now (run_of both.0) both.1) }
    ensures run { IfOk result (λ both. IsReadRun both.0) }
    ensures refused { IfErr result (λ fault. IfRefused fault (IsRefusedAsRun bytes.now)) }
{
    let text = as_text(bytes)?;
    let run = read_run(alloc, text)?;
    let table = build_table(alloc, &run)?;
    Ok((run, table))
}

/// The run of an input that was read, whose tables may have lines that break a rule.
///
/// # Errors
///
/// What the input is refused for: a line that is no text, else what is at fault in the run file beside its tables. Or want of
/// memory.
pub fn take_frame(alloc: Global, bytes: &[u8]) -> Result<RunFile<'_>, RunFault>
    requires { length bytes.now ≤ 1_048_576 }
    ensures taken { IfOk result (λ run. IsTakenFrame bytes.now (run_of run)) }
    ensures frame { IfOk result IsReadFrame }
    ensures refused { IfErr result (λ fault. IfRefused fault (IsRefusedAsFrame bytes.now)) }
{
    let text = as_text(bytes)?;
    read_frame(alloc, text)
}
