ghost use Rattle.std.specs.Prelude.{◌<◌, ◌^◌, length, IfOk, IfErr, OnOk, All};
ghost use Rattle.crontab_text.specs.Lines.{lines_of};
ghost use Rattle.run_text.specs.Follow.{Nothing};
ghost use Rattle.run_text.specs.Reading.{ReadsFrom, IsRunText, IsRefusedText, IsFrameText, IsRefusedFrame, FitInFile, HasDigits};
ghost use Rattle.run_text.specs.Run.{Run, run_of};
ghost use Rattle.run_text.specs.Steps.{start, RefusedFrom, IfRefused};

use crate::head::read_head;
use crate::parts::{pass_parts, read_parts};
use crate::refusal::{Refusal, RunFault};
use crate::run::RunFile;
use crate::script::{pass_script, read_script};
use crate::table::Tables;
use std::alloc::Global;

/// Reads a run file: a head of four lines, zones and tables of jobs in their versions, and a script. The texts of the run are
/// parts of the file's text.
///
/// # Errors
///
/// The first line that may not stand where it stands, or that is missing; or want of memory.
pub fn read_run(alloc: Global, text: &str) -> Result<RunFile<'_>, RunFault>
    requires { length text.now < 2 ^ 32 }
    ensures read { IfOk result (λ run. IsRunText text.now (run_of run)) }
    ensures parts { IfOk result (λ run. FitInFile (length text.now) run.sections.items) }
    ensures digits { IfOk result (λ run. All HasDigits run.zones.items) }
    ensures refused { IfErr result (λ fault. IfRefused fault (IsRefusedText text.now)) }
{
    read_file(alloc, text, Tables::Judged)
}

/// Reads the frame of a run file: as `read_run` does, but the lines of its tables are counted and not judged, whatever they say.
///
/// # Errors
///
/// The first line that may not stand where it stands for another reason than what a table's line says, or that is missing; or
/// want of memory.
pub fn read_frame(alloc: Global, text: &str) -> Result<RunFile<'_>, RunFault>
    requires { length text.now < 2 ^ 32 }
    ensures read { IfOk result (λ run. IsFrameText text.now (run_of run)) }
    ensures parts { IfOk result (λ run. FitInFile (length text.now) run.sections.items) }
    ensures digits { IfOk result (λ run. All HasDigits run.zones.items) }
    ensures refused { IfErr result (λ fault. IfRefused fault (IsRefusedFrame text.now)) }
{
    read_file(alloc, text, Tables::Counted)
}

// Reads a run file, lines of tables as `tables` says.
fn read_file(alloc: Global, text: &str, tables: Tables) -> Result<RunFile<'_>, RunFault>
    requires { length text.now < 2 ^ 32 }
    ensures read { IfOk result (λ run. ReadsFrom tables 1 Nothing (lines_of text.now) (run_of run)) }
    ensures parts { IfOk result (λ run. FitInFile (length text.now) run.sections.items) }
    ensures digits { IfOk result (λ run. All HasDigits run.zones.items) }
    ensures refused { IfErr result (λ fault. IfRefused fault (RefusedFrom tables (start text.now))) }
{
    let (head, mut reader) = read_head(text)?;
    let parts = read_parts(alloc, &mut reader, head.window, tables)?;
    let commands = read_script(alloc, &mut reader, head)?;
    Ok(RunFile {
        members: head.members,
        window: head.window,
        grace: head.grace,
        zones: parts.zones,
        sections: parts.sections,
        versions: parts.versions,
        commands,
    })
}

/// Reads a run file to its end, lines of tables as `tables` says, and keeps nothing of it.
pub fn pass_file(text: &str, tables: Tables) -> Result<(), Refusal>
    requires { length text.now < 2 ^ 32 }
    ensures read { OnOk result ((run : Run) × ReadsFrom tables 1 Nothing (lines_of text.now) run) }
    ensures refused { IfErr result (RefusedFrom tables (start text.now)) }
{
    let (head, mut reader) = read_head(text)?;
    pass_parts(&mut reader, head.window, tables)?;
    pass_script(&mut reader, head)
}
