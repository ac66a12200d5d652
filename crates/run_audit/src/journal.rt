//! The verdict on a text that is to be the journal of a run.
ghost use Rattle.std.specs.Prelude.{◌<◌, ◌^◌, IfOk, length};
ghost use Rattle.job_table.specs.Table.{IsTableOf};
ghost use Rattle.run_text.specs.Reading.{IsReadRun};
ghost use Rattle.run_text.specs.Run.{run_of};
ghost use Rattle.run_audit.specs.Audit.{IsVerdict};

use crate::script::play_script;
use crate::verdict::{Stop, Why};
use cron_io::OutOfMemory;
use due_set::JobTable;
use run_replay::Replay;
use run_text::RunFile;
use std::alloc::Global;
use world_law::Book;

/// What an audit says of a journal.
#[derive(Debug, Drop)]
pub enum Verdict {
    /// It is the journal of this book, which is legal, and whose turns obey the script.
    Yes { book: Book },
    /// The first line that can't be one of a journal of the run, from 1.
    No { line: u32, why: Why },
}

/// Judges a text as the journal of a run, whoever wrote it: the replicas take their turns anew, each as its line tells.
///
/// # Errors
///
/// Want of memory.
pub fn audit(
    alloc: Global,
    run: &RunFile<'_>,
    table: &JobTable,
    journal: &str,
) -> Result<Verdict, OutOfMemory>
    requires run { IsReadRun run.now }
    requires table { IsTableOf (run_of run.now) table.now }
    requires short { length journal.now < 2 ^ 32 }
    ensures { IfOk result (IsVerdict (run_of run.now) table.now journal.now) }
{
    // The number of a line that is missing has to be one of 32 bits too.
    if journal.len() >= u32::MAX as usize {
        return Err(OutOfMemory);
    }
    let mut replay = Replay::start(alloc, run.members, table)?;
    match play_script(&mut replay, table, run.commands.as_slice(), journal) {
        Ok(()) => Ok(Verdict::Yes { book: replay.book }),
        Err(Stop::At { line, why }) => Ok(Verdict::No { line, why }),
        Err(Stop::OutOfMemory) => Err(OutOfMemory),
    }
}
