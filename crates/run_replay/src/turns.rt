//! A replay goes on by the line of a turn.
ghost use Rattle.std.specs.Prelude.{IfOk};
ghost use Rattle.journal_line.specs.Told.{told_line};
ghost use Rattle.run_replay.specs.Replay.{IsInSituation};
ghost use Rattle.run_replay.specs.Turns.{GoesOn};

use crate::replay::Replay;
use cron_io::OutOfMemory;
use due_set::JobTable;
use journal_line::JournalLine;

impl Replay {
    /// Takes the turn that a line tells, where it may come next, and says whether it does. Where it may not, the replay
    /// is spoilt: its replica may have taken the step, and nothing is known of it.
    ///
    /// # Errors
    ///
    /// Want of memory. The replay is spoilt then too.
    pub fn go_on(&mut self, table: &JobTable, line: JournalLine<'_>) -> Result<bool, OutOfMemory>
        requires ready { IsInSituation table.now self.old }
        ensures { IfOk result (GoesOn table.now (told_line line.entry) self.old self.new) }
    {
        match self.judge(table, line)? {
            Some(judged) => {
                self.take(table, judged);
                Ok(true)
            }
            None => Ok(false),
        }
    }
}
