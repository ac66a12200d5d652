//! Turns of tasks, taken one after another by the lines of a text.
ghost use Rattle.std.specs.Prelude.{◌≡◌, ◌+◌, ◌<◌, ◌^◌, ◌↔◌, ℕ, IfErr, IfOk, IfSome, IsTrue, None, OnOk, Some, false, length};
ghost use Rattle.cluster_sched.specs.declared.fate.Fate.{Fate as Becomes};
ghost use Rattle.history.specs.Book.{turn_of};
ghost use Rattle.history.specs.declared.turn.Turn.TheVariants.{Arrived, Did, Restarted, Stopped};
ghost use Rattle.journal_line.specs.Told.{told_line};
ghost use Rattle.journal_text.specs.Line.{HasUnblankNames};
ghost use Rattle.script_semantics.specs.Parts.{Plays};
ghost use Rattle.script_semantics.specs.Situation.{IsTurnFor};
ghost use Rattle.world_law.specs.Book.{call_of};
ghost use Rattle.run_replay.specs.Replay.{IsInSituation};
ghost use Rattle.run_replay.specs.Tasks.{task_of, tasks_in};
ghost use Rattle.run_audit.specs.Begins.{BeginsToPlay};
ghost use Rattle.run_audit.specs.Coming.{Comes, HaveFates, IsRefusalOf, GoesNoFurther, StopsTask, TakesTask};
ghost use Rattle.run_audit.specs.Played.{ComesOf};
ghost use Rattle.run_audit.specs.Reading.{ReadsNext};
ghost use Rattle.run_audit.specs.declared.lines.Rest.{Rest as Unread};

use crate::lines::{Next, Rest};
use crate::verdict::{Stop, Why};
use cluster_sched::Fate;
use cron_io::OutOfMemory;
use due_set::JobTable;
use history::{CallRow, Cause, Turn};
use journal_line::JournalLine;
use run_replay::{Judged, Replay, Task};
use world_law::Book;

/// What a text goes on with.
#[derive(Debug, Drop)]
pub(crate) enum Coming {
    /// The line of a turn that may come next.
    Turn(Judged),
    /// No such line, for this reason.
    Refused(Why),
}

// The numbers of a book's turns, letters and late calls have 64 bits.
fn count_book(book: &Book)
    ensures turns { length book.now.turns < 2 ^ 64 }
    ensures letters { length book.now.letters < 2 ^ 64 }
    ensures late { length book.now.ledger.late < 2 ^ 64 }
{
    let _turns = book.turns().len();
    let _letters = book.letters().len();
    let _late = book.ledger().late().len();
}

// Why no turn has a line that has a form.
fn refusal_of(line: JournalLine<'_>) -> Why
    ensures { IsRefusalOf (told_line line.entry) result }
{
    match line {
        JournalLine::Turn { .. } => Why::NotLegal,
        JournalLine::Arrival { .. } => Why::NotLegal,
        JournalLine::Head => Why::NotObeyed,
        JournalLine::Command { .. } => Why::NotObeyed,
        JournalLine::Walk => Why::NotObeyed,
        JournalLine::End => Why::NotObeyed,
    }
}

// The call that a turn carries.
fn call_in(turn: Turn) -> Option<CallRow>
    ensures { result ≡ call_of turn }
{
    match turn {
        Turn::Did { call, .. } => call,
        Turn::Stopped { .. } => None,
        Turn::Restarted { .. } => None,
        Turn::Arrived { .. } => None,
    }
}

// Whether a call, where one was made, has this fate.
fn has_fate(call: Option<CallRow>, fate: Fate) -> bool
    ensures { IsTrue result ↔ IfSome call (λ made. made.fate ≡ fate) }
{
    match call {
        None => true,
        Some(made) => made.fate == fate,
    }
}

fn is_same_cause(one: Cause, other: Cause) -> bool
    ensures { IsTrue result ↔ (one ≡ other) }
{
    one == other
}

// Whether a turn is a replica's step for a cause.
fn is_step_of(turn: Turn, who: u8, cause: Cause) -> bool
    ensures { IsTrue result ↔ (turn ≡ Did who cause (call_of turn)) }
{
    match turn {
        Turn::Did {
            who: other,
            cause: why,
            ..
        } => {
            if other != who {
                return false;
            }
            is_same_cause(why, cause)
        }
        Turn::Stopped { .. } => false,
        Turn::Restarted { .. } => false,
        Turn::Arrived { .. } => false,
    }
}

// Whether a turn is a replica's stop between two turns.
fn is_stop_between(turn: Turn, who: u8) -> bool
    ensures { IsTrue result ↔ (turn ≡ Stopped who None false) }
{
    match turn {
        Turn::Stopped {
            who: other,
            cause,
            kept,
        } => match cause {
            None => other == who && !kept,
            Some(_) => false,
        },
        Turn::Did { .. } => false,
        Turn::Restarted { .. } => false,
        Turn::Arrived { .. } => false,
    }
}

/// Whether a turn is a replica's stop within its step for a cause.
pub(crate) fn is_stop_within(turn: Turn, who: u8, cause: Cause, kept: bool) -> bool
    ensures { IsTrue result ↔ (turn ≡ Stopped who (Some cause) kept) }
{
    match turn {
        Turn::Stopped {
            who: other,
            cause: why,
            kept: was,
        } => match why {
            None => false,
            Some(why) => {
                if other != who || was != kept {
                    return false;
                }
                is_same_cause(why, cause)
            }
        },
        Turn::Did { .. } => false,
        Turn::Restarted { .. } => false,
        Turn::Arrived { .. } => false,
    }
}

// Whether a turn is a replica's start after a stop.
fn is_restart_of(turn: Turn, who: u8) -> bool
    ensures { IsTrue result ↔ (turn ≡ Restarted who) }
{
    match turn {
        Turn::Restarted { who: other } => other == who,
        Turn::Did { .. } => false,
        Turn::Stopped { .. } => false,
        Turn::Arrived { .. } => false,
    }
}

// Whether a turn is the arrival of a late call.
fn is_arrival_of(turn: Turn, late: u32) -> bool
    ensures { IsTrue result ↔ (turn ≡ Arrived late) }
{
    match turn {
        Turn::Arrived { late: other } => other == late,
        Turn::Did { .. } => false,
        Turn::Stopped { .. } => false,
        Turn::Restarted { .. } => false,
    }
}

/// Whether a turn is that of a task.
pub(crate) fn is_turn_for(replay: &Replay, task: Task, turn: Turn) -> bool
    requires member { IfSome (turn_of turn) (λ who. who < length replay.now.settings.items) }
    ensures { (fates : ℕ → Becomes) → HaveFates fates replay.now.settings.items → IsTrue result ↔ IsTurnFor fates (task_of task) turn }
{
    match task {
        Task::Do { who, cause } => {
            if !is_step_of(turn, who, cause) {
                return false;
            }
            has_fate(call_in(turn), replay.settings[who as usize].fate)
        }
        Task::Stop { who } => is_stop_between(turn, who),
        Task::Restart { who } => is_restart_of(turn, who),
        Task::Arrive { late } => is_arrival_of(turn, late),
    }
}

/// Judges what was read of a text as the line of a turn.
///
/// # Errors
///
/// Want of memory.
pub(crate) fn judge_next(
    replay: &mut Replay,
    table: &JobTable,
    next: Next<'_>,
) -> Result<Coming, OutOfMemory>
    requires ready { IsInSituation table.now replay.old }
    requires names { HasUnblankNames table.now }
    ensures { (text rest : Unread) → ReadsNext text rest next.entry → IfOk result (Comes table.now replay.old replay.new text rest) }
{
    count_book(&replay.book);
    match next {
        Next::Line(line) => match replay.judge(table, line)? {
            Some(judged) => Ok(Coming::Turn(judged)),
            None => Ok(Coming::Refused(refusal_of(line))),
        },
        Next::Bad => Ok(Coming::Refused(Why::BadLine)),
        Next::End => Ok(Coming::Refused(Why::Missing)),
    }
}

/// Why a text can't go on with what was read of it, where the script has something else there.
///
/// # Errors
///
/// Want of memory.
pub(crate) fn refusal(
    replay: &mut Replay,
    table: &JobTable,
    next: Next<'_>,
) -> Result<Why, OutOfMemory>
    requires ready { IsInSituation table.now replay.old }
    requires names { HasUnblankNames table.now }
    ensures { (text rest : Unread) → ReadsNext text rest next.entry → IfOk result (GoesNoFurther table.now replay.old text) }
{
    match judge_next(replay, table, next)? {
        Coming::Refused(why) => return Ok(why),
        Coming::Turn(_) => {}
    }
    Ok(Why::NotObeyed)
}

// Takes the turn of a task by the next line of a text.
fn play_task(
    replay: &mut Replay,
    table: &JobTable,
    rest: &mut Rest<'_>,
    task: Task,
) -> Result<(), Stop>
    requires ready { IsInSituation table.now replay.old }
    requires names { HasUnblankNames table.now }
    requires few { rest.old.number + length rest.old.text.now < 2 ^ 32 }
    ensures takes { OnOk result (TakesTask table.now (task_of task) replay.old replay.new rest.old rest.new) }
    ensures stops { IfErr result (StopsTask table.now (task_of task) replay.old rest.old) }
    ensures few { rest.new.number + length rest.new.text.now < 2 ^ 32 }
    ensures members { OnOk result (replay.new.book.members ≡ replay.old.book.members) }
{
    let line = rest.number;
    let next = rest.read();
    match judge_next(replay, table, next)? {
        Coming::Refused(why) => Err(Stop::At { line, why }),
        Coming::Turn(judged) => {
            if !is_turn_for(replay, task, judged.turn) {
                return Err(Stop::At {
                    line,
                    why: Why::NotObeyed,
                });
            }
            replay.take(table, judged);
            Ok(())
        }
    }
}

/// Takes the turns of tasks by the lines of a text, one after another. Their letters join the mails behind them.
///
/// # Errors
///
/// The first line that isn't that of the next task's turn, and want of memory.
pub(crate) fn play_tasks(
    replay: &mut Replay,
    table: &JobTable,
    rest: &mut Rest<'_>,
    tasks: &[Task],
) -> Result<(), Stop>
    requires ready { IsInSituation table.now replay.old }
    requires names { HasUnblankNames table.now }
    requires few { rest.old.number + length rest.old.text.now < 2 ^ 32 }
    ensures { ComesOf table.now (BeginsToPlay replay.old.book.members (λ situation. tasks_in tasks.now))
        (Plays replay.old.book.members (λ situation. tasks_in tasks.now)) replay.old rest.old replay.new rest.new result }
{
    let first = replay.book.letters().len() as u64;
    'tasks: for task in tasks {
        play_task(replay, table, rest, *task)?;
    }
    replay.deliver(first)?;
    Ok(())
}
