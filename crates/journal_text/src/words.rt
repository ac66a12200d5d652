//! The line of the journal that tells a turn.
ghost use Rattle.std.specs.Prelude.{◌≡◌, ◌++◌, ◌∷◌, [], string_bytes, IfSome, OnOk};
ghost use Rattle.cluster_sched.specs.Names.{IsNameIn};
ghost use Rattle.journal_text.specs.Journal.{answer_words, call_words, cause_words, end_word, word_of_fate, stop_words, turn_line, turn_words};
ghost use Rattle.journal_text.specs.Told.{CanBeTold, HasStamp, IsAnsweredBy};

use cluster_sched::{Fate, SchedRow, write_name};
use cron_io::OutOfMemory;
use due_set::JobTable;
use history::{CallRow, Cause, Turn};
use paxos_base::Kind;
use std::fmt::Write;
use zone_minutes::write_stamp;

// Appends what a replica has its turn for.
fn push_cause(line: &mut String, cause: Cause) -> Result<(), OutOfMemory>
    requires { HasStamp cause }
    ensures { OnOk result (string_bytes line.new ≡ string_bytes line.old ++ cause_words cause) }
{
    match cause {
        Cause::Campaign => line.push_str("campaign")?,
        Cause::Tick { now } => {
            line.push_str("tick ")?;
            write_stamp(now, line)?;
        }
        Cause::Hear { letter } => write!(line, "hear {letter}")?,
        Cause::Answer => line.push_str("answer")?,
    }
    Ok(())
}

fn fate_str(fate: Fate) -> &'static str
    ensures { result.now ≡ word_of_fate fate }
{
    match fate {
        Fate::Done => "done",
        Fate::LostBefore => "lost-before",
        Fate::LostAfter => "lost-after",
        Fate::Late => "late",
    }
}

fn end_str(kind: Kind) -> &'static str
    ensures { result.now ≡ end_word kind }
{
    match kind {
        Kind::Launch => " launch",
        Kind::Void => " void",
    }
}

// Appends the row that answered a call, where one did.
fn push_answer(
    line: &mut String,
    table: &JobTable,
    answer: Option<SchedRow>,
) -> Result<(), OutOfMemory>
    requires { IfSome answer (λ row. IsNameIn table.now row.name) }
    ensures { OnOk result (string_bytes line.new ≡ string_bytes line.old ++ answer_words table.now answer) }
{
    if let Some(row) = answer {
        line.push(' ')?;
        write_name(table, row.name, line)?;
        line.push_str(end_str(row.kind))?;
    }
    Ok(())
}

// Appends the call of a turn, where one was made.
fn push_call(line: &mut String, table: &JobTable, made: Option<CallRow>) -> Result<(), OutOfMemory>
    requires { IsAnsweredBy table.now made }
    ensures { OnOk result (string_bytes line.new ≡ string_bytes line.old ++ call_words table.now made) }
{
    if let Some(call) = made {
        line.push(' ')?;
        line.push_str(fate_str(call.fate))?;
        push_answer(line, table, call.answer)?;
    }
    Ok(())
}

// Appends how a replica stopped.
fn push_stop(line: &mut String, cause: Option<Cause>, kept: bool) -> Result<(), OutOfMemory>
    requires { IfSome cause HasStamp }
    ensures { OnOk result (string_bytes line.new ≡ string_bytes line.old ++ stop_words cause kept) }
{
    line.push_str("stop")?;
    if let Some(cause) = cause {
        line.push_str(if kept { " kept " } else { " lost " })?;
        push_cause(line, cause)?;
    }
    Ok(())
}

// Appends a turn.
fn push_turn(line: &mut String, table: &JobTable, turn: Turn) -> Result<(), OutOfMemory>
    requires { CanBeTold table.now turn }
    ensures { OnOk result (string_bytes line.new ≡ string_bytes line.old ++ turn_words table.now turn) }
{
    match turn {
        Turn::Did { who, cause, call } => {
            write!(line, "{who} ")?;
            push_cause(line, cause)?;
            push_call(line, table, call)
        }
        Turn::Stopped { who, cause, kept } => {
            write!(line, "{who} ")?;
            push_stop(line, cause, kept)
        }
        Turn::Restarted { who } => {
            write!(line, "{who} restart")?;
            Ok(())
        }
        Turn::Arrived { late } => {
            write!(line, "- arrive {late}")?;
            Ok(())
        }
    }
}

/// Appends the line of the turn of a number, and its newline.
pub fn push_line(
    lines: &mut String,
    table: &JobTable,
    number: u64,
    turn: Turn,
) -> Result<(), OutOfMemory>
    requires { CanBeTold table.now turn }
    ensures { OnOk result (string_bytes lines.new ≡ string_bytes lines.old ++ (turn_line table.now (number, turn) ++ 10 ∷ [])) }
{
    write!(lines, "{number} ")?;
    push_turn(lines, table, turn)?;
    lines.push('\n')?;
    Ok(())
}
