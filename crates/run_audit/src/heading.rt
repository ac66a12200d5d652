//! The lines of a journal that are of no turn: its first and last one, and the line before each part.
ghost use Rattle.std.specs.Prelude.{◌≡◌, ◌+◌, ◌<◌, ◌^◌, ◌↔◌, [], IfErr, IfNone, IfSome, IsTrue, OnOk, length};
ghost use Rattle.journal_line.specs.Told.{told_line};
ghost use Rattle.journal_text.specs.Line.{HasUnblankNames};
ghost use Rattle.run_replay.specs.Replay.{IsInSituation};
ghost use Rattle.run_audit.specs.Headings.{IsSmallHeading, PassesLine, StopsAtEnding, StopsAtHeading, TellsHeading, heading_text, told_heading};
ghost use Rattle.run_audit.specs.declared.heading.Heading.{Heading as Line};

use crate::lines::{Next, Rest};
use crate::play::refusal;
use crate::verdict::Stop;
use due_set::JobTable;
use journal_line::{Count, JournalLine};
use run_replay::Replay;

/// A line of a journal that is of no turn.
#[derive(Clone, Copy, Debug, PartialEq, Eq)]
pub(crate) enum Heading {
    /// `cron journal 1`
    First,
    /// `command K`
    Command(u64),
    /// `command end`
    Walk,
    /// `end`
    Last,
}

// Which line of no turn a line is.
fn heading_of(line: JournalLine<'_>) -> Option<Heading>
    ensures some { IfSome result (λ heading. told_line line.entry ≡ told_heading heading) }
    ensures none { IfNone result ((heading : Line) → told_line line.entry ≡ told_heading heading → ⊥) }
{
    match line {
        JournalLine::Head => Some(Heading::First),
        JournalLine::Command { number } => match number {
            Count::Number(number) => Some(Heading::Command(number)),
            Count::Larger => None,
        },
        JournalLine::Walk => Some(Heading::Walk),
        JournalLine::End => Some(Heading::Last),
        JournalLine::Turn { .. } => None,
        JournalLine::Arrival { .. } => None,
    }
}

fn is_same_heading(one: Heading, other: Heading) -> bool
    ensures { IsTrue result ↔ (one ≡ other) }
{
    one == other
}

// Whether a line is that line of no turn.
fn is_heading(line: JournalLine<'_>, heading: Heading) -> bool
    ensures { IsTrue result ↔ (told_line line.entry ≡ told_heading heading) }
{
    match heading_of(line) {
        Some(found) => is_same_heading(found, heading),
        None => false,
    }
}

// The number of a command has 64 bits.
fn count_heading(heading: Heading)
    ensures { IsSmallHeading heading }
{
    match heading {
        Heading::First => {}
        Heading::Command(_number) => {}
        Heading::Walk => {}
        Heading::Last => {}
    }
}

// Whether a text goes on with that line.
fn is_heading_next(next: Next<'_>, heading: Heading) -> bool
    ensures { IsTrue result ↔ TellsHeading next.entry heading }
{
    match next {
        Next::Line(line) => is_heading(line, heading),
        Next::Bad => false,
        Next::End => false,
    }
}

/// Reads a line that is of no turn, as the next one of a text.
///
/// # Errors
///
/// Another line, and want of memory.
pub(crate) fn pass_heading(
    replay: &mut Replay,
    table: &JobTable,
    rest: &mut Rest<'_>,
    heading: Heading,
) -> Result<(), Stop>
    requires ready { IsInSituation table.now replay.old }
    requires names { HasUnblankNames table.now }
    requires few { rest.old.number + length rest.old.text.now < 2 ^ 32 }
    ensures passes { OnOk result (PassesLine (heading_text heading) rest.old rest.new) }
    ensures stays { OnOk result (replay.new ≡ replay.old) }
    ensures stops { IfErr result (StopsAtHeading table.now (heading_text heading) replay.old rest.old) }
{
    count_heading(heading);
    let line = rest.number;
    let next = rest.read();
    if is_heading_next(next, heading) {
        return Ok(());
    }
    let why = refusal(replay, table, next)?;
    Err(Stop::At { line, why })
}

/// Reads the end of a text.
///
/// # Errors
///
/// A line more, and want of memory.
pub(crate) fn pass_end(
    replay: &mut Replay,
    table: &JobTable,
    rest: &mut Rest<'_>,
) -> Result<(), Stop>
    requires ready { IsInSituation table.now replay.old }
    requires names { HasUnblankNames table.now }
    requires few { rest.old.number + length rest.old.text.now < 2 ^ 32 }
    ensures ends { OnOk result (rest.old.text.now ≡ []) }
    ensures stays { OnOk result (replay.new ≡ replay.old) }
    ensures stops { IfErr result (StopsAtEnding table.now replay.old rest.old) }
{
    if rest.text.is_empty() {
        return Ok(());
    }
    let line = rest.number;
    let next = rest.read();
    let why = refusal(replay, table, next)?;
    Err(Stop::At { line, why })
}
