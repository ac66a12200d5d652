//! A line by its first words.
ghost use Rattle.std.specs.Prelude.{IfSome, IfNone};
ghost use Rattle.journal_line.specs.Line.{IsJournalLine};
ghost use Rattle.journal_line.specs.Told.{ToldLine, ToldTurn, CommandLine, TurnLine, ArrivalLine, told_line, told_turn};
ghost use Rattle.journal_line.specs.declared.line.Count.{Count};

use crate::count::read_count;
use crate::line::{Count, JournalLine, TurnWords};
use crate::turn::read_turn;
use crate::words::{behind, split_word};

/// Reads a line of a journal, without its newline.
///
/// `None` for any other text.
pub fn read_line(line: &str) -> Option<JournalLine<'_>>
    ensures read { IfSome result (λ read. IsJournalLine (told_line read) line.now) }
    ensures none { IfNone result ((told : ToldLine) → IsJournalLine told line.now → ⊥) }
{
    if line == "cron journal 1" {
        return Some(JournalLine::Head);
    }
    if line == "end" {
        return Some(JournalLine::End);
    }
    if line == "command end" {
        return Some(JournalLine::Walk);
    }
    if let Some(number) = read_command(line) {
        return Some(JournalLine::Command { number });
    }
    if let Some((number, late)) = read_arrival(line) {
        return Some(JournalLine::Arrival { number, late });
    }
    let (number, replica, words) = read_numbered(line)?;
    Some(JournalLine::Turn {
        number,
        replica,
        words,
    })
}

// command K
fn read_command(line: &str) -> Option<Count>
    ensures read { IfSome result (λ number. IsJournalLine (CommandLine number) line.now) }
    ensures none { IfNone result ((number : Count) → IsJournalLine (CommandLine number) line.now → ⊥) }
{
    let number = behind(line, "command")?;
    read_count(number)
}

// I - arrive C
fn read_arrival(line: &str) -> Option<(Count, Count)>
    ensures read { IfSome result (λ read. IsJournalLine (ArrivalLine read.0 read.1) line.now) }
    ensures none { IfNone result ((number late : Count) → IsJournalLine (ArrivalLine number late) line.now → ⊥) }
{
    let (number, rest) = split_word(line)?;
    let number = read_count(number)?;
    let late = behind(rest, "- arrive")?;
    let late = read_count(late)?;
    Some((number, late))
}

// I R, and what the replica did
fn read_numbered(line: &str) -> Option<(Count, Count, TurnWords<'_>)>
    ensures read { IfSome result (λ read. IsJournalLine (TurnLine read.0 read.1 (told_turn read.2)) line.now) }
    ensures none { IfNone result ((number replica : Count) (turn : ToldTurn) → IsJournalLine (TurnLine number replica turn) line.now → ⊥) }
{
    let (number, rest) = split_word(line)?;
    let number = read_count(number)?;
    let (replica, words) = split_word(rest)?;
    let replica = read_count(replica)?;
    let words = read_turn(words)?;
    Some((number, replica, words))
}
