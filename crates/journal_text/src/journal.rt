//! The journal of a book.
ghost use Rattle.std.specs.Prelude.{◌≡◌, ◌+◌, ◌<◌, ◌≤◌, ◌^◌, ◌++◌, ◌∷◌, [], length, map, get_or, All, string_bytes, OnOk};
ghost use Rattle.std.specs.List.{enumerate_from, flat_map, range_with_len};
ghost use Rattle.due_set.specs.Table.{IsSound};
ghost use Rattle.cron_io.specs.Lines.{text_of_lines};
ghost use Rattle.report_text.specs.Writes.{Writes};
ghost use Rattle.journal_text.specs.Journal.{end_of, journal_text, part_head, part_lines, turn_line};
ghost use Rattle.script_semantics.specs.Starts.{AreStarts};
ghost use Rattle.journal_text.specs.Told.{CanBeTold};
ghost use Rattle.world_law.specs.Book.{IsLegalBook};

use crate::words::push_line;
use cron_io::{OutOfMemory, Sink, write_all};
use due_set::JobTable;
use report_text::{ReportFault, write_line, write_text};
use std::alloc::Global;
use std::fmt::Write;
use world_law::{Book, TurnRow};

// How many turns one write tells at most: some ten kilobytes, since a write of each line would take longer than its making.
const GROUP: usize = 256;

fn put_head(line: &mut String, parts: usize, place: usize) -> Result<(), OutOfMemory>
    requires { place < parts }
    ensures { OnOk result (string_bytes line.new ≡ part_head parts place) }
{
    let number = place + 1;
    line.clear();
    line.push_str("command ")?;
    if number == parts {
        line.push_str("end")?;
    } else {
        write!(line, "{number}")?;
    }
    Ok(())
}

// Makes the text that of the lines of turns, the first of which has this number.
fn put_turns(
    text: &mut String,
    table: &JobTable,
    first: u64,
    turns: &[TurnRow],
) -> Result<(), OutOfMemory>
    requires told { All (CanBeTold table.now) turns.now }
    requires numbers { first + length turns.now < 2 ^ 64 }
    ensures { OnOk result (string_bytes text.new ≡ text_of_lines (map (turn_line table.now) (enumerate_from first turns.now))) }
{
    text.clear();
    for (place, turn) in turns.iter().enumerate() {
        push_line(text, table, first + place as u64, turn.turn())?;
    }
    Ok(())
}

// Writes the lines of turns at once, the first of which has this number.
fn write_group<K: Sink>(
    sink: &mut K,
    text: &mut String,
    table: &JobTable,
    first: u64,
    turns: &[TurnRow],
) -> Result<(), ReportFault>
    requires told { All (CanBeTold table.now) turns.now }
    requires numbers { first + length turns.now < 2 ^ 64 }
    ensures { Writes (K.seen sink.old) (K.seen sink.new) result
        (text_of_lines (map (turn_line table.now) (enumerate_from first turns.now))) }
{
    put_turns(text, table, first, turns)?;
    write_all(sink, text.as_bytes())?;
    Ok(())
}

// Writes the lines of turns, the first of which has this number.
fn write_turns<K: Sink>(
    sink: &mut K,
    text: &mut String,
    table: &JobTable,
    first: u64,
    turns: &[TurnRow],
) -> Result<(), ReportFault>
    requires told { All (CanBeTold table.now) turns.now }
    requires numbers { first + length turns.now < 2 ^ 64 }
    ensures { Writes (K.seen sink.old) (K.seen sink.new) result
        (text_of_lines (map (turn_line table.now) (enumerate_from first turns.now))) }
{
    let mut next = first;
    let mut rest = turns;
    'groups: while !rest.is_empty() {
        let (group, others) = rest.split_at(rest.len().min(GROUP));
        write_group(sink, text, table, next, group)?;
        next += group.len() as u64;
        rest = others;
    }
    Ok(())
}

// Where the part of a place ends.
fn part_end(starts: &[u64], turns: usize, place: usize) -> usize
    requires starts { AreStarts turns starts.now }
    requires place { place < length starts.now }
    ensures is { result ≡ end_of starts.now turns place }
    ensures behind { get_or starts.now place 0 ≤ result }
    ensures within { result ≤ turns }
{
    match starts.get(place + 1) {
        Some(next) => *next as usize,
        None => turns,
    }
}

// Writes the lines of the part of a place.
fn write_part<K: Sink>(
    sink: &mut K,
    line: &mut String,
    table: &JobTable,
    turns: &[TurnRow],
    starts: &[u64],
    place: usize,
) -> Result<(), ReportFault>
    requires told { All (CanBeTold table.now) turns.now }
    requires starts { AreStarts (length turns.now) starts.now }
    requires place { place < length starts.now }
    ensures { Writes (K.seen sink.old) (K.seen sink.new) result
        (text_of_lines (part_lines table.now turns.now starts.now place)) }
{
    let first = starts[place];
    let end = part_end(starts, turns.len(), place);
    put_head(line, starts.len(), place)?;
    write_line(sink, line)?;
    write_turns(sink, line, table, first, &turns[first as usize..end])
}

// Writes the lines of all parts.
fn write_parts<K: Sink>(
    sink: &mut K,
    line: &mut String,
    table: &JobTable,
    turns: &[TurnRow],
    starts: &[u64],
) -> Result<(), ReportFault>
    requires told { All (CanBeTold table.now) turns.now }
    requires starts { AreStarts (length turns.now) starts.now }
    ensures { Writes (K.seen sink.old) (K.seen sink.new) result
        (flat_map (λ place. text_of_lines (part_lines table.now turns.now starts.now place))
        (range_with_len 0 (length starts.now))) }
{
    for place in 0..starts.len() {
        write_part(sink, line, table, turns, starts, place)?;
    }
    Ok(())
}

/// Writes the journal of a book of at most seven replicas, the turns of a part in writes of 256 lines. The parts of its script begin at these
/// numbers of turns: that of each command, and last that of the walk behind them.
///
/// # Errors
///
/// `WriteFault` only where a write failed, and `OutOfMemory`. Some front of the journal may be written then.
pub fn write_journal<K: Sink>(
    alloc: Global,
    sink: &mut K,
    table: &JobTable,
    book: &Book,
    starts: &[u64],
) -> Result<(), ReportFault>
    requires sound { IsSound table.now }
    requires few { book.now.members ≤ 7 }
    requires legal { IsLegalBook table.now book.now }
    requires starts { AreStarts (length book.now.turns) starts.now }
    ensures { Writes (K.seen sink.old) (K.seen sink.new) result (journal_text table.now book.now.turns starts.now) }
{
    let mut line = String::new(alloc);
    write_text(sink, &mut line, "cron journal 1")?;
    write_parts(sink, &mut line, table, book.turns(), starts)?;
    write_text(sink, &mut line, "end")
}
