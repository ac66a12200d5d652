//! The lines of the input.
use crate::fault::{PlayFault, Stop};
use crate::hour::Tables;
use crate::parse::command_of;
use crate::seat::Seat;
use crate::text::Text;
use cron_io::{Sink, Source, read_all};
use std::alloc::Global;
use std::str;

// The input's longest length, in bytes.
const LIMIT: u32 = 1 << 20;

// Writes a line that stays as it is, and behind a command what comes of it. Every other line is passed over.
fn take_line<'a>(
    tables: &'a Tables,
    seat: Seat<'a>,
    line: &str,
    text: &mut Text,
) -> (Seat<'a>, Result<(), PlayFault>) {
    let command = line.strip_prefix("> ");
    if line.is_empty() || line.starts_with("# ") || command.is_some() {
        text.put(line);
        text.put("\n");
    }
    let Some(words) = command else {
        return (seat, Ok(()));
    };
    match command_of(tables.alloc(), words) {
        Ok(command) => (seat.run(tables, command, text), Ok(())),
        Err(fault) => (seat, Err(fault)),
    }
}

// Plays the lines of a text, each of which is written at once with what comes of it.
fn take_lines<K: Sink>(tables: &Tables, lines: &str, sink: &mut K) -> Result<(), Stop> {
    let mut text = Text::new(tables.alloc());
    let mut seat = Seat::Empty;
    let mut ended = Ok(());
    let mut number = 0usize;
    for line in lines.split_terminator('\n') {
        number = number.saturating_add(1);
        let (next, played) = take_line(tables, seat, line, &mut text);
        seat = next;
        if let Err(fault) = text.write_to(sink).and(played) {
            ended = Err(Stop {
                line: number,
                fault,
            });
            break;
        }
    }
    ended
}

/// Plays the commands that a source has, and writes them to a sink with what comes of each.
///
/// # Errors
///
/// The first line that can't be played, or why the source can't be read.
pub fn play_all<S: Source, K: Sink>(
    alloc: Global,
    source: &mut S,
    sink: &mut K,
) -> Result<(), Stop> {
    let bytes = read_all(alloc, source, LIMIT).map_err(PlayFault::from)?;
    let Ok(lines) = str::from_utf8(&bytes) else {
        return Err(Stop::from(PlayFault::NotText));
    };
    let tables = Tables::new(alloc).map_err(PlayFault::from)?;
    take_lines(&tables, lines, sink)
}
