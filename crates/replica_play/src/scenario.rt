//! The lines of a scenario.
use crate::cluster::Cluster;
use crate::fault::{PlayFault, Stop};
use crate::hour::hour_table;
use crate::parse::command_of;
use cron_io::{Sink, Source, read_all, write_all};
use std::alloc::Global;
use std::str;

// The input's longest length, in bytes.
const LIMIT: u32 = 1 << 20;

impl Cluster<'_> {
    // Writes a line that stays as it is, and behind a command what comes of it. Every other line is passed over.
    fn play_line(&mut self, line: &str) -> Result<(), PlayFault> {
        let command = line.strip_prefix("> ");
        if line.is_empty() || line.starts_with("# ") || command.is_some() {
            self.text().put(line)?;
            self.text().put("\n")?;
        }
        match command {
            Some(text) => self.run(command_of(text)?),
            None => Ok(()),
        }
    }
}

// Plays a line, and writes at once what it comes to, also where it can't be played to its end.
fn tell_line<K: Sink>(
    cluster: &mut Cluster<'_>,
    line: &str,
    sink: &mut K,
) -> Result<(), PlayFault> {
    let result = cluster.play_line(line);
    write_all(sink, cluster.text().bytes())?;
    cluster.text().clear();
    result
}

// Plays the lines of a text.
fn play_text<K: Sink>(alloc: Global, text: &str, sink: &mut K) -> Result<(), Stop> {
    let table = hour_table(alloc).map_err(PlayFault::from)?;
    let mut cluster = Cluster::new(alloc, &table);
    let mut number = 0usize;
    // A carriage return is a byte of its line.
    for line in text.split_terminator('\n') {
        number = number.saturating_add(1);
        if let Err(fault) = tell_line(&mut cluster, line, sink) {
            return Err(Stop {
                line: number,
                fault,
            });
        }
    }
    Ok(())
}

/// Plays the scenarios that a source has, and writes them to a sink with what comes of each command.
///
/// # Errors
///
/// The first line that can't be played, or why the source can't be read.
pub fn play_all<S: Source, K: Sink>(
    alloc: Global,
    source: &mut S,
    sink: &mut K,
) -> Result<(), Stop> {
    let bytes = read_all(alloc, source, LIMIT).map_err(PlayFault::from)?;
    match str::from_utf8(&bytes) {
        Ok(text) => play_text(alloc, text, sink),
        Err(_) => Err(Stop::from(PlayFault::NotText)),
    }
}
