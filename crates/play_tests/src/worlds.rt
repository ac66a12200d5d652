//! The run of a file, the world that has played it, the texts of its book, and what is seen of a board.
ghost use Rattle.std.specs.Prelude.{◌≡◌, ◌<◌, ◌≤◌, ◌^◌, IfOk, None, length};
ghost use Rattle.due_set.specs.Table.{IsSound};
ghost use Rattle.script_semantics.specs.Starts.{AreStarts};
ghost use Rattle.world_law.specs.Book.{IsLegalBook};

use cron_io::MemSink;
use due_set::JobTable;
use job_table::build_table;
use journal_text::{write_journal, write_summary};
use report_text::{ReportFault, write_book_report};
use run_text::read_run;
use script_play::{Seen, play_run, play_run_watched};
use std::alloc::Global;
use std::sync::Wait;
use std::test::Fail;
use std::thread::Threads;
use world_free::OpenGate;
use world_law::Book;

// A run that was played: the table of its jobs, its number of replicas, the book that it left, and the numbers of the
// turns at which the parts of its script begin.
#[derive(Drop)]
struct Played {
    table: JobTable,
    members: u8,
    book: Book,
    starts: Vec<u64>,
}

// The text, which is short enough to be read.
fn short(text: &str) -> Result<&str, Fail>
    ensures { IfOk result (λ short. length short.now < 2 ^ 32) }
{
    if text.len() < 10_000 {
        Ok(text)
    } else {
        Err(Fail::from("a long text"))
    }
}

// Plays the run of a file in a world of its replicas, rounds in so many lanes.
fn play<R: Threads + Wait + Sync>(
    rt: &R,
    alloc: Global,
    text: &str,
    lanes: u8,
) -> Result<Played, Fail>
    requires lanes { 0 < lanes }
    ensures few { IfOk result (λ played. played.members ≤ 7) }
    ensures members { IfOk result (λ played. played.book.members ≡ played.members) }
    ensures legal { IfOk result (λ played. IsLegalBook played.table played.book) }
    ensures rest { IfOk result (λ played. played.book.pending ≡ None) }
    ensures sound { IfOk result (λ played. IsSound played.table) }
    ensures starts { IfOk result (λ played. AreStarts (length played.book.turns) played.starts.items) }
{
    let Ok(run) = read_run(alloc, short(text)?) else {
        return Err(Fail::from("no run"));
    };
    let Ok(table) = build_table(alloc, &run) else {
        return Err(Fail::from("no table"));
    };
    let commands = run.commands.as_slice();
    let Ok((world, starts)) = play_run(rt, alloc, &table, run.members, commands, lanes, &OpenGate)
    else {
        return Err(Fail::from("no world"));
    };
    let (book, _nodes) = world.into_book();
    Ok(Played {
        table,
        members: run.members,
        book,
        starts,
    })
}

/// What is seen of a board after each command `free` of the run of a file.
pub fn seen_of<R: Threads + Wait + Sync>(
    rt: &R,
    alloc: Global,
    text: &str,
) -> Result<Vec<Seen>, Fail> {
    let Ok(run) = read_run(alloc, short(text)?) else {
        return Err(Fail::from("no run"));
    };
    let Ok(table) = build_table(alloc, &run) else {
        return Err(Fail::from("no table"));
    };
    let commands = run.commands.as_slice();
    let Ok((_world, _starts, seen)) = play_run_watched(
        rt,
        alloc,
        &table,
        run.members,
        commands,
        1,
        &OpenGate,
    ) else {
        return Err(Fail::from("no world"));
    };
    Ok(seen)
}

/// The report of the world that has played the run of a file, rounds in so many lanes.
pub fn report_of<R: Threads + Wait + Sync>(
    rt: &R,
    alloc: Global,
    text: &str,
    lanes: u8,
) -> Result<String, Fail>
    requires lanes { 0 < lanes }
{
    let played = play(rt, alloc, text, lanes)?;
    let mut sink = MemSink::new(alloc, 100_000, Vec::new(alloc))?;
    let Played {
        table,
        members,
        book,
        ..
    } = &played;
    if write_book_report(alloc, &mut sink, table, *members, book).is_err() {
        return Err(Fail::from("no report"));
    }
    let report = std::str::from_utf8(sink.bytes())?;
    Ok(String::from_str(alloc, report)?)
}

/// The numbers of the turns at which the parts of a run's script begin, in the world that has played it.
pub fn starts_of<R: Threads + Wait + Sync>(
    rt: &R,
    alloc: Global,
    text: &str,
) -> Result<Vec<u64>, Fail> {
    let played = play(rt, alloc, text, 1)?;
    Ok(played.starts)
}

/// Plays the run of a file, and writes the journal of the world's book.
pub fn write_journal_of<R: Threads + Wait + Sync>(
    rt: &R,
    alloc: Global,
    text: &str,
    sink: &mut MemSink,
) -> Result<Result<(), ReportFault>, Fail> {
    let played = play(rt, alloc, text, 1)?;
    Ok(write_journal(alloc, sink, &played.table, &played.book, &played.starts))
}

// Plays the run of a file, rounds in so many lanes, and writes the report of the world's book, and the journal behind it. It says
// whether each write was taken.
fn write_all_of<R: Threads + Wait + Sync>(
    rt: &R,
    alloc: Global,
    text: &str,
    lanes: u8,
    sink: &mut MemSink,
) -> Result<bool, Fail>
    requires lanes { 0 < lanes }
{
    let played = play(rt, alloc, text, lanes)?;
    let (table, book) = (&played.table, &played.book);
    let reported = write_book_report(alloc, sink, table, played.members, book);
    let told = write_journal(alloc, sink, table, book, &played.starts);
    Ok(reported.is_ok() && told.is_ok())
}

/// The report of the world that has played the run of a file, rounds in so many lanes, and its journal behind it.
pub fn told_of<R: Threads + Wait + Sync>(
    rt: &R,
    alloc: Global,
    text: &str,
    lanes: u8,
) -> Result<String, Fail>
    requires lanes { 0 < lanes }
{
    let mut sink = MemSink::new(alloc, 100_000, Vec::new(alloc))?;
    if !write_all_of(rt, alloc, text, lanes, &mut sink)? {
        return Err(Fail::from("no report or no journal"));
    }
    Ok(String::from_str(alloc, std::str::from_utf8(sink.bytes())?)?)
}

/// Plays the run of a file, and writes the summary of the world's book, as if the run were made from a seed.
pub fn write_summary_of<R: Threads + Wait + Sync>(
    rt: &R,
    alloc: Global,
    text: &str,
    seed: u32,
    sink: &mut MemSink,
) -> Result<Result<(), ReportFault>, Fail> {
    let played = play(rt, alloc, text, 1)?;
    Ok(write_summary(alloc, sink, &played.table, &played.book, seed))
}
