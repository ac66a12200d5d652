//! What is written of an input that was read, and how its run, or one that was made, is played.
ghost use Rattle.std.specs.Prelude.{◌≡◌, ◌++◌, ◌<◌, ◌≤◌, List, ℕ, length, None, IfOk, IfErr};
ghost use Rattle.report_text.specs.Book.{IsBookReport};
ghost use Rattle.report_text.specs.Writes.{Writes};
ghost use Rattle.run_text.specs.Steps.{IfRefused};
ghost use Rattle.script_play.specs.Play.{HasStarts};
ghost use Rattle.run_input.specs.Input.{IsRefusedAsRun};
ghost use Rattle.cron_serve.specs.Input.{IsOfInput, IsRefusedBytes};
ghost use Rattle.cron_serve.specs.Played.{HasWatched, IsPlayed, played_journal};
ghost use Rattle.cron_serve.specs.Serve.{IsRunOf, LeavesNoRun};
ghost use Rattle.cron_serve.specs.Watch.{watch_text};
ghost use Rattle.cron_serve.specs.Written.{EndsRunText, EndsWriting, status_of_listing, status_of_writing};

use crate::run_end::RunEnd;
use crate::watch::{play_watched, write_watch};
use cron_io::Sink;
use disk_model::MemDisk;
use due_list::{ListFault, write_check, write_due};
use due_set::JobTable;
use journal_text::write_journal;
use program_options::Output;
use replica_node::Node;
use report_text::{ReportFault, write_book_report};
use run_input::{take_frame, take_table};
use run_text::RunFault;
use script_play::Seen;
use std::alloc::Global;
use std::sync::Wait;
use std::thread::Threads;
use world_free::TurnGate;
use world_law::Book;

/// A run that was played: the table of its jobs, its number of replicas, the book and the nodes that it left, the numbers
/// of turns at which the parts of its script begin, and what was seen of a board.
#[derive(Drop)]
pub struct Played {
    /// The table of its jobs.
    pub table: JobTable,
    /// Its number of replicas, 1 to 7.
    pub members: u8,
    /// The book that it left.
    pub book: Book,
    /// The nodes that it left, in order of number.
    pub nodes: Vec<Node<MemDisk>>,
    /// The numbers of turns at which the parts of its commands begin, and last that of the walk.
    pub starts: Vec<u64>,
    /// What was seen of a board after each command `free`, if that was asked for.
    pub seen: Vec<Seen>,
}

/// Writes what is asked for of an input.
///
/// # Errors
///
/// What the input is refused for, or want of memory; then nothing is written.
pub fn write_output<K: Sink, R: Threads + Wait + Sync, G: TurnGate + Sync>(
    rt: &R,
    alloc: Global,
    output: Output,
    lanes: u8,
    bytes: &[u8],
    sink: &mut K,
    gate: &G,
) -> Result<RunEnd, RunFault>
    requires short { length bytes.now ≤ 1_048_576 }
    requires lanes { 0 < lanes }
    requires input { IsOfInput output }
    ensures end { IfOk result (EndsWriting output bytes.now (K.seen sink.old) (K.seen sink.new)) }
    ensures refused { IfErr result (λ fault. IfRefused fault (IsRefusedBytes output bytes.now)) }
    ensures unwritten { IfErr result (λ _. K.seen sink.new ≡ K.seen sink.old) }
{
    match output {
        Output::Report { watch, journal } => {
            let played = play(rt, alloc, lanes, watch, bytes, gate)?;
            Ok(report(alloc, sink, journal, played))
        }
        Output::DueList => {
            let (_run, table) = take_table(alloc, bytes)?;
            Ok(end_of_listing(alloc, write_due(alloc, sink, &table)))
        }
        Output::Check => {
            let run = take_frame(alloc, bytes)?;
            Ok(end_of_listing(alloc, write_check(alloc, sink, &run)))
        }
        Output::Summary(_) => unreachable!(),
    }
}

/// Plays a run in a world of its replicas, free turns with this gate, and looks at a board after them where that is asked
/// for. It may wait.
///
/// # Errors
///
/// What the bytes are refused for, or want of memory.
pub fn play<R: Threads + Wait + Sync, G: TurnGate + Sync>(
    rt: &R,
    alloc: Global,
    lanes: u8,
    watch: bool,
    bytes: &[u8],
    gate: &G,
) -> Result<Played, RunFault>
    requires short { length bytes.now ≤ 1_048_576 }
    requires lanes { 0 < lanes }
    ensures run { IfOk result (λ played. IsRunOf bytes.now played.table played.book played.nodes.items) }
    ensures played { IfOk result IsPlayed }
    ensures starts { IfOk result (λ played. (run : IsRunOf bytes.now played.table played.book played.nodes.items)
        → HasStarts played.table run.run.commands played.book played.starts.items) }
    ensures seen { IfOk result (λ played. (run : IsRunOf bytes.now played.table played.book played.nodes.items)
        → HasWatched watch played.table run.run.commands played.book played.starts.items played.seen.items) }
    ensures refused { IfErr result (λ fault. IfRefused fault (IsRefusedAsRun bytes.now)) }
{
    let (run, table) = take_table(alloc, bytes)?;
    let commands = run.commands.as_slice();
    let (world, starts, seen) = play_watched(
        rt,
        alloc,
        &table,
        run.members,
        commands,
        lanes,
        gate,
        watch,
    )?;
    let (book, nodes) = world.into_book();
    Ok(Played {
        table,
        members: run.members,
        book,
        nodes,
        starts,
        seen,
    })
}

// Writes the report of a run, what was seen of a board, and then its journal where that is asked for.
fn report<K: Sink>(alloc: Global, sink: &mut K, journal: bool, played: Played) -> RunEnd
    requires played { IsPlayed played }
    ensures { (front : List ℕ) × IsBookReport played.table played.book front
        × EndsRunText (K.seen sink.old) (K.seen sink.new) played.book played.nodes.items result
        (front ++ (watch_text played.seen.items ++ played_journal journal played)) }
{
    let written = write_texts(alloc, sink, journal, &played);
    written_end(written, played)
}

// Writes them, one after another.
fn write_texts<K: Sink>(
    alloc: Global,
    sink: &mut K,
    journal: bool,
    played: &Played,
) -> Result<(), ReportFault>
    requires played { IsPlayed played.now }
    ensures { (front : List ℕ) × IsBookReport played.now.table played.now.book front
        × Writes (K.seen sink.old) (K.seen sink.new) result
        (front ++ (watch_text played.now.seen.items ++ played_journal journal played.now)) }
{
    write_book_report(alloc, sink, &played.table, played.members, &played.book)?;
    write_rest(alloc, sink, journal, played)
}

// Writes what was seen of a board, and then the journal where that is asked for.
fn write_rest<K: Sink>(
    alloc: Global,
    sink: &mut K,
    journal: bool,
    played: &Played,
) -> Result<(), ReportFault>
    requires played { IsPlayed played.now }
    ensures { Writes (K.seen sink.old) (K.seen sink.new) result
        (watch_text played.now.seen.items ++ played_journal journal played.now) }
{
    write_watch(alloc, sink, &played.seen)?;
    if journal {
        write_journal(alloc, sink, &played.table, &played.book, &played.starts)
    } else {
        Ok(())
    }
}

/// The end of a program that wrote a text of a run.
pub fn written_end(written: Result<(), ReportFault>, played: Played) -> RunEnd
    ensures status { result.status ≡ status_of_writing written }
    ensures book { result.book ≡ played.book }
    ensures nodes { result.nodes.items ≡ played.nodes.items }
    ensures refusal { result.refusal ≡ None }
{
    let status = match written {
        Ok(()) => 0,
        Err(ReportFault::WriteFault) => 4,
        Err(ReportFault::OutOfMemory) => 5,
    };
    RunEnd {
        status,
        refusal: None,
        book: played.book,
        nodes: played.nodes,
    }
}

// The end of a program that wrote a list: no run is left.
fn end_of_listing(alloc: Global, written: Result<(), ListFault>) -> RunEnd
    ensures status { result.status ≡ status_of_listing written }
    ensures refusal { result.refusal ≡ None }
    ensures no_run { LeavesNoRun result.book result.nodes.items }
{
    let status = match written {
        Ok(()) => 0,
        Err(ListFault::WriteFault) => 4,
        Err(ListFault::OutOfMemory) => 5,
    };
    RunEnd::without_run(alloc, status, None)
}
