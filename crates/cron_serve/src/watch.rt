//! How a run is played that is watched, and the lines of what was seen then.
ghost use Rattle.std.specs.Prelude.{◌≡◌, ◌++◌, ◌<◌, ◌≤◌, [], ◌∷◌, All, OnOk, IfOk, string_bytes};
ghost use Rattle.report_text.specs.Writes.{Writes};
ghost use Rattle.script_play.specs.Play.{HasRun, HasStarts, IsPlayable};
ghost use Rattle.world_rounds.specs.World.{book_of};
ghost use Rattle.cron_serve.specs.Played.{HasWatched};
ghost use Rattle.cron_serve.specs.Watch.{watch_line, watch_text};

use cron_io::{OutOfMemory, Sink, write_all};
use disk_model::MemDisk;
use due_set::JobTable;
use report_text::ReportFault;
use script_play::{Seen, play_run, play_run_watched};
use script_text::Command;
use std::alloc::Global;
use std::fmt::Write;
use std::sync::Wait;
use std::thread::Threads;
use world_free::TurnGate;
use world_rounds::World;

/// Plays a run in a world of so many replicas, and looks at a board after each command `free` where that is asked for. It may
/// wait. It tells the numbers of turns at which the parts of its commands begin, and what was seen.
///
/// # Errors
///
/// Want of memory.
pub fn play_watched<R: Threads + Wait + Sync, G: TurnGate + Sync>(
    rt: &R,
    alloc: Global,
    table: &JobTable,
    members: u8,
    script: &[Command],
    lanes: u8,
    gate: &G,
    watch: bool,
) -> Result<(World<MemDisk>, Vec<u64>, Vec<Seen>), OutOfMemory>
    requires lanes { 0 < lanes }
    requires some { 0 < members }
    requires few { members ≤ 7 }
    requires taken { All (IsPlayable table.now.window members) script.now }
    ensures run { IfOk result (λ run. HasRun table.now members script.now run.0) }
    ensures starts { IfOk result (λ run. HasStarts table.now script.now (book_of run.0) run.1.items) }
    ensures seen { IfOk result (λ run. HasWatched watch table.now script.now (book_of run.0) run.1.items run.2.items) }
{
    if watch {
        return play_run_watched(rt, alloc, table, members, script, lanes, gate);
    }
    let (world, starts) = play_run(rt, alloc, table, members, script, lanes, gate)?;
    Ok((world, starts, Vec::new(alloc)))
}

// Appends the line of what was seen after one command.
fn push_line(text: &mut String, seen: Seen) -> Result<(), OutOfMemory>
    ensures { OnOk result (string_bytes text.new ≡ string_bytes text.old ++ (watch_line seen ++ 10 ∷ [])) }
{
    let Seen {
        number,
        prefix,
        jobs_open,
    } = seen;
    write!(text, "watch {number} {prefix} {jobs_open}\n")?;
    Ok(())
}

// The lines of what was seen.
fn text_of(alloc: Global, seen: &[Seen]) -> Result<String, OutOfMemory>
    ensures { IfOk result (λ text. string_bytes text ≡ watch_text seen.now) }
{
    let mut text = String::new(alloc);
    'rows: for row in seen {
        push_line(&mut text, *row)?;
    }
    Ok(text)
}

/// Writes the lines of what was seen at once.
///
/// # Errors
///
/// `WriteFault` only where a write failed, and `OutOfMemory`. Some front of the lines may be written then.
pub fn write_watch<K: Sink>(alloc: Global, sink: &mut K, seen: &[Seen]) -> Result<(), ReportFault>
    ensures { Writes (K.seen sink.old) (K.seen sink.new) result (watch_text seen.now) }
{
    let text = text_of(alloc, seen)?;
    write_all(sink, text.as_bytes())?;
    Ok(())
}
