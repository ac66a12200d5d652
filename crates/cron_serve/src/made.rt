//! The summary of a run that is made from a seed.
ghost use Rattle.std.specs.Prelude.{◌≡◌, ◌<◌, ℕ, List, IfOk, IfErr};
ghost use Rattle.cron_serve.specs.Played.{IsPlayed};
ghost use Rattle.cron_serve.specs.Serve.{IsRunOf};
ghost use Rattle.cron_serve.specs.Written.{EndsRunText, EndsWriting};
ghost use Rattle.program_options.specs.declared.words.Output.{Output};
ghost use Rattle.journal_text.specs.Summary.{IsBookSummary};
ghost use Rattle.generated_run.specs.Made.{made_text};

use crate::answer::{Played, play, written_end};
use crate::run_end::RunEnd;
use cron_io::{OutOfMemory, Sink};
use generated_run::make_run;
use journal_text::write_summary;
use run_text::RunFault;
use std::alloc::Global;
use std::sync::Wait;
use std::thread::Threads;
use world_free::TurnGate;

/// Makes the run of a seed, plays it, and writes its summary.
///
/// # Errors
///
/// Want of memory; then nothing is written.
pub fn write_made<K: Sink, R: Threads + Wait + Sync, G: TurnGate + Sync>(
    rt: &R,
    alloc: Global,
    lanes: u8,
    seed: u32,
    sink: &mut K,
    gate: &G,
) -> Result<RunEnd, OutOfMemory>
    requires lanes { 0 < lanes }
    ensures end { IfOk result (EndsWriting (Output.Summary seed) (made_text seed) (K.seen sink.old) (K.seen sink.new)) }
    ensures unwritten { IfErr result (λ _. K.seen sink.new ≡ K.seen sink.old) }
{
    let played = play_made(rt, alloc, lanes, seed, gate)?;
    Ok(summarize(alloc, sink, seed, played))
}

// Plays the run of a seed. It is never refused.
fn play_made<R: Threads + Wait + Sync, G: TurnGate + Sync>(
    rt: &R,
    alloc: Global,
    lanes: u8,
    seed: u32,
    gate: &G,
) -> Result<Played, OutOfMemory>
    requires lanes { 0 < lanes }
    ensures run { IfOk result (λ played. IsRunOf (made_text seed) played.table played.book played.nodes.items) }
    ensures played { IfOk result IsPlayed }
{
    let text = make_run(alloc, seed)?;
    match play(rt, alloc, lanes, false, text.as_bytes(), gate) {
        Ok(played) => Ok(played),
        Err(RunFault::OutOfMemory) => Err(OutOfMemory),
        Err(RunFault::Refused(_)) => unreachable!(),
    }
}

// Writes the summary of the run of a seed.
fn summarize<K: Sink>(alloc: Global, sink: &mut K, seed: u32, played: Played) -> RunEnd
    requires played { IsPlayed played }
    ensures { (text : List ℕ) × IsBookSummary played.table seed played.book text
        × EndsRunText (K.seen sink.old) (K.seen sink.new) played.book played.nodes.items result text }
{
    let written = write_summary(alloc, sink, &played.table, &played.book, seed);
    written_end(written, played)
}
