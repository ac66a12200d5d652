ghost use Rattle.std.specs.Prelude.{◌≡◌, ◌⊎◌, ◌↔◌, ◌≢◌, ◌<◌, ℕ, None, IfOk, IfErr, IsErrOf, IfSome, IfNone};
ghost use Rattle.std.specs.Vec.Iter.{into_iter_items};
ghost use Rattle.cron_io.specs.Reading.{HasReadOn, StaysReliable};
ghost use Rattle.cron_io.specs.Views.{SourceView};
ghost use Rattle.cron_serve.specs.Complete.{Completes};
ghost use Rattle.cron_serve.specs.Ends.{Ends, EndsUnread};
ghost use Rattle.cron_serve.specs.Input.{IsOfInput};
ghost use Rattle.cron_serve.specs.Serve.{note_text, IsNoted};
ghost use Rattle.cron_serve.specs.Served.{CompletesFor, EndsFor, EndsServing};
ghost use Rattle.cron_serve.specs.Stop.{StopsFor};
ghost use Rattle.program_options.specs.Words.{Asks, HasNoOptions, texts_of};
ghost use Rattle.program_options.specs.declared.words.Asked.{Asked};
ghost use Rattle.program_options.specs.declared.words.Output.{Output as Written};
ghost use Rattle.program_options.specs.declared.words.Request.{Request as Wanted};

use crate::answer::write_output;
use crate::auditing::serve_audit;
use crate::made::write_made;
use crate::note::write_note;
use crate::run_end::RunEnd;
use crate::stop::Stop;
use cron_io::{Sink, Source, read_all};
use program_options::{Asked, Output, Request, read_words};
use std::alloc::Global;
use std::env::Args;
use std::sync::Wait;
use std::thread::Threads;
use world_free::TurnGate;

/// The most bytes of an input.
const MAX_INPUT: u32 = 1_048_576;

// Reads the input, and writes a text of it.
fn answer<S: Source, K: Sink, R: Threads + Wait + Sync, G: TurnGate + Sync>(
    rt: &R,
    alloc: Global,
    output: Output,
    lanes: u8,
    source: &mut S,
    sink: &mut K,
    gate: &G,
) -> Result<RunEnd, Stop>
    requires lanes { 0 < lanes }
    requires input { IsOfInput output }
    ensures end { IfOk result (EndsServing (Wanted.Text output) (S.seen source.old) (S.seen source.new)
        (S.reliable source.old) (S.reliable source.new) (K.seen sink.old) (K.seen sink.new)) }
    ensures no_read_fault { IfOk result (λ end. end.status ≢ 3) }
    ensures stop { IfErr result (StopsFor (Wanted.Text output) (S.seen source.old) (S.seen source.new)) }
    ensures unwritten { IfErr result (λ _. K.seen sink.new ≡ K.seen sink.old) }
    ensures read_on { HasReadOn (S.seen source.old) (S.seen source.new) }
    ensures reliable { S.reliable source.old → IsErrOf result Stop.ReadFault → ⊥ }
    ensures lasting { S.reliable source.old →
        StaysReliable (S.seen source.old) (S.seen source.new) (S.reliable source.new) }
{
    let bytes = read_all(alloc, source, MAX_INPUT)?;
    let end = write_output(rt, alloc, output, lanes, &bytes, sink, gate)?;
    Ok(end)
}

// Reads the input, and writes a text of it, or stops.
fn serve_input<S: Source, K: Sink, R: Threads + Wait + Sync, G: TurnGate + Sync>(
    rt: &R,
    alloc: Global,
    output: Output,
    lanes: u8,
    source: &mut S,
    sink: &mut K,
    gate: &G,
) -> RunEnd
    requires lanes { 0 < lanes }
    requires input { IsOfInput output }
    ensures { EndsServing (Wanted.Text output) (S.seen source.old) (S.seen source.new) (S.reliable source.old) (S.reliable source.new)
        (K.seen sink.old) (K.seen sink.new) result }
{
    match answer(rt, alloc, output, lanes, source, sink, gate) {
        Ok(end) => end,
        Err(stop) => RunEnd::stopped(alloc, stop),
    }
}

// Makes the run of a seed, and writes its summary, or stops. No source is read, whichever there is.
fn serve_made<K: Sink, R: Threads + Wait + Sync, G: TurnGate + Sync>(
    rt: &R,
    alloc: Global,
    lanes: u8,
    seed: u32,
    sink: &mut K,
    gate: &G,
) -> RunEnd
    requires lanes { 0 < lanes }
    ensures ends { (source : SourceView) → Ends (Written.Summary seed) source source (K.seen sink.old) (K.seen sink.new) result }
    ensures complete { (source : SourceView) → Completes (Written.Summary seed) source source (K.seen sink.old) (K.seen sink.new) result }
    ensures statuses { (result.status ≡ 0) ⊎ (result.status ≡ 4) ⊎ (result.status ≡ 5) }
{
    match write_made(rt, alloc, lanes, seed, sink, gate) {
        Ok(end) => end,
        Err(_) => RunEnd::stopped(alloc, Stop::OutOfMemory),
    }
}

// The seed, where the run that it makes is asked for.
fn seed_of(output: Output) -> Option<u32>
    ensures some { IfSome result (λ seed. output ≡ Written.Summary seed) }
    ensures none { IfNone result (IsOfInput output) }
{
    match output {
        Output::Summary(seed) => Some(seed),
        Output::Report { .. } | Output::DueList | Output::Check => None,
    }
}

// Writes a text of the input or of a run that is made.
fn serve_text<S: Source, K: Sink, R: Threads + Wait + Sync, G: TurnGate + Sync>(
    rt: &R,
    alloc: Global,
    output: Output,
    lanes: u8,
    source: &mut S,
    sink: &mut K,
    gate: &G,
) -> RunEnd
    requires lanes { 0 < lanes }
    ensures end { EndsServing (Wanted.Text output) (S.seen source.old) (S.seen source.new) (S.reliable source.old) (S.reliable source.new)
        (K.seen sink.old) (K.seen sink.new) result }
    ensures made { (seed : ℕ) → output ≡ Written.Summary seed → S.seen source.new ≡ S.seen source.old }
{
    match seed_of(output) {
        Some(seed) => serve_made(rt, alloc, lanes, seed, sink, gate),
        None => serve_input(rt, alloc, output, lanes, source, sink, gate),
    }
}

// Does what is asked for.
fn serve<S: Source, K: Sink, R: Threads + Wait + Sync, G: TurnGate + Sync>(
    rt: &R,
    alloc: Global,
    asked: Asked,
    source: &mut S,
    sink: &mut K,
    gate: &G,
) -> RunEnd
    requires lanes { 0 < asked.lanes }
    ensures end { EndsServing asked.request (S.seen source.old) (S.seen source.new) (S.reliable source.old) (S.reliable source.new)
        (K.seen sink.old) (K.seen sink.new) result }
    ensures made { (seed : ℕ) → asked.request ≡ Wanted.Text (Written.Summary seed) → S.seen source.new ≡ S.seen source.old }
{
    match asked.request {
        Request::Text(output) => serve_text(rt, alloc, output, asked.lanes, source, sink, gate),
        Request::Audit => serve_audit(alloc, source, sink),
    }
}

/// Reads a run file from the source, and writes to the sink what the words ask for. Without a word that is the report
/// of the run's launches: a world of the run's replicas, each on an empty disk in memory, plays the commands of its
/// script, and walks to the window's last minute; `--lanes` says in how many lanes, and the threads of each command `free`
/// pass the gate. It may wait. `--watch` asks for what is seen, after each command `free`, of a board of launches, and
/// `--journal` for the journal of the run's turns; they follow the report in this order. `--list` asks for the due
/// instants of the run's jobs, and `--check` for the lines of its tables that break a rule: no launch is made then. `--make`
/// asks for the summary of the run that a seed makes: nothing is read then. `--audit` asks whether what the input has behind
/// a run is the report and the journal of that run. A note of what went wrong goes to `notes`.
pub fn cron_cluster<S: Source, K: Sink, E: Sink, R: Threads + Wait + Sync, G: TurnGate + Sync>(
    rt: &R,
    alloc: Global,
    words: Args,
    source: &mut S,
    sink: &mut K,
    notes: &mut E,
    gate: &G,
) -> RunEnd
    // What each status says of the input, of what the words ask for, of the book and of the nodes.
    ensures ends { (asked : Asked) → Asks (texts_of (into_iter_items words)) asked
        → EndsFor asked.request (S.seen source.old) (S.seen source.new) (K.seen sink.old) (K.seen sink.new) result }

    // Status 1: the words are at fault. Then nothing is read or written.
    ensures usage { (result.status ≡ 1) ↔ HasNoOptions (texts_of (into_iter_items words)) }
    ensures unread { result.status ≡ 1 → EndsUnread (S.seen source.old) (S.seen source.new) (K.seen sink.old) (K.seen sink.new) result }

    // Where the run that a seed makes is asked for, nothing is read.
    ensures made { (asked : Asked) (seed : ℕ) → Asks (texts_of (into_iter_items words)) asked → asked.request ≡ Wanted.Text (Written.Summary seed)
        → S.seen source.new ≡ S.seen source.old }

    // An input that suits what is asked for ends with its text, or with the line of its audit, and any other is refused, where no call
    // failed and memory lasts.
    ensures complete { (asked : Asked) → Asks (texts_of (into_iter_items words)) asked
        → CompletesFor asked.request (S.seen source.old) (S.seen source.new) (K.seen sink.old) (K.seen sink.new) result }

    // Over a source that is reliable there is no status 3, and it stays reliable.
    ensures no_read_fault { S.reliable source.old → result.status ≢ 3 }
    ensures lasting { S.reliable source.old →
        StaysReliable (S.seen source.old) (S.seen source.new) (S.reliable source.new) }

    ensures note { IsNoted (E.seen notes.old) (E.seen notes.new) (note_text result.status result.refusal) }
{
    let end = match read_words(words) {
        Some(asked) => serve(rt, alloc, asked, source, sink, gate),
        None => RunEnd::stopped(alloc, Stop::Usage),
    };
    write_note(notes, &end);
    end
}
