//! The whole program, over what the system hands to it.
ghost use Rattle.std.specs.Prelude.{◌≡◌, ◌≢◌, ◌↔◌, IfOk, IfErr, false};
ghost use Rattle.cron_io.specs.Views.{SourceView, SinkView};
ghost use Rattle.std.specs.IoError.{error_kind};
ghost use Rattle.std.specs.Vec.Iter.{into_iter_items};
ghost use Rattle.cron_serve.specs.Program.{EndsProgram, StopsProgram};
ghost use Rattle.cron_serve.specs.Promise.{ReportsInput};
ghost use Rattle.cron_serve.specs.Stop.{StopsAtOnce, status_of};
ghost use Rattle.program_options.specs.Words.{Asks, HasNoOptions, behind_name, texts_of};
ghost use Rattle.program_options.specs.declared.words.Asked.{Asked};
ghost use Rattle.program_options.specs.declared.words.Output.{Output};
ghost use Rattle.program_options.specs.declared.words.Request.{Request};

use crate::note::write_note;
use crate::run_end::RunEnd;
use crate::serve::cron_cluster;
use crate::stop::Stop;
use cron_io::{Sink, Source};
use std::alloc::Global;
use std::env::Args;
use std::io::{self, ErrorKind};
use std::sync::Wait;
use std::thread::Threads;
use world_free::TurnGate;

/// Runs the program, and tells its exit status. The first of the arguments is its name, and the others are its words. An argument
/// that is not UTF-8 is a faulty word, and any other fault of the arguments is want of memory. The threads of free turns pass the gate:
/// it may wait.
pub fn run<S: Source, K: Sink, E: Sink, R: Threads + Wait + Sync, G: TurnGate + Sync>(
    rt: &R,
    alloc: Global,
    args: io::Result<Args>,
    source: &mut S,
    sink: &mut K,
    notes: &mut E,
    gate: &G,
) -> u8
    // **If the words ask for the report alone, status 0 says**: the input was read, it is a run, and the text gained is the report of its launches.
    ensures report { IfOk args (λ args. (asked : Asked) → Asks (behind_name (texts_of (into_iter_items args))) asked
        → asked.request ≡ Request.Text (Output.Report false false) → result ≡ 0
        → ReportsInput (S.seen source.old) (S.seen source.new) (K.seen sink.old) (K.seen sink.new)) }

    // The status, what the words behind the name ask for, and the note are those of one end.
    ensures ends { IfOk args (λ args. (asked : Asked) → Asks (behind_name (texts_of (into_iter_items args))) asked
        → EndsProgram asked.request (S.seen source.old) (S.seen source.new) (K.seen sink.old) (K.seen sink.new)
        (E.seen notes.old) (E.seen notes.new) result) }

    // Status 1: the words behind the name ask for nothing, or one of them is no text. Then nothing is read or written.
    ensures words { IfOk args (λ args. (result ≡ 1) ↔ HasNoOptions (behind_name (texts_of (into_iter_items args)))) }
    ensures no_text { IfErr args (λ error. error_kind error ≡ ErrorKind.InvalidData → result ≡ 1) }
    ensures usage { result ≡ 1 → StopsProgram (S.seen source.old) (S.seen source.new) (K.seen sink.old) (K.seen sink.new)
        (E.seen notes.old) (E.seen notes.new) result }

    // Where the arguments can't be had, it stops with status 1 or 5, and nothing is read or written either.
    ensures no_memory { IfErr args (λ error. error_kind error ≢ ErrorKind.InvalidData → result ≡ 5) }
    ensures stops { IfErr args (λ error. StopsProgram (S.seen source.old) (S.seen source.new) (K.seen sink.old) (K.seen sink.new)
        (E.seen notes.old) (E.seen notes.new) result) }
{
    match args {
        Ok(mut words) => {
            let _name = words.next();
            cron_cluster(rt, alloc, words, source, sink, notes, gate).status
        }
        Err(error) => stop_at_once(alloc, stop_of(&error), notes),
    }
}

// Why arguments that can't be had stop the program.
fn stop_of(error: &io::Error) -> Stop
    ensures no_text { error_kind error.now ≡ ErrorKind.InvalidData → result ≡ Stop.Usage }
    ensures no_memory { error_kind error.now ≢ ErrorKind.InvalidData → result ≡ Stop.OutOfMemory }
    ensures at_once { StopsAtOnce result }
{
    match error.kind() {
        ErrorKind::InvalidData => Stop::Usage,
        _ => Stop::OutOfMemory,
    }
}

// Stops the program before anything is read, with its note.
fn stop_at_once<E: Sink>(alloc: Global, stop: Stop, notes: &mut E) -> u8
    requires { StopsAtOnce stop }
    ensures stops { (source : SourceView) (sink : SinkView) → StopsProgram source source sink sink (E.seen notes.old) (E.seen notes.new) result }
    ensures status { result ≡ status_of stop }
{
    let end = RunEnd::stopped(alloc, stop);
    write_note(notes, &end);
    end.status
}
