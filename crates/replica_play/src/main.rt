//! Plays letters between replicas by hand, as the commands of a scenario say, and writes what comes of each;
//! docs/SCENARIOS.md is its manual. Proved is that it asks for no step that a replica may not be asked for
//! (`running`); a step is the one of replica_core (`step`), and a copy is equal (`copy`). That each scenario comes
//! to its text is tested. `scenario` goes over the lines, `parse` reads commands, `cluster` has the replicas and
//! their letters, `host` a replica with its disk, `hour` the one table of jobs, `made_up` the letters that a
//! scenario makes up.
#![tactic(auto)]

mod cluster;
mod command;
mod fault;
mod host;
mod hour;
mod made_up;
mod noops;
mod packet_text;
mod parse;
mod row_text;
mod running;
mod scenario;
mod step_text;
mod text;

use crate::fault::Stop;
use crate::scenario::play_all;
use cron_io::{StdSink, StdSource, write_all};
use itoa::Buffer;
use std::io;
use std::process::ExitCode;

fn main(rt: HostRuntime) -> ExitCode {
    let mut source = StdSource::new(rt.stdin());
    let mut sink = StdSink::new(io::writer(&rt));
    match play_all(rt.alloc(), &mut source, &mut sink) {
        Ok(()) => ExitCode::SUCCESS,
        Err(stop) => {
            tell(&rt, stop);
            ExitCode::FAILURE
        }
    }
}

// Says on standard error where and why the program ends. A fault of that write is passed over: nothing is left to do.
fn tell(rt: &HostRuntime, stop: Stop) {
    let mut notes = StdSink::new(rt.stderr());
    let mut digits = Buffer::new();
    let line = digits.format(stop.line);
    for piece in [
        "replica_play: line ",
        line,
        ": ",
        stop.fault.message(),
        "\n",
    ] {
        let _ = write_all(&mut notes, piece.as_bytes());
    }
}
