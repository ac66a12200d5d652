//! Plays a store and a node on a disk in memory by hand, as commands say, and writes what comes of each;
//! docs/WIRE.md is its manual. Proved is that it is safe, and asks for no call that a store or a node may not be
//! asked for: a store that is attached is at rest on its disk and keeps what it says (`IsStoreAttached`), and a change is
//! saved only if it may follow what is kept. `play` goes over the lines, `parse` and `change` read commands, `seat`
//! says who has the disk, `bare` has a disk that nobody has, `attached` a store, `running` a node.
#![tactic(auto)]

mod attached;
mod bare;
mod change;
mod command;
mod fault;
mod hour;
mod kept_text;
mod parse;
mod play;
mod running;
mod seat;
mod step_text;
mod text;

use crate::play::play_all;
use cron_io::{StdSink, StdSource};
use std::io;
use std::process::ExitCode;

fn main(rt: HostRuntime) -> ExitCode {
    let mut source = StdSource::new(rt.stdin());
    let mut sink = StdSink::new(io::writer(&rt));
    match play_all(rt.alloc(), &mut source, &mut sink) {
        Ok(()) => ExitCode::SUCCESS,
        Err(stop) => {
            let (line, fault) = (stop.line, stop.fault);
            // A fault of this write is passed over: nothing is left to do.
            let _ = eprintln!(rt; "store_play: line {line}: {fault}");
            ExitCode::FAILURE
        }
    }
}
