//! The program. `main` hands the arguments, standard input, output and error, and a gate that holds nobody to
//! `cron_serve::run`, and ends with its status. It promises nothing of its own.
#![tactic(auto)]

use cron_io::{StdSink, StdSource};
use cron_serve::run;
use std::process::ExitCode;
use std::{env, io};
use world_free::OpenGate;

fn main(rt: HostRuntime) -> ExitCode {
    let mut source = StdSource::new(rt.stdin());
    let mut sink = StdSink::new(io::writer(&rt));
    let mut notes = StdSink::new(rt.stderr());
    let args = env::args(&rt);
    let status = run(
        &rt,
        rt.alloc(),
        args,
        &mut source,
        &mut sink,
        &mut notes,
        &OpenGate,
    );
    ExitCode::from(status)
}
