//! The program over memory, by its arguments.
use cron_io::{MemSink, MemSource};
use cron_serve::run;
use std::alloc::Global;
use std::env::Args;
use std::io;
use std::sync::Wait;
use std::test::Fail;
use std::thread::Threads;
use world_free::{OpenGate, TurnGate};

/// What the program leaves.
#[derive(Drop)]
pub struct Left {
    pub status: u8,
    pub report: MemSink,
    pub notes: MemSink,
}

/// What the program leaves of an input, with these arguments, where these writes of the report fail.
pub fn play<R: Threads + Wait + Sync>(
    rt: &R,
    alloc: Global,
    args: io::Result<Args>,
    input: &str,
    writes: &[u64],
) -> Result<Left, Fail> {
    play_past(rt, alloc, args, input, writes, &OpenGate)
}

/// What it leaves where the threads of free turns pass this gate.
pub fn play_past<R: Threads + Wait + Sync, G: TurnGate + Sync>(
    rt: &R,
    alloc: Global,
    args: io::Result<Args>,
    input: &str,
    writes: &[u64],
    gate: &G,
) -> Result<Left, Fail> {
    let bytes = input.as_bytes().to_vec(alloc)?;
    let mut source = MemSource::new(bytes, Vec::new(alloc));
    let mut report = MemSink::new(alloc, 1 << 11, writes.to_vec(alloc)?)?;
    let mut notes = MemSink::new(alloc, 200, Vec::new(alloc))?;
    let status = run(rt, alloc, args, &mut source, &mut report, &mut notes, gate);
    Ok(Left {
        status,
        report,
        notes,
    })
}

/// The name of the program, and words behind it.
pub fn args_of(alloc: Global, words: &[&str]) -> Result<Args, Fail> {
    let mut args = Vec::new(alloc);
    args.push(String::from_str(alloc, "cron_cluster")?)?;
    for word in words {
        args.push(String::from_str(alloc, word)?)?;
    }
    Ok(args.into_iter())
}
