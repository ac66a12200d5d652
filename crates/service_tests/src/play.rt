//! A run over memory.
use crate::program::args_of;
use cron_io::{MemSink, MemSource};
use cron_serve::{RunEnd, cron_cluster};
use std::alloc::{AllocError, Global};
use std::sync::Wait;
use std::test::Fail;
use std::thread::Threads;
use world_free::OpenGate;

/// The numbers of the reads, of the writes of the report, and of those of the note that fail.
#[derive(Clone, Copy)]
pub struct Faults {
    pub reads: &'static [u64],
    pub writes: &'static [u64],
    pub notes: &'static [u64],
}

pub const NO_FAULTS: Faults = Faults {
    reads: &[],
    writes: &[],
    notes: &[],
};

/// What a run leaves: its end, its report and its note.
#[derive(Drop)]
pub struct Left {
    pub end: RunEnd,
    pub report: MemSink,
    pub notes: MemSink,
}

/// What a run of these bytes leaves.
pub fn play<R: Threads + Wait + Sync>(
    rt: &R,
    alloc: Global,
    input: &[u8],
    faults: &Faults,
) -> Result<Left, Fail> {
    play_words(rt, alloc, &[], input, faults)
}

/// What the program leaves of these bytes, with these words behind its name.
pub fn play_words<R: Threads + Wait + Sync>(
    rt: &R,
    alloc: Global,
    words: &[&str],
    input: &[u8],
    faults: &Faults,
) -> Result<Left, Fail> {
    let mut args = args_of(alloc, words)?;
    let _name = args.next();
    let mut source = MemSource::new(input.to_vec(alloc)?, faults.reads.to_vec(alloc)?);
    let mut report = MemSink::new(alloc, 1 << 20, faults.writes.to_vec(alloc)?)?;
    let mut notes = MemSink::new(alloc, 200, faults.notes.to_vec(alloc)?)?;
    let end = cron_cluster(
        rt,
        alloc,
        args,
        &mut source,
        &mut report,
        &mut notes,
        &OpenGate,
    );
    Ok(Left { end, report, notes })
}

/// The status of a run, and its report and its note behind it.
pub fn show(alloc: Global, left: &Left) -> Result<String, Fail> {
    let report = std::str::from_utf8(left.report.bytes())?;
    let note = std::str::from_utf8(left.notes.bytes())?;
    Ok(format!(in alloc; "{}\n{report}{note}", left.end.status)?)
}
