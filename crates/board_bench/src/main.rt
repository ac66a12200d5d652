//! Measures a status board: three replicas take free turns, the first shows on a board what it has learned, and beside
//! them no reader, one, four and eight ask for one view after another. Proved is that it is safe: the part begins with
//! a world of replicas and a writer that may show it, and views are asked for in no other way than a reader may. What
//! a part shows and a view has is what `run_free_shown` and `view` promise. How many turns there were goes to standard
//! output; how many views and turns came in a second of the clock, which nothing is claimed of, to standard error.
#![tactic(auto)]

mod fault;
mod looks;
mod part;

use crate::fault::BenchFault;
use crate::looks::Looks;
use crate::part::{first_world, run_shown};
use due_set::JobTable;
use job_table::build_table;
use run_text::read_run;
use std::alloc::Global;
use std::env;
use std::sync::Wait;
use std::thread::Threads;
use std::time::{Clock, Duration, Instant};

// How many turns each replica takes where no word says it.
const TURNS: u32 = 10_000;

// A run of one job, which is due in each of 20,000 minutes.
const RUN: &str =
    "cronrun 1\nreplicas 3\nwindow 2024-01-01T00:00Z 2024-01-14T21:20Z\ngrace 525600\n\
                   crontab bench UTC 1\n* * * * * job\nscript\nend\n";

fn main(rt: HostRuntime) -> Result<(), BenchFault> {
    let alloc = rt.alloc();
    let mut words = env::args(&rt)?.skip(1);
    let turns = number_of(words.next(), TURNS)?;
    let pause = number_of(words.next(), 0)?;
    let Ok(run) = read_run(alloc, RUN) else {
        return Err(BenchFault::NoTable);
    };
    let Ok(table) = build_table(alloc, &run) else {
        return Err(BenchFault::NoTable);
    };
    for readers in [0, 1, 4, 8] {
        measure(&rt, alloc, &table, turns, pause, readers)?;
    }
    Ok(())
}

// The number that a word of the program says, or the other one where there is no word.
fn number_of(word: Option<String>, other: u32) -> Result<u32, BenchFault> {
    let Some(word) = word else {
        return Ok(other);
    };
    match word.parse::<u32>() {
        Ok(number) => Ok(number),
        Err(_) => Err(BenchFault::NoNumber),
    }
}

// Plays a part beside so many readers, with so many microseconds between two views of one, and tells what was measured.
fn measure<R: Threads + Wait + Clock + Print + Eprint + Sync>(
    rt: &R,
    alloc: Global,
    table: &JobTable,
    turns: u32,
    pause: u32,
    readers: usize,
) -> Result<(), BenchFault> {
    let looks = Looks::new(Duration::from_micros(u64::from(pause)));
    let world = first_world(alloc, table)?;
    let start = Instant::now(rt)?;
    let shown = run_shown(rt, alloc, table, world, turns, readers, &looks)?;
    let took = start.elapsed(rt)?;
    let turns = shown.parts.book.turns().len() as u64;
    println!(rt; "{readers} readers: {turns} turns")?;
    let (views, later) = looks.counts();
    let (views, later, turns) = (rate(views, took), rate(later, took), rate(turns, took));
    let prefix = shown.prefix;
    eprintln!(rt;
        "{readers} readers: {views} views a second, {later} of them later ones, and {turns} turns; prefix {prefix}"
    )?;
    Ok(())
}

// How many in a second.
fn rate(count: u64, took: Duration) -> u64 {
    let micros = u64::try_from(took.as_micros()).unwrap_or(u64::MAX);
    count.saturating_mul(1_000_000) / micros.max(1)
}
