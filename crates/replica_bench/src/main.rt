//! Measures a replica's step: three replicas that hear each other's letters at once, over 10,000 launches of one job
//! and of 1,000 jobs. Proved is that it is safe, and asks for no step that a replica may not be asked for. What its
//! replicas did goes to standard output, which the gate compares; how much of it they did in a second of the
//! processor goes to standard error.
#![tactic(auto)]

mod fault;
mod group;
mod runs;
mod seat;

use crate::fault::BenchFault;
use crate::group::Group;
use crate::runs::{many_jobs, one_job, table_of};
use std::time::{CpuClock, Duration};

fn main(rt: HostRuntime) -> Result<(), BenchFault> {
    let alloc = rt.alloc();
    measure(&rt, "1 job", one_job(alloc)?.as_str())?;
    measure(&rt, "1,000 jobs", many_jobs(alloc)?.as_str())
}

// Measures the replicas of a run.
fn measure(rt: &HostRuntime, name: &str, run: &str) -> Result<(), BenchFault> {
    let table = table_of(rt.alloc(), run)?;
    let mut group = Group::start(rt.alloc(), &table)?;
    measure_group(rt, name, &mut group)
}

// Measures these replicas.
fn measure_group(rt: &HostRuntime, name: &str, group: &mut Group<'_>) -> Result<(), BenchFault> {
    let start = rt.thread_cpu_time()?;
    group.run()?;
    let took = rt.thread_cpu_time()?.saturating_sub(start);
    let done = group.done();
    println!(rt; "{name}: {done}")?;
    let rate = rate(done.steps, took);
    eprintln!(rt; "{name}: {rate} steps a second")?;
    measure_choice(rt, name, group)
}

// Measures how the leader's launch table chooses when no job is due any more.
fn measure_choice(rt: &HostRuntime, name: &str, group: &Group<'_>) -> Result<(), BenchFault> {
    let start = rt.thread_cpu_time()?;
    let rests = group.rests();
    let took = rt.thread_cpu_time()?.saturating_sub(start);
    println!(rt; "{name}: at rest in {rests} minutes")?;
    let rate = rate(rests, took);
    eprintln!(rt; "{name}: {rate} choices a second")?;
    Ok(())
}

// How many in a second.
fn rate(count: u64, took: Duration) -> u64 {
    let micros = u64::try_from(took.as_micros()).unwrap_or(u64::MAX);
    count.saturating_mul(1_000_000) / micros.max(1)
}
