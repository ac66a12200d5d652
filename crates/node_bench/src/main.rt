//! Measures a replica on its disk: a leader that is alone launches one job in each of 20,000 minutes, without a disk
//! and on a disk in memory. Proved is that it is safe, and asks for no step that a replica or a node may not be
//! asked for. What was done goes to standard output, and how many steps it is in a second of the processor to
//! standard error.
#![tactic(auto)]

mod fault;
mod leader;
mod seat;

use crate::fault::BenchFault;
use crate::leader::Leader;
use crate::seat::{Bare, OnDisk, Steps};
use due_set::JobTable;
use job_table::build_table;
use run_text::read_run;
use std::alloc::Global;
use std::time::{CpuClock, Duration};

// A run of one job, which is due in each of 20,000 minutes.
const RUN: &str = "cronrun 1\nreplicas 1\nwindow 2024-01-01T00:00Z 2024-01-14T21:20Z\ngrace 60\n\
                   crontab bench UTC 1\n* * * * * job\nscript\nend\n";

fn main(rt: HostRuntime) -> Result<(), BenchFault> {
    let table = table_of(rt.alloc())?;
    measure_both(&rt, &table)
}

// The table of the run.
fn table_of(alloc: Global) -> Result<JobTable, BenchFault> {
    let Ok(run) = read_run(alloc, RUN) else {
        return Err(BenchFault::NoTable);
    };
    match build_table(alloc, &run) {
        Ok(table) => Ok(table),
        Err(_) => Err(BenchFault::NoTable),
    }
}

// Measures a leader without a disk, and one on a disk.
fn measure_both(rt: &HostRuntime, table: &JobTable) -> Result<(), BenchFault> {
    let bare = Bare::start(rt.alloc(), table)?;
    measure(rt, "without a disk", table, bare)?;
    let on_disk = OnDisk::start(rt.alloc(), table)?;
    measure(rt, "on a disk", table, on_disk)
}

// Measures a leader.
fn measure<S: Steps>(
    rt: &HostRuntime,
    name: &str,
    table: &JobTable,
    seat: S,
) -> Result<(), BenchFault> {
    let mut leader = Leader::new(seat);
    measure_leader(rt, name, table, &mut leader)
}

// Measures the steps of a leader.
fn measure_leader<S: Steps>(
    rt: &HostRuntime,
    name: &str,
    table: &JobTable,
    leader: &mut Leader<S>,
) -> Result<(), BenchFault> {
    let start = rt.thread_cpu_time()?;
    leader.run(table)?;
    let took = rt.thread_cpu_time()?.saturating_sub(start);
    let done = leader.done();
    println!(rt; "{name}: {done}")?;
    let rate = rate(done.steps, took);
    eprintln!(rt; "{name}: {rate} steps a second")?;
    Ok(())
}

// How many in a second.
fn rate(count: u64, took: Duration) -> u64 {
    let micros = u64::try_from(took.as_micros()).unwrap_or(u64::MAX);
    count.saturating_mul(1_000_000) / micros.max(1)
}
