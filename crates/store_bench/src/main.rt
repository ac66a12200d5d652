//! Measures a store on a disk in memory: 100,000 votes that are saved one after another, and the attaching of the
//! disk that has them. Proved is that it is safe, and saves no change that may not follow what is kept. What was
//! done goes to standard output, and how much in a second of the processor to standard error.
#![tactic(auto)]

mod fault;
mod votes;

use crate::fault::BenchFault;
use crate::votes::{count_votes, save_votes};
use disk_model::MemDisk;
use paxos_base::TableSize;
use std::time::{CpuClock, Duration};

// How large the replica's table is.
const SIZE: TableSize = TableSize {
    jobs: 1,
    last_version: 0,
};

// How many votes are saved.
const VOTES: u32 = 100_000;

fn main(rt: HostRuntime) -> Result<(), BenchFault> {
    let alloc = rt.alloc();
    let mut disk = MemDisk::new(alloc, Vec::new(alloc));
    measure(&rt, &mut disk)
}

// Measures how votes are saved on a disk, and how they are found there.
fn measure(rt: &HostRuntime, disk: &mut MemDisk) -> Result<(), BenchFault> {
    let alloc = rt.alloc();
    let start = rt.thread_cpu_time()?;
    save_votes(alloc, disk, SIZE, VOTES)?;
    let took = rt.thread_cpu_time()?.saturating_sub(start);
    println!(rt; "{VOTES} votes saved")?;
    tell(rt, "saving", took)?;
    let start = rt.thread_cpu_time()?;
    let found = count_votes(alloc, disk, SIZE)?;
    let took = rt.thread_cpu_time()?.saturating_sub(start);
    println!(rt; "{found} votes found")?;
    tell(rt, "attaching", took)
}

// Tells how many votes it would be in a second.
fn tell(rt: &HostRuntime, name: &str, took: Duration) -> Result<(), BenchFault> {
    let micros = u64::try_from(took.as_micros()).unwrap_or(u64::MAX);
    let rate = u64::from(VOTES).saturating_mul(1_000_000) / micros.max(1);
    eprintln!(rt; "{name}: {rate} votes a second")?;
    Ok(())
}
