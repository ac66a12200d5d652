use crate::fault::BenchFault;
use disk_model::MemDisk;
use paxos_base::{Ballot, Delta, Entry, TableSize, Vote};
use replica_store::Store;
use std::alloc::Global;

/// Attaches a disk, and saves a vote at each of so many slots from the base on, in the ballot that is promised.
pub fn save_votes(
    alloc: Global,
    disk: &mut MemDisk,
    size: TableSize,
    votes: u32,
) -> Result<(), BenchFault> {
    let (mut store, kept) = Store::attach(alloc, disk, size)?;
    let base = kept.base;
    let ballot = kept.promised.unwrap_or(Ballot::of(1, 0));
    for slot in base..base.saturating_add(u64::from(votes)) {
        let vote = Vote {
            slot,
            ballot,
            entry: Entry::Noop,
        };
        store.save(disk, &Delta::Voted(vote))?;
    }
    Ok(())
}

/// Attaches a disk, and answers how many votes it has.
pub fn count_votes(
    alloc: Global,
    disk: &mut MemDisk,
    size: TableSize,
) -> Result<usize, BenchFault> {
    let (_, kept) = Store::attach(alloc, disk, size)?;
    Ok(kept.votes.items.len())
}
