//! A file of two hundred thousand records: memory is wanted only where there is none.
use crate::change::Change::Base;
use crate::change::{ballot_of, rows_of};
use crate::kept::{disk_with, find, save};
use disk_model::MemDisk;
use paxos_base::{Entry, Vote};
use std::alloc::{AllocError, Global};
use std::test::Fail;
use store_format::{Record, record_bytes};

const VOTES: u32 = 200_000;

// The gates and records of a vote at each slot up to a number.
fn votes(alloc: Global, count: u32) -> Result<Vec<u8>, AllocError> {
    let mut bytes = Vec::new(alloc);
    for slot in 0..count {
        let vote = Vote {
            slot: u64::from(slot),
            ballot: ballot_of(8),
            entry: Entry::Noop,
        };
        bytes.push(1)?;
        bytes.extend_from_slice(&record_bytes(&Record::Voted(vote)))?;
    }
    bytes.push(0)?;
    Ok(bytes)
}

fn large_disk(alloc: Global) -> Result<MemDisk, Fail> {
    let area = votes(alloc, VOTES)?;
    disk_with(alloc, &[], &area, &[])
}

// It is attached, a base is saved, which copies half of the votes into the other area, and that is attached.
#[test]
fn a_large_file_is_attached_and_saved_anew(rt: HostRuntime) -> Result<(), Fail> {
    let mut disk = large_disk(rt.alloc())?;
    assert_eq!(rt; find(rt.alloc(), &mut disk)?.votes.items.len(), 200_000);
    save(rt.alloc(), &mut disk, &[Base(100_000, 7)])?;
    let found = find(rt.alloc(), &mut disk)?;
    assert_eq!(rt; found.votes.items.len(), 100_000);
    assert_eq!(rt; found.rows, rows_of(rt.alloc(), 7)?);
    Ok(())
}
