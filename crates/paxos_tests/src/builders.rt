//! Ballots, entries and votes by their numbers.
use paxos_base::{Ballot, Entry, Vote, VoteList};
use std::alloc::Global;
use std::test::Fail;

// A vote by its slot, the number of its ballot, and the job of its entry.
#[derive(Clone, Copy, Debug)]
pub struct Cast {
    pub slot: u64,
    pub number: u64,
    pub job: u32,
}

pub fn ballot_of(number: u64) -> Result<Ballot, Fail> {
    Ok(Ballot::from_number(number).ok_or("no ballot")?)
}

// A start, told from others by its job.
pub fn start_of(job: u32) -> Entry {
    Entry::Start { job, at: 5, now: 6 }
}

pub fn vote_of(cast: Cast) -> Result<Vote, Fail> {
    Ok(Vote {
        slot: cast.slot,
        ballot: ballot_of(cast.number)?,
        entry: start_of(cast.job),
    })
}

pub fn votes_of(alloc: Global, casts: &[Cast]) -> Result<Vec<Vote>, Fail> {
    let mut votes = Vec::new(alloc);
    for cast in casts {
        votes.push(vote_of(*cast)?)?;
    }
    Ok(votes)
}

pub fn no_votes(alloc: Global) -> VoteList {
    VoteList {
        items: Vec::new(alloc),
    }
}

// The same as a list of which the slots rise.
pub fn list_of(alloc: Global, casts: &[Cast]) -> Result<VoteList, Fail> {
    let mut votes = no_votes(alloc);
    for vote in votes_of(alloc, casts)? {
        votes.put(&vote)?;
    }
    Ok(votes)
}
