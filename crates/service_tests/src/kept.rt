//! What a run leaves beside its report: the disks of its replicas, and the letters that they sent.
use crate::play::{NO_FAULTS, play, play_words};
use paxos_base::{Ballot, Entry, Kind, TableSize, Vote};
use replica_store::Store;
use std::test::*;
use world_law::LetterRow;

// The size of a table of one job.
const ONE_JOB: TableSize = TableSize {
    jobs: 1,
    last_version: 0,
};

const ONE: &str = "\
cronrun 1
replicas 1
window 2024-03-31T00:00Z 2024-03-31T01:00Z
grace 0
crontab alice UTC 1
0,20,40 * * * * echo hi
script
end
";

// The due instants of its job.
const DUE: [i64; 3] = [28_530_720, 28_530_740, 28_530_760];

// Whether these are votes, from slot 0 on, for the start of the job's launch at each instant and for its end.
fn are_votes_of(votes: &[Vote], ballot: Ballot, due: &[i64]) -> bool {
    let mut votes = votes.iter();
    let mut slot = 0;
    for instant in due {
        let (job, at, now, kind) = (0, *instant, *instant, Kind::Launch);
        for entry in [Entry::Start { job, at, now }, Entry::End { job, at, kind }] {
            if votes.next()
                != Some(&Vote {
                    slot,
                    ballot,
                    entry,
                })
            {
                return false;
            }
            slot = slot.wrapping_add(1);
        }
    }
    votes.next().is_none()
}

#[test]
fn a_disk_keeps_what_its_replica_voted_for(rt: HostRuntime) -> Result<(), Fail> {
    let left = play(&rt, rt.alloc(), ONE.as_bytes(), &NO_FAULTS)?;
    let end = left.end;
    let mut nodes = end.nodes;
    let Some(node) = nodes.pop() else {
        return Err(Fail::from("no node"));
    };
    let mut disk = node.into_disk();
    let Ok((_, kept)) = Store::attach(rt.alloc(), &mut disk, ONE_JOB) else {
        return Err(Fail::from("no store"));
    };
    let Some(first) = Ballot::from_number(8) else {
        return Err(Fail::from("no ballot"));
    };
    assert_eq!(rt; kept.tried, 1);
    assert_eq!(rt; kept.promised, Some(first));
    assert_eq!(rt; kept.base, 0);
    assert!(rt; are_votes_of(kept.votes.items.as_slice(), first, &DUE));
    assert!(rt; nodes.is_empty());
    Ok(())
}

// Replica 2 is stopped while the others launch 120 times. The walk starts it again.
const AWAY: &str = "\
cronrun 1
replicas 3
window 2024-03-31T00:00Z 2024-03-31T02:00Z
grace 120
crontab alice UTC 1
* * * * * true
script
stop 2
campaign 0
round 2024-03-31T01:59Z 600
end
";

// Whether a packet of the letter says that it is a launch table, by its first byte.
fn has_snapshot(letter: &LetterRow) -> bool {
    let (packets, _) = letter.bytes.bytes().as_chunks::<56>();
    packets.iter().any(|packet| packet[0] == 9)
}

// Whether replica 2 was sent a launch table.
fn sends_snapshot(letters: &[LetterRow]) -> bool {
    letters
        .iter()
        .any(|letter| letter.to == 2 && has_snapshot(letter))
}

#[test]
fn a_replica_that_was_away_is_sent_a_snapshot(rt: HostRuntime) -> Result<(), Fail> {
    let left = play(&rt, rt.alloc(), AWAY.as_bytes(), &NO_FAULTS)?;
    assert_eq!(rt; left.end.status, 0);
    assert!(rt; sends_snapshot(left.end.book.letters()));
    let shared = play_words(&rt, rt.alloc(), &["--lanes=3"], AWAY.as_bytes(), &NO_FAULTS)?;
    assert!(rt; sends_snapshot(shared.end.book.letters()));
    assert_eq!(rt; shared.report.bytes(), left.report.bytes());
    Ok(())
}
