//! Ballots, sets of replicas, entries and votes.
ghost use Rattle.std.specs.Prelude.{◌≡◌, ◌<◌, ◌≤◌, IsTrue, None, Ok};
ghost use Rattle.std.specs.Ordering.{nat_cmp};
ghost use Rattle.paxos_base.specs.Members.{AllBelow, Meet};

use crate::builders::{Cast, list_of};
use paxos_base::{
    Ballot, Entry, EntryFault, Kind, Members, PACKET_BYTES, entry_of, get_entry, majorities_meet,
    majority, place_of, put_entry, vote_at,
};
use std::cmp::Ordering;
use std::test::*;

// A number, with the round and the replica of its ballot where it is one's.
struct Numbered {
    number: u64,
    parts: Option<(u64, u8)>,
}

const NUMBERS: &[Numbered] = &[
    Numbered {
        number: 0,
        parts: None,
    },
    Numbered {
        number: 7,
        parts: None,
    },
    Numbered {
        number: 8,
        parts: Some((1, 0)),
    },
    Numbered {
        number: 14,
        parts: Some((1, 6)),
    },
    Numbered {
        number: 15,
        parts: None,
    },
    Numbered {
        number: 16,
        parts: Some((2, 0)),
    },
    Numbered {
        number: 23,
        parts: None,
    },
    Numbered {
        number: 26,
        parts: Some((3, 2)),
    },
    Numbered {
        number: u64::MAX,
        parts: None,
    },
];

#[test]
fn ballots_have_numbers(rt: HostRuntime) {
    for row in NUMBERS {
        let number = row.number;
        let ballot = Ballot::from_number(number);
        let parts = ballot.map(|ballot| (ballot.round(), ballot.member()));
        assert_eq!(rt; parts, row.parts, "at {number}");
    }
}

// Ballots are ordered by their numbers.
fn order(one: Ballot, other: Ballot) -> Ordering
    ensures { result ≡ nat_cmp one other }
{
    one.cmp(&other)
}

#[test]
fn a_ballot_is_of_a_replica(rt: HostRuntime) {
    let ballot = Ballot::of(3, 2);
    assert_eq!(rt; ballot.number(), 26);
    assert!(rt; ballot.is_of(3));
    assert_eq!(rt; order(ballot, Ballot::of(2, 6)), Ordering::Greater);
}

// Calls the law where both sets have a majority.
fn meet(members: u8, one: Members, other: Members) -> bool
    requires some { 1 ≤ members }
    requires few { members ≤ 7 }
    requires one_of_these { AllBelow members one }
    requires other_of_these { AllBelow members other }
    ensures { IsTrue result → Meet one other }
{
    let quorum = majority(members);
    if one.count() >= quorum && other.count() >= quorum {
        majorities_meet(members, one, other);
        true
    } else {
        false
    }
}

// The set of two replicas.
fn pair(first: u8, second: u8) -> Members
    requires first { first < 3 }
    requires second { second < 3 }
    ensures { AllBelow 3 result }
{
    Members::none().with(first).with(second)
}

#[test]
fn majorities_of_three_meet(rt: HostRuntime) {
    assert!(rt; meet(3, pair(0, 1), pair(1, 2)));
    assert!(rt; !meet(3, pair(0, 0), pair(1, 2)));
    assert!(rt; pair(0, 1).has(1));
}

// An entry that was written is read again.
fn written_and_read(entry: Entry, packet: &mut [u8; PACKET_BYTES]) -> Result<Entry, EntryFault>
    ensures { result ≡ Ok entry }
{
    put_entry(entry, packet);
    get_entry(packet)
}

// An entry, and a packet that had 9 in each byte before the entry was put into it.
struct Spelled {
    entry: Entry,
    bytes: &'static [u8; PACKET_BYTES],
}

// A minute of 2024.
const MINUTE: i64 = 28_530_780;

const ENTRIES: &[Spelled] = &[
    Spelled {
        entry: Entry::Noop,
        bytes: &[
            9, 9, 0, 9, 0, 0, 0, 0, 9, 9, 9, 9, 9, 9, 9, 9, 9, 9, 9, 9, 9, 9, 9, 9, 9, 9, 9, 9, 9,
            9, 9, 9, 0, 0, 0, 0, 0, 0, 0, 0, 0, 0, 0, 0, 0, 0, 0, 0, 9, 9, 9, 9, 9, 9, 9, 9,
        ],
    },
    Spelled {
        entry: Entry::Start {
            job: 0x0102_0304,
            at: -1,
            now: MINUTE,
        },
        bytes: &[
            9, 9, 1, 9, 1, 2, 3, 4, 9, 9, 9, 9, 9, 9, 9, 9, 9, 9, 9, 9, 9, 9, 9, 9, 9, 9, 9, 9, 9,
            9, 9, 9, 255, 255, 255, 255, 255, 255, 255, 255, 0, 0, 0, 0, 0x01, 0xb3, 0x58, 0x5c, 9,
            9, 9, 9, 9, 9, 9, 9,
        ],
    },
    Spelled {
        entry: Entry::End {
            job: 7,
            at: MINUTE,
            kind: Kind::Launch,
        },
        bytes: &[
            9, 9, 2, 9, 0, 0, 0, 7, 9, 9, 9, 9, 9, 9, 9, 9, 9, 9, 9, 9, 9, 9, 9, 9, 9, 9, 9, 9, 9,
            9, 9, 9, 0, 0, 0, 0, 0x01, 0xb3, 0x58, 0x5c, 0, 0, 0, 0, 0, 0, 0, 0, 9, 9, 9, 9, 9, 9,
            9, 9,
        ],
    },
    Spelled {
        entry: Entry::End {
            job: 7,
            at: -1,
            kind: Kind::Void,
        },
        bytes: &[
            9, 9, 3, 9, 0, 0, 0, 7, 9, 9, 9, 9, 9, 9, 9, 9, 9, 9, 9, 9, 9, 9, 9, 9, 9, 9, 9, 9, 9,
            9, 9, 9, 255, 255, 255, 255, 255, 255, 255, 255, 0, 0, 0, 0, 0, 0, 0, 0, 9, 9, 9, 9, 9,
            9, 9, 9,
        ],
    },
    Spelled {
        entry: Entry::Table {
            version: 0x0102_0304,
            now: MINUTE,
        },
        bytes: &[
            9, 9, 4, 9, 1, 2, 3, 4, 9, 9, 9, 9, 9, 9, 9, 9, 9, 9, 9, 9, 9, 9, 9, 9, 9, 9, 9, 9, 9,
            9, 9, 9, 0, 0, 0, 0, 0, 0, 0, 0, 0, 0, 0, 0, 0x01, 0xb3, 0x58, 0x5c, 9, 9, 9, 9, 9, 9,
            9, 9,
        ],
    },
    Spelled {
        entry: Entry::Table {
            version: 0,
            now: -1,
        },
        bytes: &[
            9, 9, 4, 9, 0, 0, 0, 0, 9, 9, 9, 9, 9, 9, 9, 9, 9, 9, 9, 9, 9, 9, 9, 9, 9, 9, 9, 9, 9,
            9, 9, 9, 0, 0, 0, 0, 0, 0, 0, 0, 255, 255, 255, 255, 255, 255, 255, 255, 9, 9, 9, 9, 9,
            9, 9, 9,
        ],
    },
];

#[test]
fn entries_have_their_bytes(rt: HostRuntime) {
    for row in ENTRIES {
        let entry = row.entry;
        let mut packet = [9; PACKET_BYTES];
        assert_eq!(rt; written_and_read(entry, &mut packet), Ok(entry));
        assert_eq!(rt; packet.as_slice(), row.bytes.as_slice(), "{entry:?}");
    }
}

// The tag, the job and the two minutes of no entry, and why they are none.
#[derive(Debug)]
struct Strange {
    fields: (u8, u32, i64, i64),
    fault: EntryFault,
}

const STRANGE: &[Strange] = &[
    Strange {
        fields: (0, 0, 0, 1),
        fault: EntryFault::NotZero,
    },
    Strange {
        fields: (2, 1, MINUTE, -1),
        fault: EntryFault::NotZero,
    },
    Strange {
        fields: (3, 1, MINUTE, MINUTE),
        fault: EntryFault::NotZero,
    },
    Strange {
        fields: (4, 1, MINUTE, MINUTE),
        fault: EntryFault::NotZero,
    },
    Strange {
        fields: (4, 0, -1, 0),
        fault: EntryFault::NotZero,
    },
    Strange {
        fields: (5, 1, 0, MINUTE),
        fault: EntryFault::Tag,
    },
    Strange {
        fields: (255, 0, 0, 0),
        fault: EntryFault::Tag,
    },
];

#[test]
fn fields_of_no_entry_are_refused(rt: HostRuntime) {
    for row in STRANGE {
        let (tag, job, at, now) = row.fields;
        assert_eq!(rt; entry_of(tag, job, at, now), Err(row.fault), "{row:?}");
    }
}

// Votes out of order, of which the last is in place of the first.
const CASTS: &[Cast] = &[
    Cast {
        slot: 9,
        number: 8,
        job: 0,
    },
    Cast {
        slot: 4,
        number: 9,
        job: 1,
    },
    Cast {
        slot: 12,
        number: 16,
        job: 2,
    },
    Cast {
        slot: 9,
        number: 18,
        job: 3,
    },
];

#[test]
fn votes_stand_by_their_slots(rt: HostRuntime) -> Result<(), Fail> {
    let votes = list_of(rt.alloc(), CASTS)?;
    let ballot = vote_at(&votes.items, 9).map(|vote| vote.ballot.number());
    assert_eq!(rt; ballot, Some(18));
    assert_eq!(rt; place_of(&votes.items, 9), 1);
    assert_eq!(rt; votes.items.len(), 3);
    Ok(())
}
