//! Best votes: "the value of the highest-numbered proposal among the responses".
use crate::builders::{Cast, list_of, vote_of, votes_of};
use paxos_base::Vote;
use std::alloc::Global;
use std::test::*;
use term_core::best_of;

// A candidate's own votes, those that it hears of, and the best of them.
struct Row {
    own: &'static [Cast],
    heard: &'static [Cast],
    best: &'static [Cast],
}

const ROWS: &[Row] = &[
    Row {
        own: &[],
        heard: &[],
        best: &[],
    },
    Row {
        own: &[],
        heard: &[Cast {
            slot: 3,
            number: 8,
            job: 100,
        }],
        best: &[Cast {
            slot: 3,
            number: 8,
            job: 100,
        }],
    },
    Row {
        own: &[Cast {
            slot: 3,
            number: 8,
            job: 0,
        }],
        heard: &[],
        best: &[Cast {
            slot: 3,
            number: 8,
            job: 0,
        }],
    },
    Row {
        own: &[Cast {
            slot: 3,
            number: 8,
            job: 0,
        }],
        heard: &[Cast {
            slot: 3,
            number: 9,
            job: 100,
        }],
        best: &[Cast {
            slot: 3,
            number: 9,
            job: 100,
        }],
    },
    Row {
        own: &[Cast {
            slot: 3,
            number: 9,
            job: 0,
        }],
        heard: &[Cast {
            slot: 3,
            number: 8,
            job: 100,
        }],
        best: &[Cast {
            slot: 3,
            number: 9,
            job: 0,
        }],
    },
    // Of one ballot both are for one entry; the first stays.
    Row {
        own: &[Cast {
            slot: 3,
            number: 9,
            job: 0,
        }],
        heard: &[Cast {
            slot: 3,
            number: 9,
            job: 100,
        }],
        best: &[Cast {
            slot: 3,
            number: 9,
            job: 0,
        }],
    },
    // Before, between, at and behind its own.
    Row {
        own: &[
            Cast {
                slot: 2,
                number: 16,
                job: 0,
            },
            Cast {
                slot: 4,
                number: 8,
                job: 1,
            },
            Cast {
                slot: 6,
                number: 8,
                job: 2,
            },
        ],
        heard: &[
            Cast {
                slot: 1,
                number: 9,
                job: 100,
            },
            Cast {
                slot: 2,
                number: 9,
                job: 101,
            },
            Cast {
                slot: 3,
                number: 9,
                job: 102,
            },
            Cast {
                slot: 4,
                number: 9,
                job: 103,
            },
            Cast {
                slot: 7,
                number: 9,
                job: 104,
            },
            Cast {
                slot: 8,
                number: 17,
                job: 105,
            },
        ],
        best: &[
            Cast {
                slot: 1,
                number: 9,
                job: 100,
            },
            Cast {
                slot: 2,
                number: 16,
                job: 0,
            },
            Cast {
                slot: 3,
                number: 9,
                job: 102,
            },
            Cast {
                slot: 4,
                number: 9,
                job: 103,
            },
            Cast {
                slot: 6,
                number: 8,
                job: 2,
            },
            Cast {
                slot: 7,
                number: 9,
                job: 104,
            },
            Cast {
                slot: 8,
                number: 17,
                job: 105,
            },
        ],
    },
    // In no order, and with slots named twice.
    Row {
        own: &[
            Cast {
                slot: 2,
                number: 8,
                job: 0,
            },
            Cast {
                slot: 9,
                number: 16,
                job: 1,
            },
        ],
        heard: &[
            Cast {
                slot: 5,
                number: 9,
                job: 100,
            },
            Cast {
                slot: 1,
                number: 9,
                job: 101,
            },
            Cast {
                slot: 5,
                number: 10,
                job: 102,
            },
            Cast {
                slot: 5,
                number: 10,
                job: 103,
            },
            Cast {
                slot: 2,
                number: 8,
                job: 104,
            },
            Cast {
                slot: 9,
                number: 17,
                job: 105,
            },
            Cast {
                slot: 0,
                number: 8,
                job: 106,
            },
            Cast {
                slot: 9,
                number: 9,
                job: 107,
            },
            Cast {
                slot: 10,
                number: 8,
                job: 108,
            },
        ],
        best: &[
            Cast {
                slot: 0,
                number: 8,
                job: 106,
            },
            Cast {
                slot: 1,
                number: 9,
                job: 101,
            },
            Cast {
                slot: 2,
                number: 8,
                job: 0,
            },
            Cast {
                slot: 5,
                number: 10,
                job: 102,
            },
            Cast {
                slot: 9,
                number: 17,
                job: 105,
            },
            Cast {
                slot: 10,
                number: 8,
                job: 108,
            },
        ],
    },
];

fn best_votes(alloc: Global, row: &Row) -> Result<Vec<Vote>, Fail> {
    let own = list_of(alloc, row.own)?;
    let heard = votes_of(alloc, row.heard)?;
    Ok(best_of(alloc, &own.items, &heard)?)
}

#[test]
fn at_each_slot_the_highest_vote_is_the_best(rt: HostRuntime) -> Result<(), Fail> {
    for row in ROWS {
        let found = best_votes(rt.alloc(), row)?;
        let want = votes_of(rt.alloc(), row.best)?;
        let heard = row.heard;
        assert_eq!(rt; found.as_slice(), want.as_slice(), "{heard:?}");
    }
    Ok(())
}

// How many votes each of two long lists has.
const LONG: u64 = 20_000;

// Votes at so many slots, at each second one from the first on.
fn long_list(alloc: Global, first: u64) -> Result<Vec<Vote>, Fail> {
    let mut votes = Vec::new(alloc);
    for number in 0..LONG {
        votes.push(vote_of(Cast {
            slot: first.saturating_add(number.saturating_mul(2)),
            number: 8,
            job: 0,
        })?)?;
    }
    Ok(votes)
}

// Want of memory is answered only where there is none.
#[test]
fn long_lists_are_merged(rt: HostRuntime) -> Result<(), Fail> {
    let even = best_of(rt.alloc(), &[], &long_list(rt.alloc(), 0)?)?;
    let both = best_of(rt.alloc(), &even, &long_list(rt.alloc(), 1)?)?;
    assert_eq!(rt; both.len(), 40_000);
    Ok(())
}
