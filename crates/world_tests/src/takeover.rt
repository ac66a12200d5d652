//! A takeover: a leader proposes a start and stops, another takes over, and the launch is called twice and held once.
use crate::hour::{FROM, table_of_one};
use crate::scene::{Scene, begin, play};
use crate::turns::has_turns;
use cluster_sched::{Fate, Name, SchedRow};
use history::{CallRow, Cause, Turn};
use paxos_base::{Entry, Kind};
use replica_core::LearntRow;
use std::process::Abort;
use std::test::*;
use world_law::Book;
use zone_minutes::Minute;

// The launch that is due at the window's first instant, as replica 2 calls it there.
const LAUNCH: SchedRow = SchedRow {
    name: Name { job: 0, at: FROM },
    kind: Kind::Launch,
    now: Minute(FROM),
    by: 2,
};

// The start of that launch, in the first slot.
const START: LearntRow = LearntRow {
    slot: 0,
    entry: Entry::Start {
        job: 0,
        at: FROM,
        now: FROM,
    },
};

const TICK: Cause = Cause::Tick { now: Minute(FROM) };

// Replica 0 leads by the promise of replica 1, and proposes the start, for which replica 1 votes. Both stop, and start again. Replica
// 2 leads by the promise of replica 1, which tells that vote; it proposes the start once more, and learns that it is chosen. Replica
// 0 learns it too; replica 1 hears the first proposal again, late, and refuses. Replica 2 calls the scheduler: the first call goes
// late, and arrives; the second is answered by it. Then it proposes the launch's end.
const TURNS: &[Turn] = &[
    Turn::Did {
        who: 0,
        cause: Cause::Campaign,
        call: None,
    },
    Turn::Did {
        who: 1,
        cause: Cause::Hear { letter: 0 },
        call: None,
    },
    Turn::Did {
        who: 0,
        cause: Cause::Hear { letter: 2 },
        call: None,
    },
    Turn::Did {
        who: 0,
        cause: TICK,
        call: None,
    },
    Turn::Did {
        who: 1,
        cause: Cause::Hear { letter: 3 },
        call: None,
    },
    Turn::Stopped {
        who: 0,
        cause: None,
        kept: false,
    },
    Turn::Restarted { who: 0 },
    Turn::Stopped {
        who: 1,
        cause: None,
        kept: false,
    },
    Turn::Restarted { who: 1 },
    Turn::Did {
        who: 2,
        cause: Cause::Campaign,
        call: None,
    },
    Turn::Did {
        who: 1,
        cause: Cause::Hear { letter: 7 },
        call: None,
    },
    Turn::Did {
        who: 2,
        cause: Cause::Hear { letter: 8 },
        call: None,
    },
    Turn::Did {
        who: 2,
        cause: TICK,
        call: None,
    },
    Turn::Did {
        who: 1,
        cause: Cause::Hear { letter: 10 },
        call: None,
    },
    Turn::Did {
        who: 2,
        cause: Cause::Hear { letter: 11 },
        call: None,
    },
    Turn::Did {
        who: 0,
        cause: Cause::Hear { letter: 12 },
        call: None,
    },
    Turn::Did {
        who: 1,
        cause: Cause::Hear { letter: 3 },
        call: None,
    },
    Turn::Did {
        who: 2,
        cause: TICK,
        call: Some(CallRow {
            row: LAUNCH,
            fate: Fate::Late,
            answer: None,
        }),
    },
    Turn::Arrived { late: 0 },
    Turn::Did {
        who: 2,
        cause: TICK,
        call: Some(CallRow {
            row: LAUNCH,
            fate: Fate::Done,
            answer: Some(LAUNCH),
        }),
    },
    Turn::Did {
        who: 2,
        cause: Cause::Answer,
        call: None,
    },
];

// To whom the letters go, and in which turn.
const LETTERS: &[(u8, u64)] = &[
    (1, 0),
    (2, 0),
    (0, 1),
    (1, 3),
    (2, 3),
    (0, 4),
    (0, 9),
    (1, 9),
    (2, 10),
    (0, 12),
    (1, 12),
    (2, 13),
    (0, 14),
    (1, 14),
    (0, 16),
    (0, 20),
    (1, 20),
];

// What each replica has learned since it started last.
const LEARNED: &[&[LearntRow]] = &[&[START], &[], &[START]];

fn letters_go(rt: &impl Abort, book: &Book) {
    assert_eq!(rt; book.letters().len(), LETTERS.len());
    for (letter, want) in book.letters().iter().zip(LETTERS) {
        assert_eq!(rt; (letter.to, letter.turn), *want);
    }
}

fn holds_once(rt: &impl Abort, book: &Book) {
    assert!(rt; has_turns(book, TURNS));
    assert_eq!(rt; book.ledger().held(), [LAUNCH].as_slice());
    assert_eq!(rt; book.ledger().late(), [LAUNCH].as_slice());
    assert_eq!(rt; book.arrived(), [0].as_slice());
}

fn learned(rt: &impl Abort, scene: &Scene) {
    assert_eq!(rt; scene.seats.len(), LEARNED.len());
    for (seat, want) in scene.seats.iter().zip(LEARNED) {
        assert_eq!(rt; seat.learned.as_slice(), *want);
    }
}

#[test]
fn a_launch_is_held_once_and_its_start_is_learned(rt: HostRuntime) -> Result<(), Fail> {
    let table = table_of_one(rt.alloc())?;
    let mut scene = begin(&rt, rt.alloc(), &table, 3)?;
    play(&rt, rt.alloc(), &table, &mut scene, TURNS)?;
    holds_once(&rt, &scene.book);
    letters_go(&rt, &scene.book);
    learned(&rt, &scene);
    Ok(())
}
