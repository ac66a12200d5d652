//! Turns of one of three replicas, and of one alone.
use crate::hour::{FROM, table_of_one};
use crate::scene::{begin, play};
use cluster_sched::{Fate, Name, SchedRow};
use history::{CallRow, Cause, Turn};
use paxos_base::Kind;
use std::process::Abort;
use std::test::*;
use world_law::{Book, LetterRow};
use zone_minutes::Minute;

// The launch that is due at the window's first instant, called there.
const LAUNCH: SchedRow = SchedRow {
    name: Name { job: 0, at: FROM },
    kind: Kind::Launch,
    now: Minute(FROM),
    by: 0,
};

const CAMPAIGN: Turn = Turn::Did {
    who: 0,
    cause: Cause::Campaign,
    call: None,
};

const TICK: Cause = Cause::Tick { now: Minute(FROM) };

// The replica leads, starts the launch, and calls it.
const LAUNCHES: &[Turn] = &[
    CAMPAIGN,
    Turn::Did {
        who: 0,
        cause: TICK,
        call: None,
    },
    Turn::Did {
        who: 0,
        cause: TICK,
        call: Some(CallRow {
            row: LAUNCH,
            fate: Fate::Done,
            answer: Some(LAUNCH),
        }),
    },
];

// Whether a book has just these turns.
pub(crate) fn has_turns(book: &Book, wanted: &[Turn]) -> bool {
    let rows = book.turns();
    rows.len() == wanted.len()
        && rows
            .iter()
            .zip(wanted)
            .all(|(row, turn)| row.turn() == *turn)
}

fn is_from(letter: &LetterRow, to: u8) -> bool {
    letter.from == 0 && letter.to == to && letter.turn == 0
}

fn asks_both(rt: &impl Abort, book: &Book) {
    assert!(rt; has_turns(book, &[CAMPAIGN]));
    assert_eq!(rt; book.letters().len(), 2);
    for (letter, to) in book.letters().iter().zip(1..3) {
        assert!(rt; is_from(letter, to));
    }
}

#[test]
fn a_campaign_is_a_turn_with_two_letters(rt: HostRuntime) -> Result<(), Fail> {
    let table = table_of_one(rt.alloc())?;
    let mut scene = begin(&rt, rt.alloc(), &table, 3)?;
    play(&rt, rt.alloc(), &table, &mut scene, &[CAMPAIGN])?;
    asks_both(&rt, &scene.book);
    Ok(())
}

fn holds_launch(rt: &impl Abort, book: &Book) {
    assert!(rt; has_turns(book, LAUNCHES));
    assert_eq!(rt; book.ledger().held(), [LAUNCH].as_slice());
    assert!(rt; book.arrived().is_empty());
}

#[test]
fn a_launch_is_called_as_part_of_its_turn(rt: HostRuntime) -> Result<(), Fail> {
    let table = table_of_one(rt.alloc())?;
    let mut scene = begin(&rt, rt.alloc(), &table, 1)?;
    play(&rt, rt.alloc(), &table, &mut scene, LAUNCHES)?;
    holds_launch(&rt, &scene.book);
    Ok(())
}
