//! Lanes: the book is the same, whatever their number.
ghost use Rattle.std.specs.Prelude.{◌<◌};
ghost use Rattle.zone_minutes.specs.declared.minute.Window.{Window};
ghost use Rattle.rounds_tests.specs.Plays.{AreTaken, IsHour};

use crate::hour::{LATER, table_of_one};
use crate::worlds::{play_on, send_again, world_after};
use disk_model::MemDisk;
use due_set::JobTable;
use script_text::Command;
use std::alloc::Global;
use std::process::Abort;
use std::test::*;
use std::thread::Threads;
use world_law::{Book, LetterRow, TurnRow};
use world_rounds::World;

fn is_same_letter(one: &LetterRow, other: &LetterRow) -> bool {
    let way = one.from == other.from && one.to == other.to;
    way && one.turn == other.turn && one.bytes.bytes() == other.bytes.bytes()
}

fn are_same_letters(one: &[LetterRow], other: &[LetterRow]) -> bool {
    if one.len() != other.len() {
        return false;
    }
    for (left, right) in one.iter().zip(other) {
        if !is_same_letter(left, right) {
            return false;
        }
    }
    true
}

fn are_same_turns(one: &[TurnRow], other: &[TurnRow]) -> bool {
    one.len() == other.len()
        && one
            .iter()
            .zip(other)
            .all(|(left, right)| left.turn() == right.turn())
}

/// Whether the books have the same turns, letters and held rows.
pub fn is_same_book(one: &Book, other: &Book) -> bool {
    let held = one.ledger().held() == other.ledger().held();
    let turns = are_same_turns(one.turns(), other.turns());
    held && turns && are_same_letters(one.letters(), other.letters())
}

// The world of three replicas after some commands, a letter that joined its mail again 512 times, and a round.
fn crowded_world<R: Threads + Sync>(
    rt: &R,
    alloc: Global,
    table: &JobTable,
    commands: &[Command],
    lanes: u8,
) -> Result<World<MemDisk>, Fail>
    requires lanes { 0 < lanes }
    requires hour { IsHour table.now.window }
    requires taken { AreTaken table.now.window 3 commands.now }
{
    let world = world_after(rt, alloc, table, 3, commands, lanes)?;
    let world = send_again(rt, world, table, 1, 512)?;
    let round = [Command::Round {
        at: LATER,
        rounds: 1,
    }];
    play_on(rt, world, table, &round, lanes)
}

// Whether three replicas have the same book after some commands and such a round in one lane and in so many.
fn is_same_in<R: Threads + Sync>(
    rt: &R,
    alloc: Global,
    commands: &[Command],
    lanes: u8,
) -> Result<bool, Fail>
    requires lanes { 0 < lanes }
    requires taken { (window : Window) → IsHour window → AreTaken window 3 commands.now }
{
    let table = table_of_one(alloc)?;
    let plain = crowded_world(rt, alloc, &table, commands, 1)?;
    let shared = crowded_world(rt, alloc, &table, commands, lanes)?;
    Ok(is_same_book(plain.book(), shared.book()))
}

// A replica for each lane, and more lanes than replicas. A disk is armed, so that replica 1 stops as it votes in the third round.
#[test]
fn lanes_make_no_difference(rt: HostRuntime) -> Result<(), Fail> {
    let commands = [
        Command::Campaign { member: 0 },
        Command::Break {
            member: 1,
            pass: 6,
            image: 1,
        },
        Command::Round {
            at: LATER,
            rounds: 6,
        },
    ];
    let three = is_same_in(&rt, rt.alloc(), &commands, 3)?;
    assert!(rt; three);
    let eight = is_same_in(&rt, rt.alloc(), &commands, 8)?;
    assert!(rt; eight);
    Ok(())
}
