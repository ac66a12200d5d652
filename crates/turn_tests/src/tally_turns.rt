//! A tally at which each seat adds its rows, by one thread or many.
ghost use Rattle.std.specs.Prelude.{◌≡◌, ◌<◌, ◌≤◌, ◌++◌, [], ◌∷◌, OnOk, length};
ghost use Rattle.turn_book.specs.Turns.{IsSeatOf, number_of, own_rows};
ghost use Rattle.turn_tests.specs.Jobs.{AreJobs};

use crate::job::Job;
use crate::jobs::{close, jobs_of};
use crate::tally::{Entry, Tally};
use cron_io::OutOfMemory;
use std::alloc::Global;
use std::sync::Wait;
use std::thread;
use std::thread::Threads;
use turn_book::{TurnBook, TurnSeat};

// Takes a turn of the seat, and commits the row, or leaves where there is no memory for it.
fn commit_one<R: Wait>(
    rt: &R,
    book: &TurnBook<Tally>,
    seat: &mut TurnSeat<Tally>,
    row: Entry,
) -> Result<(), OutOfMemory>
    requires seat { IsSeatOf book.now seat.old }
    requires names { row.seat ≡ number_of seat.old }
    ensures seat { IsSeatOf book.now seat.new }
    ensures number { number_of seat.new ≡ number_of seat.old }
    ensures own { OnOk result (own_rows seat.new ≡ own_rows seat.old ++ row ∷ []) }
{
    let mut turn = book.enter(rt, seat);
    match turn.reserve(&()) {
        Ok(()) => {
            turn.commit(&(), row);
            Ok(())
        }
        Err(full) => {
            turn.leave();
            Err(full)
        }
    }
}

/// The number in the rows that a tally has at first: no seat's.
const FIRST: u8 = 9;

/// A play of a tally: so many rows at first, which name no seat of it, so many seats, of which the first ones add so many
/// rows each, and so many threads.
#[derive(Drop)]
struct Play {
    first: u32,
    seats: u8,
    adding: u8,
    count: u32,
    threads: usize,
}

impl Play {
    // How many rows the seat at a place adds.
    fn count_of(&self, place: usize) -> u32 {
        if place < self.adding as usize {
            self.count
        } else {
            0
        }
    }
}

// Adds the rows of the seat, as long as there is memory.
fn run_one<R: Wait>(rt: &R, book: &TurnBook<Tally>, who: usize, play: &Play, job: &mut Job<Tally>)
    requires seat { IsSeatOf book.now job.old.seat }
    requires who { number_of job.old.seat ≡ who }
    requires small { who < 256 }
    ensures seat { IsSeatOf book.now job.new.seat }
    ensures who { number_of job.new.seat ≡ who }
{
    'rows: for number in 0..play.count_of(who) {
        let row = Entry {
            seat: who as u8,
            number,
        };
        if commit_one(rt, book, &mut job.seat, row).is_err() {
            return;
        }
        job.done = number + 1;
    }
}

// The seats that add rows do, by so many threads.
fn run_all<R: Threads + Wait + Sync>(
    rt: &R,
    book: &TurnBook<Tally>,
    jobs: &mut [Job<Tally>],
    play: &Play,
)
    requires jobs { AreJobs book.now jobs.old }
    requires few { length jobs.old ≤ 7 }
    ensures jobs { AreJobs book.now jobs.new }
    ensures count { length jobs.new ≡ length jobs.old }
{
    thread::for_each_mut(
        rt,
        jobs,
        play.threads.max(1),
        &|i, job| { run_one(rt, book, i, play, job) },
    );
}

// So many rows that name no seat of a play.
fn first_rows(alloc: Global, count: u32) -> Result<Vec<Entry>, OutOfMemory> {
    let mut rows = Vec::new(alloc);
    for number in 0..count {
        rows.push(Entry {
            seat: FIRST,
            number,
        })?;
    }
    Ok(rows)
}

// The rows that a play ends with.
fn rows_of<R: Threads + Wait + Sync>(
    rt: &R,
    alloc: Global,
    play: &Play,
) -> Result<Vec<Entry>, OutOfMemory> {
    let seats = play.seats.clamp(1, 7);
    let rows = first_rows(alloc, play.first)?;
    let (book, seats) = TurnBook::new(alloc, &(), Tally { rows }, seats)?;
    let mut jobs = jobs_of(alloc, &book, seats)?;
    run_all(rt, &book, jobs.as_mut_slice(), play);
    Ok(close(alloc, book, jobs)?.rows)
}

// Whether the rows of a seat are so many, in the order of their numbers.
fn is_in_order(rows: &[Entry], seat: u8, count: u32) -> bool {
    let mut next = 0u32;
    for row in rows {
        if row.seat == seat {
            if row.number != next {
                return false;
            }
            next = next.wrapping_add(1);
        }
    }
    next == count
}

// Whether a play ends with its first rows, then those of each seat that adds some, and no others.
fn has_each_once(rows: &[Entry], play: &Play) -> bool {
    rows.iter()
        .take(play.first as usize)
        .all(|row| row.seat == FIRST)
        && rows
            .iter()
            .all(|row| row.seat == FIRST || row.seat < play.adding)
        && is_in_order(rows, FIRST, play.first)
        && (0..play.adding).all(|seat| is_in_order(rows, seat, play.count))
}

const PLAYS: &[Play] = &[
    Play {
        first: 0,
        seats: 2,
        adding: 2,
        count: 3,
        threads: 1,
    },
    Play {
        first: 0,
        seats: 7,
        adding: 7,
        count: 3,
        threads: 7,
    },
    Play {
        first: 2,
        seats: 2,
        adding: 2,
        count: 50,
        threads: 2,
    },
    Play {
        first: 2,
        seats: 7,
        adding: 6,
        count: 3,
        threads: 1,
    },
];

#[test]
fn each_seat_has_its_rows(rt: HostRuntime) -> Result<(), OutOfMemory> {
    for play in PLAYS {
        let rows = rows_of(&rt, rt.alloc(), play)?;
        assert!(rt; has_each_once(rows.as_slice(), play));
    }
    Ok(())
}

#[test]
fn one_of_two_seats_commits_a_row(rt: HostRuntime) -> Result<(), OutOfMemory> {
    let play = Play {
        first: 0,
        seats: 2,
        adding: 1,
        count: 1,
        threads: 1,
    };
    let rows = rows_of(&rt, rt.alloc(), &play)?;
    assert_eq!(rt; rows.as_slice(), [Entry { seat: 0, number: 0 }].as_slice());
    Ok(())
}

#[test]
fn seven_threads_lose_no_row(rt: HostRuntime) -> Result<(), OutOfMemory> {
    let play = Play {
        first: 0,
        seats: 7,
        adding: 7,
        count: 20_000,
        threads: 7,
    };
    let rows = rows_of(&rt, rt.alloc(), &play)?;
    assert!(rt; has_each_once(rows.as_slice(), &play));
    Ok(())
}
