//! A rota whose seats take their shifts in turn, whichever of them comes first.
ghost use Rattle.std.specs.Prelude.{◌≡◌, ◌<◌, ◌≤◌, length};
ghost use Rattle.turn_book.specs.Turns.{IsSeatOf, number_of, opening_of};
ghost use Rattle.turn_tests.specs.Jobs.{AreJobs};

use crate::job::Job;
use crate::jobs::{close, jobs_of};
use crate::rota::{Rota, Shift, call_next};
use cron_io::OutOfMemory;
use std::alloc::Global;
use std::sync::Wait;
use std::thread;
use std::thread::Threads;
use turn_book::{TurnBook, TurnSeat};

/// How often a seat tries for its shifts. Where no thread can be made, this ends the test.
const TRIES: u32 = 1_000_000;

// Takes the shift of the seat where it is the next one, and says whether it was.
fn shift_one<R: Wait>(rt: &R, book: &TurnBook<Rota>, seat: &mut TurnSeat<Rota>, who: u8) -> bool
    requires seat { IsSeatOf book.now seat.old }
    requires who { who ≡ number_of seat.old }
    requires some_seat { 0 < (opening_of book.now).state.value.seats }
    ensures seat { IsSeatOf book.now seat.new }
    ensures number { number_of seat.new ≡ number_of seat.old }
{
    let mut turn = book.enter(rt, seat);
    match turn.reserve(&()) {
        Err(_) => {
            turn.leave();
            false
        }
        Ok(()) => {
            if call_next(turn.state(), who) {
                turn.commit(&(), Shift { seat: who });
                true
            } else {
                turn.leave();
                false
            }
        }
    }
}

// Tries for so many shifts of the seat, and gives up after many tries.
fn run_one<R: Wait>(rt: &R, book: &TurnBook<Rota>, who: usize, count: u32, job: &mut Job<Rota>)
    requires seat { IsSeatOf book.now job.old.seat }
    requires who { number_of job.old.seat ≡ who }
    requires small { who < 256 }
    requires some_seat { 0 < (opening_of book.now).state.value.seats }
    ensures seat { IsSeatOf book.now job.new.seat }
    ensures who { number_of job.new.seat ≡ who }
{
    'tries: for _try in 0..TRIES {
        if job.done >= count {
            return;
        }
        if shift_one(rt, book, &mut job.seat, who as u8) {
            job.done += 1;
        }
        thread::yield_now();
    }
}

// Each seat takes so many shifts, in a thread of its own.
fn run_all<R: Threads + Wait + Sync>(
    rt: &R,
    book: &TurnBook<Rota>,
    jobs: &mut [Job<Rota>],
    count: u32,
)
    requires jobs { AreJobs book.now jobs.old }
    requires few { length jobs.old ≤ 7 }
    requires some_seat { 0 < (opening_of book.now).state.value.seats }
    ensures jobs { AreJobs book.now jobs.new }
    ensures count { length jobs.new ≡ length jobs.old }
{
    thread::for_each_mut(rt, jobs, 7, &|i, job| { run_one(rt, book, i, count, job) });
}

// The shifts after each of so many seats has taken so many.
fn shifts_of<R: Threads + Wait + Sync>(
    rt: &R,
    alloc: Global,
    seats: u8,
    count: u32,
) -> Result<Vec<Shift>, OutOfMemory>
    requires { (0 < seats) × (seats ≤ 7) }
{
    let rota = Rota {
        seats,
        shifts: Vec::new(alloc),
        called: None,
    };
    let (book, seats) = TurnBook::new(alloc, &(), rota, seats)?;
    let mut jobs = jobs_of(alloc, &book, seats)?;
    run_all(rt, &book, jobs.as_mut_slice(), count);
    Ok(close(alloc, book, jobs)?.shifts)
}

// Whether the shifts are those of so many seats in turn.
fn are_in_turn(shifts: &[Shift], seats: u8) -> bool
    requires { 0 < seats }
{
    for place in 0..shifts.len() {
        if shifts[place].seat as usize != place % seats as usize {
            return false;
        }
    }
    true
}

#[test]
fn two_seats_take_shifts_in_turn(rt: HostRuntime) -> Result<(), OutOfMemory> {
    let shifts = shifts_of(&rt, rt.alloc(), 2, 50)?;
    assert_eq!(rt; shifts.len(), 100);
    assert!(rt; are_in_turn(shifts.as_slice(), 2));
    Ok(())
}

#[test]
fn seven_seats_take_shifts_in_turn(rt: HostRuntime) -> Result<(), OutOfMemory> {
    let shifts = shifts_of(&rt, rt.alloc(), 7, 5)?;
    assert_eq!(rt; shifts.len(), 35);
    assert!(rt; are_in_turn(shifts.as_slice(), 7));
    Ok(())
}
