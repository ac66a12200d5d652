//! Jobs of seats, and the seats of jobs.
ghost use Rattle.std.specs.Prelude.{◌≡◌, IfOk, length, map};
ghost use Rattle.turn_book.specs.Turns.{AreNewSeats, seats_of};
ghost use Rattle.turn_tests.specs.Jobs.{AreJobs, seat_of};

use crate::job::Job;
use cron_io::OutOfMemory;
use std::alloc::Global;
use turn_book::{Law, TurnBook, TurnSeat};

// A job for each seat.
fn with_work<L: Law>(alloc: Global, seats: Vec<TurnSeat<L>>) -> Result<Vec<Job<L>>, OutOfMemory>
    ensures { IfOk result (λ jobs. map seat_of jobs.items ≡ seats.items) }
{
    let mut jobs = Vec::new(alloc);
    'seats: for seat in seats {
        jobs.push(Job { seat, done: 0 })?;
    }
    Ok(jobs)
}

// The seats of the jobs.
fn without_work<L: Law>(alloc: Global, jobs: Vec<Job<L>>) -> Result<Vec<TurnSeat<L>>, OutOfMemory>
    ensures { IfOk result (λ seats. seats.items ≡ map seat_of jobs.items) }
{
    let mut seats = Vec::new(alloc);
    'jobs: for job in jobs {
        let Job { seat, .. } = job;
        seats.push(seat)?;
    }
    Ok(seats)
}

/// A job for each seat of the book.
pub fn jobs_of<L: Law>(
    alloc: Global,
    book: &TurnBook<L>,
    seats: Vec<TurnSeat<L>>,
) -> Result<Vec<Job<L>>, OutOfMemory>
    requires { AreNewSeats book.now 0 seats.items }
    ensures jobs { IfOk result (λ jobs. AreJobs book.now jobs.items) }
    ensures count { IfOk result (λ jobs. length jobs.items ≡ length seats.items) }
{
    let _ = book;
    let jobs = with_work(alloc, seats)?;
    Ok(jobs)
}

/// Ends the book, whose seats the jobs have.
pub fn close<L: Law>(alloc: Global, book: TurnBook<L>, jobs: Vec<Job<L>>) -> Result<L, OutOfMemory>
    requires jobs { AreJobs book jobs.items }
    requires count { length jobs.items ≡ seats_of book }
{
    let seats = without_work(alloc, jobs)?;
    Ok(book.close(seats))
}
